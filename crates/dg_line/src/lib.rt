//! The command line of `runtest`: what its words ask for.
#![tactic(auto)]

mod fault;
mod options;
mod plan;
mod select;
mod values;
mod words;

pub use crate::fault::LineFault;
pub use crate::plan::{Mode, Plan, plan_of};
pub use crate::select::selection_of;
