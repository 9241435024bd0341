//! Live runs: the judging of a test over a gate to child processes, and the transcript of it.
#![tactic(auto)]

mod fault;
mod known;
mod run;
mod sessions;

pub use crate::fault::LiveFault;
pub use crate::run::{run_live, run_live_with};
pub use dg_eval::Readings;
