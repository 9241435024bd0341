//! The report of a run and its status, in the form of DejaGnu's `.sum` file.
#![tactic(auto)]

mod block;
mod judged;
mod lines;
mod page;
mod report;
mod summary;
mod tally;

pub use crate::block::Block;
pub use crate::judged::Judged;
pub use crate::report::{exit_status, sum_text};
