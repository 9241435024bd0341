//! Jobs: evaluations that stop at each question and go on from there.
#![tactic(auto)]

mod job;
mod stage;

pub use crate::job::{Job, JobFault, Turn};
pub use dg_machine::{Answers, Readings};
