//! Result classes, the result calls of a test, and its verdict.
#![tactic(auto)]

mod call;
mod class;
mod judging;
mod verdict;

pub use crate::call::ResultCall;
pub use crate::class::Class;
pub use crate::judging::Judging;
pub use crate::verdict::{Line, Tally, Verdict};
