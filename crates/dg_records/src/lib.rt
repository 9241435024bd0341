//! Records of evaluations that were made.
#![tactic(auto)]

mod law;
mod reads;
mod record;
mod shelf;

pub use crate::law::{agreeing_worlds_give_the_verdict, more_answers_keep_the_verdict};
pub use crate::record::Record;
pub use crate::shelf::Shelf;
