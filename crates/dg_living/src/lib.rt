//! The law of live judging: where each child answers as it is asked, nothing departs from what was answered before, and the
//! answers form a transcript.
#![tactic(auto)]

mod law;

pub use crate::law::{live_judgings_are_replayed, the_judging_lives};
