//! A cache of readings: each text is read once, and found again by its bytes.
#![tactic(auto)]

mod shelf;

pub use crate::shelf::{Reading, Shelf};
