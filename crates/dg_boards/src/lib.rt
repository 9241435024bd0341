//! Triplets of machines, and the tables of a board's settings.
#![tactic(auto)]

mod fault;
mod table;
mod triplet;

pub use crate::fault::TripletFault;
pub use crate::table::BoardTable;
pub use crate::triplet::{Triplet, matches_config};
