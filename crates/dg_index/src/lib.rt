//! Kept records, with an index from what an edit touches to the records that read it.
#![tactic(auto)]

mod index;
mod kept;
mod looking;
mod marked;
mod marks;
mod numbers;
mod places;
mod placing;
mod topic;
mod touching;

pub use crate::kept::Kept;
pub use crate::topic::Topic;
