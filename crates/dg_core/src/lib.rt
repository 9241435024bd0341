//! One caller's core: edits, and reports that evaluate only what may have changed.
#![tactic(auto)]

mod evaluate;
mod judging_core;
mod law;
mod lineup;
mod openings;
mod reply;

pub use crate::judging_core::{Core, CoreFault};
pub use crate::law::{reports_after_events_are_from_scratch, unread_changes_leave_the_pending};
pub use crate::reply::Reply;
