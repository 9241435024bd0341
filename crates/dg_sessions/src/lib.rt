//! The sessions of an evaluation: how far each has come in its record, and what of its output was
//! read and not yet taken.
#![tactic(auto)]

mod phase;
mod session;
mod sessions;

pub use crate::phase::Phase;
pub use crate::session::{Session, id_of};
pub use crate::sessions::{MAX_KEPT, MAX_SESSIONS, MAX_USED, Sessions};
