//! Child processes on pipes. One thread for each child reads its output into a ring, from which the
//! judging thread takes it.
#![tactic(auto)]

mod account;
mod bells;
mod child;
mod fault;
mod gate;
mod item;
mod reader;
mod session;
mod sessions;
mod slot;
mod taker;

pub use crate::account::Account;
pub use crate::bells::Bells;
pub use crate::gate::PipeGate;
pub use crate::item::{Item, Rule};
pub use crate::reader::pump;
pub use crate::session::{Fresh, OfRing, Session};
pub use crate::sessions::Sessions;
pub use crate::slot::Slot;
pub use crate::taker::take;
