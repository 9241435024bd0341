//! The way to child processes, as a judging sees it: what a gate may be asked and may answer, and
//! the one entry that each of its answers makes.
#![tactic(auto)]

mod asker;
mod call;
mod fault;
mod gate;
mod laws;
mod reply;
mod script;

pub use crate::asker::Asker;
pub use crate::call::perform;
pub use crate::fault::{AskFault, GateFault};
pub use crate::gate::Gate;
pub use crate::laws::made_entries_are_taken;
pub use crate::reply::{Ended, Piece, Reply};
pub use crate::script::ScriptGate;
