//! The commands on strings and lists, and `format`, as functions of their words.
#![tactic(auto)]

mod answer;
mod bytes;
mod command;
mod fault;
mod field;
mod format;
mod index;
mod law;
mod lists;
mod numbers;
mod places;
mod strings;

pub use crate::command::run_pure;
pub use crate::fault::CmdFault;
pub use crate::format::run_format;
pub use crate::law::no_command_wants_memory;
pub use crate::lists::concat;
pub use crate::places::glob_matches;
pub use crate::strings::run_string;
