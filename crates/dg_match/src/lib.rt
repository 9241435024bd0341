//! Matching of a session's output: the buffer that it goes into, patterns, and the book of
//! patterns.
#![tactic(auto)]

mod automata;
mod book;
mod buffer;
mod built;
mod fault;
mod found;
mod hit;
mod law;
mod needs;
mod pattern;
mod programs;
mod reading;
mod search;
mod starts;
mod watch;

pub use crate::book::PatternBook;
pub use crate::buffer::Buffer;
pub use crate::built::Built;
pub use crate::fault::PatternFault;
pub use crate::found::Found;
pub use crate::hit::Hit;
pub use crate::law::{chunks_are_heard_together, hits_are_one};
pub use crate::pattern::{Pattern, build};
pub use crate::programs::Programs;
pub use crate::reading::Reading;
pub use dg_glob::Span;
