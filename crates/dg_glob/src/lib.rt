//! Globs: whether a pattern matches a text, and where in a text it matches first.
#![tactic(auto)]

mod glob;
mod items;
mod marks;
mod parts;
mod rows;
mod search;

pub use crate::glob::{Span, find_glob, string_match};
pub use crate::parts::{Parts, Trail};
