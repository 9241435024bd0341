//! Numbers for contents: each content that somebody holds has one of its own.
#![tactic(auto)]

mod contents;
mod hasher;

pub use crate::contents::Contents;
