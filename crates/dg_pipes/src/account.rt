//! What is told of a session once its gate has stopped.
use crate::item::{Item, Rule};
use rtrb::Finished;
use std::alloc::Global;

/// A session that was not closed. Where its ring gave it, all that its reader pushed.
#[derive(Drop)]
pub struct Account {
    /// The session's number.
    pub session: u32,
    /// What the reader pushed.
    pub finished: Option<Finished<Item, Global, Rule>>,
}
