//! How far a job is.
ghost use Rattle.std.specs.Prelude.{◌≡◌};

use dg_machine::{Asking, Evaluation, Readings};
use std::mem;

/// How far a job is.
#[derive(Drop)]
pub enum Stage {
    /// The evaluation goes on at the next turn.
    Running(Evaluation),
    /// A question stands.
    Asking(Asking),
    /// The record was handed out. What the evaluation read of texts is left.
    Finished(Readings),
    /// A growth was refused, or a pattern could not be built.
    Failed,
}

impl Stage {
    /// Puts another stage in the place of this one, which is let go.
    pub(crate) fn set(&mut self, next: Stage)
        ensures { self.new ≡ next }
    {
        let _old = mem::replace(self, next);
    }
}
