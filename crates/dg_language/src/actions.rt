//! Where an evaluation stands: in which procedure calls, libraries and actions of `expect`.
ghost use Rattle.std.specs.Prelude.{◌≡◌, ◌∷◌, [], OnOk};
ghost use Rattle.dg_language.specs.State.{without_first, stands_in_action};

use std::alloc::{AllocError, Global};
use std::marker::Model;

/// For each procedure call, library and action of `expect` that evaluation stands in, whether it is
/// an action. A contract sees the list of them from the innermost out.
pub(crate) struct Actions {
    outermost_first: Vec<bool>,
}

impl Drop for Actions {
    fn drop(self) {
        let Actions { outermost_first: _ } = self;
    }
}

impl Model for Actions {
    ghost use Rattle.std.specs.Prelude.{Bool, List, reverse};

    ghost Value = { List Bool };

    ghost view = { λ a. reverse a.outermost_first.items };
}

impl Actions {
    /// Evaluation stands in none.
    pub(crate) fn new(alloc: Global) -> Actions
        ensures { result ≡ [] }
    {
        Actions {
            outermost_first: Vec::new(alloc),
        }
    }

    /// One more begins. `AllocError` if there is no room for it.
    pub(crate) fn enter(&mut self, is_action: bool) -> Result<(), AllocError>
        ensures { OnOk result (self.new ≡ is_action ∷ self.old) }
    {
        self.outermost_first.push(is_action)?;
        Ok(())
    }

    /// The innermost ends.
    pub(crate) fn leave(&mut self)
        ensures { self.new ≡ without_first self.old }
    {
        let _innermost = self.outermost_first.pop();
    }

    /// Whether evaluation stands in an action, and in no procedure or library inside of it.
    pub(crate) fn is_in_action(&self) -> bool
        ensures { result ≡ stands_in_action self.now }
    {
        match self.outermost_first.last() {
            Some(is_action) => *is_action,
            None => false,
        }
    }
}
