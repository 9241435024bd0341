//! The result calls that an evaluation made.
ghost use Rattle.std.specs.Prelude.{◌≡◌, [], ◌∷◌, ◌++◌, OnOk, IfOk};
ghost use Rattle.dg_results.specs.Standing.{after_calls};

use dg_results::{Judging, ResultCall};
use std::alloc::{AllocError, Global};
use std::marker::Model;

/// Result calls in order.
pub struct Calls {
    inner: Vec<ResultCall>,
}

impl Drop for Calls {
    fn drop(self) {
        let Calls { inner: _ } = self;
    }
}

impl Model for Calls {
    ghost use Rattle.std.specs.Prelude.{List};
    ghost use Rattle.dg_results.specs.declared.call.ResultCall.{ResultCall};

    ghost Value = { List ResultCall };

    ghost view = { λ c. c.inner.items };
}

impl Calls {
    /// No calls.
    pub fn new(alloc: Global) -> Calls
        ensures { result ≡ [] }
    {
        Calls {
            inner: Vec::new(alloc),
        }
    }

    /// Adds a call at the end.
    pub fn push(&mut self, call: ResultCall) -> Result<(), AllocError>
        ensures { OnOk result (self.new ≡ self.old ++ call ∷ []) }
    {
        self.inner.push(call)?;
        Ok(())
    }

    /// The judging of these calls.
    pub fn judged(&self, alloc: Global) -> Result<Judging, AllocError>
        ensures { IfOk result (λ j. j ≡ after_calls self.now) }
    {
        let mut judging = Judging::new(alloc);
        for call in &self.inner {
            judging.take(alloc, call)?;
        }
        Ok(judging)
    }
}
