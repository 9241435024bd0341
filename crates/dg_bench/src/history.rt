//! A history that was closed.
ghost use Rattle.std.specs.Prelude.{◌≡◌};

use crate::call::Call;
use std::marker::Model;

/// All calls of a bench, in their order.
pub struct History {
    pub(crate) calls: Vec<Call>,
}

/// Written by hand, and so one call for whoever lets it go.
impl Drop for History {
    fn drop(self) {
        let History { calls: _ } = self;
    }
}

impl Model for History {
    ghost use Rattle.std.specs.Prelude.{List};
    ghost use Rattle.dg_bench.specs.declared.call.Call.{Call};

    ghost Value = { List Call };

    ghost view = { λ h. h.calls.items };
}

impl History {
    /// The calls.
    pub fn calls(&self) -> &[Call]
        ensures { result.now ≡ self.now }
    {
        self.calls.as_slice()
    }
}
