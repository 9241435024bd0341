//! The calls of procedures.
ghost use Rattle.std.specs.Prelude.{◌≡◌, ◌<◌, IfOk};
ghost use Rattle.dg_language.specs.Procedures.{call_bound};
ghost use Rattle.dg_language.specs.Language.{evaluate};
ghost use Rattle.dg_machine.specs.declared.frame.Control.{Control};
ghost use Rattle.dg_machine.specs.Meaning.{all_back, GoesAs};

use crate::frame::{Frame, Pace};
use crate::machine::Machine;
use dg_bytes::{Bytes, Seq};
use dg_forms::is_too_long;
use dg_language::Binding;
use std::alloc::{AllocError, Global};

impl Machine {
    /// The call of a procedure: what its arguments are bound to, and its body.
    #[tactic(auto, unfolding(crate::specs::Meaning::back, crate::specs::Meaning::all_back, crate::specs::Meaning::weight, crate::specs::Meaning::stack_weight))]
    pub(crate) fn call(
        &mut self,
        alloc: Global,
        bindings: Option<Seq<Binding>>,
        name: &[u8],
        body: Bytes,
        depth: u32,
    ) -> Result<Pace, AllocError>
        requires { self.old.control ≡ Control.Go }
        ensures { IfOk result (GoesAs (call_bound (evaluate depth) bindings name.now body) 9 self.old self.new) }
    {
        let Some(bindings) = bindings else {
            let pace = self.wrong_count(alloc, name)?;
            return Ok(pace);
        };
        if is_too_long(bindings.as_slice()) {
            let closing = self.cut(alloc, b"value too long")?;
            return Ok(Pace::Over(closing));
        }
        self.state.enter(alloc, bindings)?;
        self.stack.push(Frame::Calling)?;
        let pace = self.enter(alloc, body, depth)?;
        Ok(pace)
    }
}
