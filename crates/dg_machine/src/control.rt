//! The commands that evaluate scripts for each value, or catch their codes.
ghost use Rattle.std.specs.Prelude.{◌≡◌, ◌+◌, ◌<◌, IfOk, length};
ghost use Rattle.dg_language.specs.State.{assigned};
ghost use Rattle.dg_language.specs.Evaluation.{within};
ghost use Rattle.dg_language.specs.Control.{digit_of, caught, do_catch, do_foreach, do_control};
ghost use Rattle.dg_language.specs.Language.{evaluate};
ghost use Rattle.dg_machine.specs.declared.frame.Control.{Control};
ghost use Rattle.dg_machine.specs.Meaning.{all_back, weight_of, Comes, Goes, GoesAs};

use crate::frame::{Frame, Pace, Rounds};
use crate::machine::Machine;
use dg_bytes::{Bytes, Seq, TryCopy};
use dg_compiled::{Body, with_elements};
use dg_forms::{elements_held, elements_in, three};
use dg_language::{Code, ControlCommand, Queue, STEPS};
use dg_scope::LONGEST_VALUE;
use std::alloc::{AllocError, Global};

/// A code as a value.
fn digit_of(code: Code) -> &'static [u8]
    ensures { result.now ≡ digit_of code }
{
    match code {
        Code::Done => b"0",
        Code::Failed => b"1",
        Code::Returned => b"2",
        Code::Broken => b"3",
        Code::Continued => b"4",
        Code::ExpContinued => b"5",
    }
}

impl Machine {
    /// `catch script` and `catch script name`.
    #[tactic(auto, unfolding(dg_language::specs::Control::do_catch, crate::specs::Meaning::back, crate::specs::Meaning::all_back, crate::specs::Meaning::weight, crate::specs::Meaning::stack_weight))]
    fn catch(&mut self, alloc: Global, args: &[Bytes], depth: u32) -> Result<Pace, AllocError>
        requires { self.old.control ≡ Control.Go }
        ensures { IfOk result (GoesAs (do_catch (evaluate depth) args.now) 9 self.old self.new) }
    {
        let (script, name) = match args {
            [script] => (script, None),
            [script, name] => (script, Some(name.copy(alloc)?)),
            _ => return self.wrong_count(alloc, b"catch"),
        };
        self.stack.push(Frame::Catching { name })?;
        let script = script.copy(alloc)?;
        self.enter(alloc, script, depth)
    }

    /// What was caught: the value goes to the name, and the code is the value.
    #[tactic(auto, unfolding(dg_language::specs::Control::caught, crate::specs::Meaning::rest, crate::specs::Meaning::weight))]
    pub(crate) fn caught(
        &mut self,
        alloc: Global,
        name: Option<Bytes>,
        code: Code,
        value: Bytes,
    ) -> Result<Pace, AllocError>
        requires { self.old.control ≡ Control.Go }
        ensures { IfOk result (λ p. Comes (caught name (all_back self.old.stack) code value self.old.state)
            self.old.state.known (weight_of self.old + 4) self.new p) }
    {
        let Some(name) = name else {
            let digit = Bytes::from_slice(alloc, digit_of(code))?;
            self.end(Code::Done, digit);
            return Ok(Pace::Moved);
        };
        match self.ready(alloc, name.as_slice())? {
            Some(Pace::Stands(ask)) => {
                self.stack.push(Frame::Catching { name: Some(name) })?;
                self.end(code, value);
                Ok(Pace::Stands(ask))
            }
            Some(Pace::Over(closing)) => Ok(Pace::Over(closing)),
            Some(Pace::Moved) => Ok(Pace::Moved),
            Some(Pace::Lost) => Ok(Pace::Lost),
            None => self.keep_caught(alloc, name.as_slice(), code, value),
        }
    }

    /// What was caught goes to a name whose variable can be used.
    #[tactic(auto, unfolding(crate::specs::Meaning::rest, crate::specs::Meaning::weight))]
    fn keep_caught(
        &mut self,
        alloc: Global,
        name: &[u8],
        code: Code,
        value: Bytes,
    ) -> Result<Pace, AllocError>
        requires { self.old.control ≡ Control.Go }
        ensures { IfOk result (λ p. Goes (within (length value) self.old.state
            (all_back self.old.stack Code.Done (digit_of code) (assigned name.now value self.old.state)))
            self.old.state.known (weight_of self.old + 4) self.new p) }
    {
        if value.len() > LONGEST_VALUE {
            let closing = self.cut(alloc, b"value too long")?;
            return Ok(Pace::Over(closing));
        }
        let digit = Bytes::from_slice(alloc, digit_of(code))?;
        self.state.assign(alloc, name, value)?;
        self.end(Code::Done, digit);
        Ok(Pace::Moved)
    }

    /// `foreach names values body`.
    #[tactic(auto, unfolding(dg_language::specs::Control::do_foreach, crate::specs::Meaning::rest, crate::specs::Meaning::go, crate::specs::Meaning::weight, crate::specs::Meaning::stack_weight))]
    fn for_each(&mut self, alloc: Global, args: &[Bytes], depth: u32) -> Result<Pace, AllocError>
        requires { self.old.control ≡ Control.Go }
        ensures { IfOk result (GoesAs (do_foreach (evaluate depth) args.now) 9 self.old self.new) }
    {
        let Some((names, values, body)) = three(args) else {
            return self.wrong_count(alloc, b"foreach");
        };
        let names = match elements_in(alloc, names.as_slice())? {
            Ok(names) => names,
            Err(message) => return self.fail(alloc, message),
        };
        if names.is_empty() {
            let message = Bytes::from_slice(alloc, b"foreach varlist is empty")?;
            return self.fail(alloc, message);
        }
        let values = with_elements(alloc, &mut self.shelves.lists, values.copy(alloc)?)?;
        let values = match elements_held(alloc, &values)? {
            Ok(values) => Queue::new(values.into_vec()),
            Err(message) => return self.fail(alloc, message),
        };
        let rounds = Rounds {
            names,
            body: Body::new(alloc, &mut self.shelves.scripts, body)?,
            values,
            given: None,
            left: STEPS,
            depth,
        };
        self.stack.push(Frame::Looping { rounds })?;
        Ok(Pace::Moved)
    }

    /// A command that evaluates scripts for each value, or catches their codes.
    pub(crate) fn control(
        &mut self,
        alloc: Global,
        which: ControlCommand,
        args: &[Bytes],
        depth: u32,
    ) -> Result<Pace, AllocError>
        requires { self.old.control ≡ Control.Go }
        ensures { IfOk result (GoesAs (do_control (evaluate depth) which args.now) 9 self.old self.new) }
    {
        match which {
            ControlCommand::Foreach => self.for_each(alloc, args, depth),
            ControlCommand::Catch => self.catch(alloc, args, depth),
        }
    }
}
