//! A stopped evaluation, and how its commands begin and end.
ghost use Rattle.std.specs.Prelude.{◌≡◌, ◌+◌, ◌*◌, ◌^◌, ◌<◌, ◌∷◌, [], drop, length, IfOk, OnOk, ℕ, List};
ghost use Rattle.std.specs.Arc.{arc_value};
ghost use Rattle.dg_language.specs.Evaluation.{cut, out_of_steps, fail, wrong_count};
ghost use Rattle.dg_language.specs.Play.{Ends};
ghost use Rattle.dg_language.specs.Language.{commands_at, sequence, evaluate};
ghost use Rattle.dg_machine.specs.declared.frame.Control.{Control};
ghost use Rattle.dg_machine.specs.declared.frame.Frame.{Frame};
ghost use Rattle.dg_machine.specs.Meaning.{all_back, budget, weight, weight_of, ends_with, Comes, Goes, Readies, GoesAs};
ghost use Rattle.dg_compiled.specs.Making.{making_on};

use crate::boxed::Boxed;
use crate::frame::{Closing, Control, Frame, Pace, plain_ask};
use crate::readings::Shelves;
use dg_bytes::{Bytes, TryCopy};
use dg_compiled::{Begun, Commands, KEPT, Making, Script, Stack};
use dg_forms::wrong_count;
use dg_language::{Close, Code, State, Touch};
use dg_lists::fault_text;
use dg_scope::LONGEST_VALUE;
use std::alloc::{AllocError, Global};
use std::sync::Arc;

/// A stopped evaluation.
pub(crate) struct Machine {
    pub state: State,
    pub stack: Stack<Frame>,
    pub control: Control,
    /// What was read of texts, in a block that one evaluation hands on to the next.
    pub shelves: Box<Shelves>,
}

/// Written by hand, and so one call for whoever lets a machine go.
impl Drop for Machine {
    fn drop(self) {
        let Machine {
            state: _,
            stack: _,
            control: _,
            shelves: _,
        } = self;
    }
}

impl Machine {
    /// A machine that is about to go on with these frames, and with what was read of texts.
    pub(crate) fn new(state: State, stack: Stack<Frame>, shelves: Box<Shelves>) -> Machine
        ensures state { result.state ≡ state }
        ensures stack { result.stack ≡ stack }
        ensures control { result.control ≡ Control.Go }
    {
        Machine {
            state,
            stack,
            control: Control::Go,
            shelves,
        }
    }

    /// What was made so far, without the frames, and what was read of texts.
    pub(crate) fn into_parts(self) -> (State, Box<Shelves>)
        ensures { result.0 ≡ self.state }
    {
        let Machine {
            state,
            stack: _,
            control: _,
            shelves,
        } = self;
        (state, shelves)
    }

    /// A limit ends the evaluation as an error does.
    #[tactic(auto, unfolding(dg_language::specs::Evaluation::cut, dg_language::specs::Evaluation::aborted))]
    pub(crate) fn cut(&mut self, alloc: Global, why: &[u8]) -> Result<Boxed<Closing>, AllocError>
        ensures ends { IfOk result (λ c. cut why.now self.old.state ≡ ends_with c self.old.state) }
        ensures same { self.new ≡ self.old }
    {
        let judging = self.state.judged(alloc)?;
        let verdict = judging.abort(alloc, self.state.test().script().as_slice(), why)?;
        let closing = Closing {
            verdict,
            close: Close::Aborted,
        };
        let closing = Boxed::new(alloc, closing)?;
        Ok(closing)
    }

    /// No step is left, which ends the evaluation as an error does.
    #[tactic(auto, unfolding(dg_language::specs::Evaluation::out_of_steps))]
    pub(crate) fn out_of_steps(&mut self, alloc: Global) -> Result<Boxed<Closing>, AllocError>
        ensures ends { IfOk result (λ c. Ends (out_of_steps self.old.state) ≡ ends_with c self.old.state) }
        ensures same { self.new ≡ self.old }
    {
        let judging = self.state.judged(alloc)?;
        let name = self.state.test().script().as_slice();
        let verdict = judging.abort(alloc, name, b"step limit reached")?;
        let closing = Closing {
            verdict,
            close: Close::OutOfSteps,
        };
        let closing = Boxed::new(alloc, closing)?;
        Ok(closing)
    }

    /// An evaluation has ended with this code and value.
    pub(crate) fn end(&mut self, code: Code, value: Bytes)
        ensures { self.new ≡ record self.old { control = Control.Ended code value } }
    {
        self.control = Control::Ended { code, value };
    }

    /// The evaluation fails with a message.
    #[tactic(auto, unfolding(crate::specs::Meaning::rest, crate::specs::Meaning::weight))]
    pub(crate) fn fail(&mut self, alloc: Global, message: Bytes) -> Result<Pace, AllocError>
        requires { self.old.control ≡ Control.Go }
        ensures { IfOk result (GoesAs (fail message) 2 self.old self.new) }
    {
        if message.len() > LONGEST_VALUE {
            let closing = self.cut(alloc, b"value too long")?;
            return Ok(Pace::Over(closing));
        }
        self.end(Code::Failed, message);
        Ok(Pace::Moved)
    }

    /// A command has the wrong count of arguments.
    pub(crate) fn wrong_count(&mut self, alloc: Global, name: &[u8]) -> Result<Pace, AllocError>
        requires { self.old.control ≡ Control.Go }
        ensures { IfOk result (GoesAs (fail (wrong_count name.now)) 2 self.old self.new) }
    {
        let message = wrong_count(alloc, name)?;
        self.fail(alloc, message)
    }

    /// A variable is about to be used.
    #[tactic(auto, unfolding(dg_language::specs::Evaluation::cut, dg_language::specs::Evaluation::aborted))]
    pub(crate) fn ready(&mut self, alloc: Global, name: &[u8]) -> Result<Option<Pace>, AllocError>
        ensures { IfOk result (Readies name.now self.old self.new) }
    {
        match self.state.touch(alloc, name)? {
            Touch::Ready => Ok(None),
            Touch::Asking(question) => {
                let ask = plain_ask(alloc, question)?;
                Ok(Some(Pace::Stands(ask)))
            }
            Touch::TooLong => {
                let closing = self.cut(alloc, b"value too long")?;
                Ok(Some(Pace::Over(closing)))
            }
        }
    }

    /// The words of a command are made, in front of the commands that are left, if any are.
    #[tactic(auto, unfolding(crate::specs::Meaning::all_back, crate::specs::Meaning::back))]
    fn begin_command(
        &mut self,
        alloc: Global,
        commands: Script,
        making: Making,
        depth: u32,
    ) -> Result<Pace, AllocError>
        requires { self.old.control ≡ Control.Go }
        ensures comes { IfOk result (λ p. Comes
            (making_on making depth self.old.state (all_back (Frame.Sequence commands depth ∷ self.old.stack)))
            self.old.state.known (weight Control.Go self.old.state (Frame.Sequence commands depth ∷ self.old.stack) +
            budget making.purpose + 4 + 4 * length making.left) self.new p) }
        ensures counted { OnOk result (length making.left < 2 ^ 64) }
    {
        // The call shows the proof that the length is a `usize`.
        let _count = making.left.len();
        if commands.is_over() {
            return self.go_on(alloc, making, depth);
        }
        self.stack.push(Frame::Sequence { commands, depth })?;
        self.go_on(alloc, making, depth)
    }

    /// The words of the next command are made, or the value of the last is that of all.
    pub(crate) fn next_command(
        &mut self,
        alloc: Global,
        mut commands: Script,
        value: Bytes,
        depth: u32,
    ) -> Result<Pace, AllocError>
        requires { self.old.control ≡ Control.Go }
        ensures { IfOk result (λ p. Comes
            (sequence (evaluate depth) commands value self.old.state (all_back self.old.stack)) self.old.state.known
            (weight_of self.old + 3) self.new p) }
    {
        match commands.next(alloc)? {
            None => {
                self.end(Code::Done, value);
                Ok(Pace::Moved)
            }
            Some(Begun::Unreadable(fault)) => {
                let message = Bytes::from_slice(alloc, fault_text(fault))?;
                self.fail(alloc, message)
            }
            Some(Begun::Words(steps)) => {
                if !self.state.has_step() {
                    let closing = self.out_of_steps(alloc)?;
                    return Ok(Pace::Over(closing));
                }
                self.state.take_step();
                let making = steps.begun(alloc, &self.state)?;
                self.begin_command(alloc, commands, making, depth)
            }
        }
    }

    /// The commands that are left go on: those that run where they stand do, and the words of the next one are made, or the
    /// value of the last is theirs.
    pub(crate) fn sequence(
        &mut self,
        alloc: Global,
        commands: Script,
        mut value: Bytes,
        depth: u32,
    ) -> Result<Pace, AllocError>
        requires { self.old.control ≡ Control.Go }
        ensures { IfOk result (λ p. Comes
            (sequence (evaluate depth) commands value self.old.state (all_back self.old.stack)) self.old.state.known
            (weight_of self.old + 3) self.new p) }
    {
        match commands.into_kept() {
            Ok((all, first)) => {
                let at = self.settle_from(alloc, &all, first, &mut value, depth)?;
                self.next_at(alloc, all, at, value, depth)
            }
            Err(commands) => self.next_command(alloc, commands, value, depth),
        }
    }

    /// The command at a place returns, if it does where it stands, or the words of it are made, or the value of the last is
    /// that of all.
    #[tactic(auto, unfolding(crate::specs::Meaning::rest, crate::specs::Meaning::weight))]
    fn next_at(
        &mut self,
        alloc: Global,
        all: Arc<Commands>,
        at: usize,
        value: Bytes,
        depth: u32,
    ) -> Result<Pace, AllocError>
        requires { self.old.control ≡ Control.Go }
        ensures { IfOk result (λ p. Comes
            (sequence (evaluate depth) (drop at (arc_value all)) value self.old.state (all_back self.old.stack))
            self.old.state.known (weight_of self.old + 3) self.new p) }
    {
        match self.value_returned(alloc, &all, at, depth)? {
            Some(value) => {
                self.end(Code::Returned, value);
                Ok(Pace::Moved)
            }
            None => {
                let commands = Script::kept_from(all, at);
                self.next_command(alloc, commands, value, depth)
            }
        }
    }

    /// The evaluation of a text begins, whose commands these are, inside as many others as this leaves.
    pub(crate) fn begin(
        &mut self,
        alloc: Global,
        commands: Script,
        depth: u32,
    ) -> Result<Pace, AllocError>
        requires { self.old.control ≡ Control.Go }
        ensures { IfOk result (λ p. (text : List ℕ) → commands ≡ commands_at text 0 → Goes
            (evaluate depth text self.old.state (all_back self.old.stack)) self.old.state.known (weight_of self.old + 4)
            self.new p) }
    {
        if depth == 0 {
            let closing = self.cut(alloc, b"too many nested evaluations")?;
            return Ok(Pace::Over(closing));
        }
        self.begin_inside(alloc, commands, depth - 1)
    }

    /// The commands of a text that is evaluated begin: those that run where they stand do, and what is left waits for its turn.
    fn begin_inside(
        &mut self,
        alloc: Global,
        commands: Script,
        depth: u32,
    ) -> Result<Pace, AllocError>
        requires { self.old.control ≡ Control.Go }
        ensures { IfOk result (λ p. Goes (sequence (evaluate depth) commands [] self.old.state (all_back self.old.stack))
            self.old.state.known (weight_of self.old + 4) self.new p) }
    {
        match commands.into_kept() {
            Ok((all, first)) => {
                let mut value = Bytes::new(alloc);
                let at = self.settle_from(alloc, &all, first, &mut value, depth)?;
                if at >= all.count() {
                    self.end(Code::Done, value);
                    return Ok(Pace::Moved);
                }
                self.begin_at(alloc, all, at, depth)
            }
            Err(commands) => {
                self.stack.push(Frame::Sequence { commands, depth })?;
                Ok(Pace::Moved)
            }
        }
    }

    /// The command at a place returns, if it does where it stands, or waits for its turn, in front of those behind it.
    #[tactic(auto, unfolding(crate::specs::Meaning::rest, crate::specs::Meaning::go, crate::specs::Meaning::weight, crate::specs::Meaning::stack_weight))]
    fn begin_at(
        &mut self,
        alloc: Global,
        all: Arc<Commands>,
        at: usize,
        depth: u32,
    ) -> Result<Pace, AllocError>
        requires { self.old.control ≡ Control.Go }
        ensures { IfOk result (λ p. Goes
            (sequence (evaluate depth) (drop at (arc_value all)) [] self.old.state (all_back self.old.stack))
            self.old.state.known (weight_of self.old + 4) self.new p) }
    {
        match self.value_returned(alloc, &all, at, depth)? {
            Some(value) => {
                self.end(Code::Returned, value);
                Ok(Pace::Moved)
            }
            None => {
                let commands = Script::kept_from(all, at);
                self.stack.push(Frame::Sequence { commands, depth })?;
                Ok(Pace::Moved)
            }
        }
    }

    /// The evaluation of a text begins as `begin` has it, and its first command runs.
    pub(crate) fn begin_now(
        &mut self,
        alloc: Global,
        commands: Script,
        depth: u32,
    ) -> Result<Pace, AllocError>
        requires { self.old.control ≡ Control.Go }
        ensures { IfOk result (λ p. (text : List ℕ) → commands ≡ commands_at text 0 → Comes
            (evaluate depth text self.old.state (all_back self.old.stack)) self.old.state.known (weight_of self.old + 4)
            self.new p) }
    {
        if depth == 0 {
            return self.begin(alloc, commands, depth);
        }
        self.sequence(alloc, commands, Bytes::new(alloc), depth - 1)
    }

    /// The commands of a text. Unless it is long they are read once, as long as they are kept.
    fn script(&mut self, alloc: Global, text: Bytes) -> Result<Script, AllocError>
        ensures all { IfOk result (λ s. s ≡ commands_at text 0) }
        ensures same { self.new ≡ self.old }
    {
        if text.len() > KEPT {
            return Ok(Script::new(text));
        }
        let commands = self.shelves.scripts.reading(alloc, &text)?;
        Ok(Script::kept(commands))
    }

    /// The evaluation of a text begins, inside as many others as this leaves.
    pub(crate) fn enter(
        &mut self,
        alloc: Global,
        text: Bytes,
        depth: u32,
    ) -> Result<Pace, AllocError>
        requires { self.old.control ≡ Control.Go }
        ensures { IfOk result (GoesAs (evaluate depth text) 4 self.old self.new) }
    {
        let commands = self.script(alloc, text)?;
        self.begin(alloc, commands, depth)
    }
}
