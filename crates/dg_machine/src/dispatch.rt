//! The command that words name.
ghost use Rattle.std.specs.Prelude.{◌≡◌, ◌+◌, ◌^◌, ◌<◌, IfOk};
ghost use Rattle.dg_cmds.specs.Commands.{pure_of};
ghost use Rattle.dg_language.specs.Completing.{completed};
ghost use Rattle.dg_language.specs.Immediate.{immediate};
ghost use Rattle.dg_language.specs.Builtins.{builtin_of, usable};
ghost use Rattle.dg_language.specs.Language.{builtin, pure_value, known_command, command, used, evaluate};
ghost use Rattle.dg_machine.specs.declared.frame.Control.{Control};
ghost use Rattle.dg_machine.specs.Meaning.{all_back, weight_of, budget, Comes, command_weight, RunsAs, GoesAs};

use crate::frame::{Frame, Pace};
use crate::machine::Machine;
use dg_bytes::{Bytes, Seq, TryCopy};
use dg_cmds::{CmdFault, run_pure};
use dg_compiled::{Making, first_or_empty, with_lists};
use dg_forms::{bindings, find_builtin, invalid_command, run_immediate, split};
use dg_language::{Builtin, Code, ImmediateCommand, Purpose};
use std::alloc::{AllocError, Global};

impl Machine {
    /// A command that evaluates nothing inside and asks nothing: the change that it makes, and its code and value.
    #[tactic(auto, unfolding(crate::specs::Meaning::rest))]
    fn immediate(
        &mut self,
        alloc: Global,
        which: ImmediateCommand,
        args: &[Bytes],
    ) -> Result<Pace, AllocError>
        requires { self.old.control ≡ Control.Go }
        ensures { IfOk result (GoesAs (completed (immediate which args.now self.old.state)) 2 self.old self.new) }
    {
        match run_immediate(alloc, &self.state, which, args)? {
            Ok(completion) => {
                self.state.perform(alloc, completion.change)?;
                self.end(completion.code, completion.value);
                Ok(Pace::Moved)
            }
            Err(message) => self.fail(alloc, message),
        }
    }

    /// A command that is known by its name.
    fn builtin(
        &mut self,
        alloc: Global,
        which: Builtin,
        args: &[Bytes],
        depth: u32,
    ) -> Result<Pace, AllocError>
        requires { self.old.control ≡ Control.Go }
        ensures { IfOk result (RunsAs (builtin (evaluate depth) which args.now) command_weight self.old self.new) }
    {
        match which {
            Builtin::Immediate(which) => self.immediate(alloc, which, args),
            Builtin::Variable(which) => self.variable(alloc, which, args),
            Builtin::Control(which) => self.control(alloc, which, args, depth),
            Builtin::Choice(which) => self.choice(alloc, which, args, depth),
            Builtin::Target(which) => self.target(alloc, which, args),
            Builtin::Flag(which) => self.flag(alloc, which, args),
            Builtin::Session(which) => self.session(alloc, which, args),
            Builtin::LoadLib => self.load_lib(alloc, args, depth),
            Builtin::Expect => self.expect(alloc, args, depth),
            Builtin::Regexp => self.regexp(alloc, args),
        }
    }

    /// A string or list command, or `format`. There is no other command.
    #[tactic(auto, unfolding(crate::specs::Meaning::rest, crate::specs::Meaning::weight))]
    fn pure(&mut self, alloc: Global, name: &[u8], args: &[Bytes]) -> Result<Pace, AllocError>
        requires { self.old.control ≡ Control.Go }
        ensures { IfOk result (GoesAs (pure_value (pure_of name.now args.now) name.now) 2 self.old self.new) }
    {
        match run_pure(alloc, name, args) {
            None => {
                let message = invalid_command(alloc, name)?;
                self.fail(alloc, message)
            }
            Some(Ok(value)) => {
                self.end(Code::Done, value);
                Ok(Pace::Moved)
            }
            Some(Err(CmdFault::Tcl(message))) => self.fail(alloc, message),
            Some(Err(CmdFault::TooLong)) => {
                let closing = self.cut(alloc, b"value too long")?;
                Ok(Pace::Over(closing))
            }
            Some(Err(CmdFault::Memory)) => Err(AllocError),
        }
    }

    /// A command that no procedure hides.
    fn known_command(
        &mut self,
        alloc: Global,
        name: &[u8],
        args: &[Bytes],
        depth: u32,
    ) -> Result<Pace, AllocError>
        requires { self.old.control ≡ Control.Go }
        ensures { IfOk result (RunsAs
            (λ s k. known_command (evaluate depth) (usable s.on_board (builtin_of name.now)) name.now args.now s k) command_weight
            self.old self.new) }
    {
        match find_builtin(self.state.is_on_board(), name) {
            Some(Builtin::Variable(which)) => self.variable(alloc, which, args),
            Some(which) => self.builtin(alloc, which, args, depth),
            None => self.pure(alloc, name, args),
        }
    }

    /// The command that words name.
    #[tactic(auto, unfolding(dg_language::specs::Language::command, crate::specs::Meaning::rest, crate::specs::Meaning::weight))]
    fn command(&mut self, alloc: Global, words: &[Bytes], depth: u32) -> Result<Pace, AllocError>
        requires { self.old.control ≡ Control.Go }
        ensures { IfOk result (RunsAs (command (evaluate depth) words.now) command_weight self.old self.new) }
    {
        let Some((name, args)) = split(words) else {
            self.end(Code::Done, Bytes::new(alloc));
            return Ok(Pace::Moved);
        };
        let Some(procedure) = self.state.procedure(name.as_slice()) else {
            return self.known_command(alloc, name.as_slice(), args, depth);
        };
        let bindings = bindings(alloc, procedure.parameters.as_slice(), args)?;
        let body = procedure.body.copy(alloc)?;
        self.call(alloc, bindings, name.as_slice(), body, depth)
    }

    /// The command of these words runs, or waits for the answer to a question.
    #[tactic(auto, unfolding(crate::specs::Meaning::rest, crate::specs::Meaning::go))]
    pub(crate) fn run_command(
        &mut self,
        alloc: Global,
        words: Seq<Bytes>,
        depth: u32,
    ) -> Result<Pace, AllocError>
        requires { self.old.control ≡ Control.Go }
        ensures { IfOk result (λ p. Comes (command (evaluate depth) words self.old.state (all_back self.old.stack))
            self.old.state.known (weight_of self.old + 2 ^ 250) self.new p) }
    {
        let words = with_lists(alloc, &mut self.shelves.lists, words)?;
        let pace = self.command(alloc, words.as_slice(), depth)?;
        if let Pace::Stands(_) = &pace {
            self.stack.push(Frame::Running { words, depth })?;
        }
        Ok(pace)
    }

    /// Words that were made are used.
    #[tactic(auto, unfolding(crate::specs::Meaning::rest, crate::specs::Meaning::weight, crate::specs::Meaning::budget))]
    pub(crate) fn use_words(
        &mut self,
        alloc: Global,
        making: Making,
        depth: u32,
    ) -> Result<Pace, AllocError>
        requires { self.old.control ≡ Control.Go }
        ensures { IfOk result (λ p. Comes
            (used (evaluate depth) making.purpose making.made self.old.state (all_back self.old.stack))
            self.old.state.known (weight_of self.old + budget making.purpose + 4) self.new p) }
    {
        match making.purpose {
            Purpose::Run => self.run_command(alloc, making.made, depth),
            Purpose::Expect => {
                let words = making.made;
                self.stack.push(Frame::Expecting { words, depth })?;
                Ok(Pace::Moved)
            }
            Purpose::Load => {
                let value = first_or_empty(alloc, making.made.as_slice())?;
                self.end(Code::Done, value);
                Ok(Pace::Moved)
            }
        }
    }
}
