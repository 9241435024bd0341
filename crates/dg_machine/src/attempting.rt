//! What comes of the commands that evaluate nothing inside and may ask.
ghost use Rattle.std.specs.Prelude.{◌≡◌, ◌+◌, ◌*◌, ◌<◌, IfOk, length};
ghost use Rattle.dg_language.specs.Evaluation.{Ending, Then};
ghost use Rattle.dg_language.specs.Play.{Play};
ghost use Rattle.dg_language.specs.State.{State};
ghost use Rattle.dg_language.specs.Boards.{do_flag, do_target};
ghost use Rattle.dg_language.specs.Variables.{do_unset, do_variable, unset_all};
ghost use Rattle.dg_asking.specs.Attempts.{Attempts, EndsAs};
ghost use Rattle.dg_machine.specs.declared.frame.Control.{Control};
ghost use Rattle.dg_machine.specs.declared.machine.Machine.{Machine};
ghost use Rattle.dg_machine.specs.Meaning.{all_back, weight, weight_of, Comes, Goes, command_weight, RunsAs};

use crate::frame::{Frame, Pace, plain_ask};
use crate::gather::push_all;
use crate::machine::Machine;
use dg_asking::{Attempt, AttemptEnd, run_flag, run_target, run_variable, unset_name, unset_names};
use dg_bytes::{Bytes, Seq};
use dg_language::{Code, FlagCommand, Queue, TargetCommand, VariableCommand};
use std::alloc::{AllocError, Global};

impl Machine {
    /// A command that evaluates nothing inside has ended so.
    #[tactic(auto, unfolding(crate::specs::Meaning::rest, crate::specs::Meaning::weight))]
    pub(crate) fn end_as(&mut self, alloc: Global, outcome: AttemptEnd) -> Result<Pace, AllocError>
        requires { self.old.control ≡ Control.Go }
        ensures { IfOk result (λ p. (f : State → Then → Play Ending) (s : State) → EndsAs f s self.old.state outcome
            → Goes (f s (all_back self.old.stack)) s.known (weight Control.Go s self.old.stack + 2) self.new p) }
    {
        match outcome {
            AttemptEnd::Value(value) => {
                self.end(Code::Done, value);
                Ok(Pace::Moved)
            }
            AttemptEnd::Fails(message) => self.fail(alloc, message),
            AttemptEnd::TooLong => {
                let closing = self.cut(alloc, b"value too long")?;
                Ok(Pace::Over(closing))
            }
        }
    }

    /// This came of a command that evaluates nothing inside: it has ended, or a question stands.
    pub(crate) fn come_of(&mut self, alloc: Global, attempt: Attempt) -> Result<Pace, AllocError>
        requires { self.old.control ≡ Control.Go }
        ensures { IfOk result (λ p. (f : State → Then → Play Ending) (old : Machine)
            → self.old ≡ record old { state = self.old.state } → Attempts f old.state self.old.state attempt
            → RunsAs f command_weight old self.new p) }
    {
        match attempt {
            Attempt::Ends(outcome) => self.end_as(alloc, outcome),
            Attempt::Asks(question) => {
                let ask = plain_ask(alloc, question)?;
                Ok(Pace::Stands(ask))
            }
        }
    }

    /// A command on the systems' triplets.
    pub(crate) fn target(
        &mut self,
        alloc: Global,
        which: TargetCommand,
        args: &[Bytes],
    ) -> Result<Pace, AllocError>
        requires { self.old.control ≡ Control.Go }
        ensures { IfOk result (RunsAs (do_target which args.now) command_weight self.old self.new) }
    {
        let attempt = run_target(alloc, &self.state, which, args)?;
        self.come_of(alloc, attempt)
    }

    /// A command on the flags that the target's triplet decides.
    pub(crate) fn flag(
        &mut self,
        alloc: Global,
        which: FlagCommand,
        args: &[Bytes],
    ) -> Result<Pace, AllocError>
        requires { self.old.control ≡ Control.Go }
        ensures { IfOk result (RunsAs (do_flag which args.now) command_weight self.old self.new) }
    {
        let attempt = run_flag(alloc, &mut self.state, which, args)?;
        self.come_of(alloc, attempt)
    }

    /// A command on variables.
    pub(crate) fn variable(
        &mut self,
        alloc: Global,
        which: VariableCommand,
        args: &[Bytes],
    ) -> Result<Pace, AllocError>
        requires { self.old.control ≡ Control.Go }
        ensures { IfOk result (RunsAs (do_variable which args.now) command_weight self.old self.new) }
    {
        match run_variable(alloc, &mut self.state, which, args)? {
            Some(attempt) => self.come_of(alloc, attempt),
            None => self.unset(alloc, args),
        }
    }

    /// `unset name..` and `unset -nocomplain name..`.
    #[tactic(auto, unfolding(dg_language::specs::Variables::do_unset, crate::specs::Meaning::rest, crate::specs::Meaning::go, crate::specs::Meaning::weight, crate::specs::Meaning::stack_weight))]
    fn unset(&mut self, alloc: Global, args: &[Bytes]) -> Result<Pace, AllocError>
        requires { self.old.control ≡ Control.Go }
        ensures { IfOk result (RunsAs (do_unset args.now) command_weight self.old self.new) }
    {
        let (complains, names) = unset_names(args);
        // The call shows the proof that the length is a `usize`.
        let _count = names.len();
        let mut copies = Seq::new(alloc);
        push_all(alloc, &mut copies, names)?;
        self.stack.push(Frame::Unsetting {
            complains,
            names: Queue::new(copies.into_vec()),
        })?;
        Ok(Pace::Moved)
    }

    /// The next name is unset, and those behind it wait for their turn, or all are.
    #[tactic(auto, unfolding(dg_language::specs::Variables::unset_all, crate::specs::Meaning::rest, crate::specs::Meaning::go, crate::specs::Meaning::weight, crate::specs::Meaning::stack_weight))]
    pub(crate) fn unset_next(
        &mut self,
        alloc: Global,
        complains: bool,
        mut names: Queue<Bytes>,
    ) -> Result<Pace, AllocError>
        requires { self.old.control ≡ Control.Go }
        ensures { IfOk result (λ p. Comes (unset_all complains names self.old.state (all_back self.old.stack))
            self.old.state.known (weight_of self.old + 5 + 4 * length names) self.new p) }
    {
        let Some(name) = names.next() else {
            self.end(Code::Done, Bytes::new(alloc));
            return Ok(Pace::Moved);
        };
        match unset_name(alloc, &mut self.state, complains, name.as_slice())? {
            None => {
                self.stack.push(Frame::Unsetting { complains, names })?;
                Ok(Pace::Moved)
            }
            Some(Attempt::Ends(outcome)) => self.end_as(alloc, outcome),
            Some(Attempt::Asks(question)) => {
                names.push_front(name)?;
                self.stack.push(Frame::Unsetting { complains, names })?;
                let ask = plain_ask(alloc, question)?;
                Ok(Pace::Stands(ask))
            }
        }
    }
}
