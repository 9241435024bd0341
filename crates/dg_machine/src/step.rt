//! The moves of a machine, one frame at a time.
ghost use Rattle.std.specs.Prelude.{◌≡◌, ◌+◌, ◌*◌, ◌<◌, IfOk, length, Some};
ghost use Rattle.dg_language.specs.Evaluation.{outside, if_done, loop_after};
ghost use Rattle.dg_language.specs.Language.{sequence, evaluate};
ghost use Rattle.dg_language.specs.Judge.{finish, close};
ghost use Rattle.dg_language.specs.State.{departed};
ghost use Rattle.dg_machine.specs.declared.frame.Control.{Control};
ghost use Rattle.dg_machine.specs.Arriving.{ComesAlong};
ghost use Rattle.dg_machine.specs.Meaning.{all_back, back, go, rest, weight_of, budget, frame_weight, ends_with, looping, next_round, making_with, outside_code, outside_value, Comes, ComesTo, Goes};

use crate::answers::Answers;
use crate::boxed::Boxed;
use crate::frame::{Closing, Control, Frame, Pace, Rounds, Stop};
use crate::machine::Machine;
use dg_bytes::Bytes;
use dg_compiled::{Making, Script};
use dg_forms::outside_of_a_loop;
use dg_language::{Close, Code};
use std::alloc::{AllocError, Global};
use std::mem;

/// The code and the value with which a procedure or a file has ended, as they read outside of it.
pub(crate) fn outside(alloc: Global, code: Code, value: Bytes) -> Result<(Code, Bytes), AllocError>
    ensures { IfOk result (λ r. r ≡ (outside_code code, outside_value code value)) }
{
    match code {
        Code::Done | Code::Returned => Ok((Code::Done, value)),
        Code::Failed => Ok((Code::Failed, value)),
        Code::Broken => Ok((Code::Failed, outside_of_a_loop(alloc, b"break")?)),
        Code::Continued => Ok((Code::Failed, outside_of_a_loop(alloc, b"continue")?)),
        Code::ExpContinued => {
            let message = Bytes::from_slice(alloc, b"exp_continue outside of expect")?;
            Ok((Code::Failed, message))
        }
    }
}

impl Machine {
    /// The inmost frame goes on, whichever it is.
    #[tactic(auto, unfolding(crate::specs::Meaning::go, crate::specs::Meaning::rest, crate::specs::Meaning::weight))]
    fn resume_any(&mut self, alloc: Global, frame: Frame) -> Result<Pace, AllocError>
        requires { self.old.control ≡ Control.Go }
        ensures { IfOk result (λ p. Comes (go frame self.old.state (all_back self.old.stack)) self.old.state.known
            (weight_of self.old + frame_weight frame) self.new p) }
    {
        match frame {
            Frame::Opening { what } => self.open(alloc, what),
            Frame::Sequence { commands, depth } => {
                self.sequence(alloc, commands, Bytes::new(alloc), depth)
            }
            Frame::Gathering { making, depth } => self.gather(alloc, making, depth),
            Frame::Running { words, depth } => self.run_command(alloc, words, depth),
            Frame::Catching { name: _ }
            | Frame::Calling
            | Frame::Loading
            | Frame::Preceding { next: _ }
            | Frame::Writing
            | Frame::Choosing { choice: _ }
            | Frame::Repeating { repetition: _ } => {
                self.end(Code::Done, Bytes::new(alloc));
                Ok(Pace::Moved)
            }
            Frame::Looping { rounds } => self.go_round(alloc, rounds),
            Frame::Unsetting { complains, names } => { self.unset_next(alloc, complains, names) }
            Frame::Calculating { calculation } => self.compute(alloc, calculation),
            Frame::Acting { acting } => self.act(alloc, acting),
            Frame::Naming { session } => self.name_session(alloc, session),
            Frame::Expecting { words, depth } => self.expect_words(alloc, words, depth),
            Frame::Limiting { limiting } => self.seek_limit(alloc, limiting),
            Frame::Compiling { compiling } => self.compile(alloc, compiling),
            Frame::Awaiting { reach, wait } => self.await_output(alloc, reach, wait),
            Frame::Giving { names, values } => self.give_parts(alloc, names, values),
        }
    }

    /// The inmost frame goes on. The frequent ones come first: a call makes room for all that it may do.
    #[tactic(auto, unfolding(crate::specs::Meaning::go, crate::specs::Meaning::rest, crate::specs::Meaning::weight))]
    fn resume(&mut self, alloc: Global, frame: Frame) -> Result<Pace, AllocError>
        requires { self.old.control ≡ Control.Go }
        ensures { IfOk result (λ p. Comes (go frame self.old.state (all_back self.old.stack)) self.old.state.known
            (weight_of self.old + frame_weight frame) self.new p) }
    {
        match frame {
            Frame::Gathering { making, depth } => self.gather(alloc, making, depth),
            Frame::Calculating { calculation } => self.compute(alloc, calculation),
            Frame::Sequence { commands, depth } => {
                self.sequence(alloc, commands, Bytes::new(alloc), depth)
            }
            Frame::Awaiting { reach, wait } => self.await_output(alloc, reach, wait),
            frame => self.resume_any(alloc, frame),
        }
    }

    /// A loop goes on, between two rounds or in the beginning of one.
    fn go_round(&mut self, alloc: Global, rounds: Rounds) -> Result<Pace, AllocError>
        requires { self.old.control ≡ Control.Go }
        ensures { IfOk result (λ p. Comes (looping rounds rounds.given self.old.state (all_back self.old.stack))
            self.old.state.known (weight_of self.old + frame_weight (Frame.Looping rounds)) self.new p) }
    {
        match rounds.given {
            None => self.next_round(alloc, rounds),
            Some(at) => self.give_next(alloc, rounds, at),
        }
    }

    /// What has ended inside goes on up.
    #[tactic(auto, unfolding(crate::specs::Meaning::rest, crate::specs::Meaning::weight))]
    pub(crate) fn go_up(&mut self, code: Code, value: Bytes) -> Pace
        requires { self.old.control ≡ Control.Go }
        ensures { Goes (all_back self.old.stack code value self.old.state) self.old.state.known (weight_of self.old + 2)
            self.new result }
    {
        self.end(code, value);
        Pace::Moved
    }

    /// A command has ended in front of those that are left.
    fn after_command(
        &mut self,
        alloc: Global,
        commands: Script,
        depth: u32,
        code: Code,
        value: Bytes,
    ) -> Result<Pace, AllocError>
        requires { self.old.control ≡ Control.Go }
        ensures { IfOk result (λ p. Comes (if_done (λ v s. sequence (evaluate depth) commands v s (all_back self.old.stack))
            (all_back self.old.stack) code value self.old.state) self.old.state.known (weight_of self.old + 3)
            self.new p) }
    {
        match code {
            Code::Done => self.sequence(alloc, commands, value, depth),
            Code::Failed | Code::Returned | Code::Broken | Code::Continued | Code::ExpContinued => {
                Ok(self.go_up(code, value))
            }
        }
    }

    /// A script in a word has ended.
    fn after_script(
        &mut self,
        alloc: Global,
        making: Making,
        depth: u32,
        code: Code,
        value: Bytes,
    ) -> Result<Pace, AllocError>
        requires { self.old.control ≡ Control.Go }
        ensures { IfOk result (λ p. Comes (if_done (λ v s. making_with making depth v s (all_back self.old.stack))
            (all_back self.old.stack) code value self.old.state) self.old.state.known
            (weight_of self.old + budget making.purpose + 5 + 4 * length making.left) self.new p) }
    {
        match code {
            Code::Done => self.add_and_gather(alloc, making, value, depth),
            Code::Failed | Code::Returned | Code::Broken | Code::Continued | Code::ExpContinued => {
                Ok(self.go_up(code, value))
            }
        }
    }

    /// The body of a procedure has ended.
    #[tactic(auto, unfolding(crate::specs::Meaning::rest, crate::specs::Meaning::weight, dg_language::specs::State::departed))]
    fn after_call(&mut self, alloc: Global, code: Code, value: Bytes) -> Result<Pace, AllocError>
        requires { self.old.control ≡ Control.Go }
        ensures { IfOk result (λ p. Goes (outside (all_back self.old.stack) code value (departed self.old.state))
            self.old.state.known (weight_of self.old + 4) self.new p) }
    {
        let (code, value) = outside(alloc, code, value)?;
        self.state.leave();
        self.end(code, value);
        Ok(Pace::Moved)
    }

    /// The body of a loop has ended.
    #[tactic(auto, unfolding(crate::specs::Meaning::rest, crate::specs::Meaning::weight))]
    fn after_body(
        &mut self,
        alloc: Global,
        rounds: Rounds,
        code: Code,
        value: Bytes,
    ) -> Result<Pace, AllocError>
        requires { self.old.control ≡ Control.Go }
        ensures { IfOk result (λ p. Comes (loop_after (λ s. next_round rounds rounds.values s (all_back self.old.stack))
            (all_back self.old.stack) code value self.old.state) self.old.state.known (weight_of self.old + 5)
            self.new p) }
    {
        match code {
            Code::Done | Code::Continued => self.next_round(alloc, rounds),
            Code::Broken => Ok(self.go_up(Code::Done, Bytes::new(alloc))),
            Code::Failed | Code::Returned | Code::ExpContinued => Ok(self.go_up(code, value)),
        }
    }

    /// The inmost frame, whichever it is, gets what ended inside of it.
    #[tactic(auto, unfolding(crate::specs::Meaning::back))]
    fn give_back_any(
        &mut self,
        alloc: Global,
        frame: Frame,
        code: Code,
        value: Bytes,
    ) -> Result<Pace, AllocError>
        requires { self.old.control ≡ Control.Go }
        ensures { IfOk result (λ p. Comes (back frame (all_back self.old.stack) code value self.old.state)
            self.old.state.known (weight_of self.old + frame_weight frame + 1) self.new p) }
    {
        match frame {
            Frame::Opening { what: _ } => Ok(self.go_up(code, value)),
            Frame::Preceding { next } => self.after_file(alloc, next, code, value),
            Frame::Sequence { commands, depth } => {
                self.after_command(alloc, commands, depth, code, value)
            }
            Frame::Gathering { making, depth } => {
                self.after_script(alloc, making, depth, code, value)
            }
            Frame::Running { words: _, depth: _ } => Ok(self.go_up(code, value)),
            Frame::Catching { name } => self.caught(alloc, name, code, value),
            Frame::Calling => self.after_call(alloc, code, value),
            Frame::Loading => self.after_library(alloc, code, value),
            Frame::Looping { rounds } => self.after_body(alloc, rounds, code, value),
            Frame::Unsetting {
                complains: _,
                names: _,
            } => Ok(self.go_up(code, value)),
            Frame::Calculating { calculation } => {
                self.after_operand(alloc, calculation, code, value)
            }
            Frame::Writing => self.write_value(alloc, code, value),
            Frame::Choosing { choice } => self.after_condition(alloc, choice, code, value),
            Frame::Repeating { repetition } => self.repeat(alloc, repetition, code, value),
            Frame::Acting { acting: _ }
            | Frame::Naming { session: _ }
            | Frame::Expecting { words: _, depth: _ }
            | Frame::Limiting { limiting: _ }
            | Frame::Compiling { compiling: _ }
            | Frame::Giving {
                names: _,
                values: _,
            } => Ok(self.go_up(code, value)),
            Frame::Awaiting { reach: _, wait } => self.after_action(alloc, wait, code, value),
        }
    }

    /// The inmost frame gets what ended inside of it. The frequent ones come first: a call makes room for all that it may do.
    #[tactic(auto, unfolding(crate::specs::Meaning::back))]
    fn give_back(
        &mut self,
        alloc: Global,
        frame: Frame,
        code: Code,
        value: Bytes,
    ) -> Result<Pace, AllocError>
        requires { self.old.control ≡ Control.Go }
        ensures { IfOk result (λ p. Comes (back frame (all_back self.old.stack) code value self.old.state)
            self.old.state.known (weight_of self.old + frame_weight frame + 1) self.new p) }
    {
        match frame {
            Frame::Sequence { commands, depth } => {
                self.after_command(alloc, commands, depth, code, value)
            }
            Frame::Gathering { making, depth } => {
                self.after_script(alloc, making, depth, code, value)
            }
            Frame::Calculating { calculation } => {
                self.after_operand(alloc, calculation, code, value)
            }
            Frame::Repeating { repetition } => self.repeat(alloc, repetition, code, value),
            frame => self.give_back_any(alloc, frame, code, value),
        }
    }

    /// All has ended.
    #[tactic(auto, unfolding(dg_language::specs::Evaluation::ended, dg_language::specs::Evaluation::aborted))]
    fn finish(&mut self, alloc: Global, code: Code, value: Bytes) -> Result<Closing, AllocError>
        ensures ends { IfOk result (λ c. finish code value self.old.state ≡ ends_with c self.old.state) }
        ensures same { self.new ≡ self.old }
    {
        let judging = self.state.judged(alloc)?;
        let (code, value) = outside(alloc, code, value)?;
        match code {
            Code::Failed => {
                let name = self.state.test().script().as_slice();
                let verdict = judging.abort(alloc, name, value.as_slice())?;
                Ok(Closing {
                    verdict,
                    close: Close::Aborted,
                })
            }
            _ => Ok(Closing {
                verdict: judging.finish(),
                close: Close::Finished,
            }),
        }
    }

    /// One move.
    #[tactic(auto, unfolding(crate::specs::Meaning::rest, crate::specs::Meaning::all_back, crate::specs::Meaning::weight, crate::specs::Meaning::stack_weight))]
    fn step(&mut self, alloc: Global) -> Result<Pace, AllocError>
        ensures { IfOk result (Comes (rest self.old) self.old.state.known (weight_of self.old) self.new) }
    {
        let control = mem::replace(&mut self.control, Control::Go);
        let Some(frame) = self.stack.pop() else {
            let closing = match control {
                Control::Go => self.finish(alloc, Code::Done, Bytes::new(alloc))?,
                Control::Ended { code, value } => self.finish(alloc, code, value)?,
            };
            return Ok(Pace::Over(Boxed::new(alloc, closing)?));
        };
        match control {
            Control::Go => self.resume(alloc, frame),
            Control::Ended { code, value } => self.give_back(alloc, frame, code, value),
        }
    }

    /// Moves until a question stands or all is over.
    pub fn run_on(&mut self, alloc: Global) -> Result<Stop, AllocError>
        ensures { IfOk result (ComesTo self.old self.new) }
    {
        'moves: loop {
            match self.step(alloc)? {
                Pace::Moved => {}
                Pace::Stands(ask) => return Ok(Stop::AtQuestion(ask)),
                Pace::Over(closing) => return Ok(Stop::AtEnd(closing)),
                Pace::Lost => return Ok(Stop::Lost),
            }
        }
    }

    /// Moves until a question stands that these don't answer, or all is over. Each question before that is told their answer.
    pub fn run_along<A: Answers>(&mut self, alloc: Global, answers: &A) -> Result<Stop, AllocError>
        ensures { IfOk result (ComesAlong (A.source answers.now) A.holds self.old self.new) }
    {
        'questions: loop {
            let ask = match self.run_on(alloc)? {
                Stop::AtQuestion(ask) => ask,
                Stop::AtEnd(closing) => return Ok(Stop::AtEnd(closing)),
                Stop::Lost => return Ok(Stop::Lost),
            };
            match answers.answer_to(alloc, &ask.get().question)? {
                Some(answer) => self.state.learn(ask.into_inner().question, answer)?,
                None => return Ok(Stop::AtQuestion(ask)),
            }
        }
    }
}
