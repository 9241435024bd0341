//! The loops over a condition: `while` and `for`.
ghost use Rattle.std.specs.Prelude.{ℕ, List, ◌≡◌, ◌+◌, ◌^◌, ◌<◌, IfOk, None, Some};
ghost use Rattle.dg_expr.specs.Number.{decimal_text};
ghost use Rattle.dg_expr.specs.Truth.{truth_of};
ghost use Rattle.dg_language.specs.Choosing.{do_for, do_while};
ghost use Rattle.dg_language.specs.Expressions.{calculate};
ghost use Rattle.dg_language.specs.declared.code.Code.{Code};
ghost use Rattle.dg_language.specs.Language.{commands_at, evaluate};
ghost use Rattle.dg_machine.specs.declared.frame.Control.{Control};
ghost use Rattle.dg_machine.specs.declared.frame.LoopPart.{LoopPart};
ghost use Rattle.dg_machine.specs.Choosing.{next_script, next_test, repeat_if, repeating, stage_weight};
ghost use Rattle.dg_machine.specs.Meaning.{all_back, weight_of, Comes, GoesAs};

use crate::boxed::Boxed;
use crate::frame::{Frame, LoopPart, Pace, Repetition};
use crate::machine::Machine;
use dg_bytes::{Bytes, TryCopy};
use dg_compiled::{Body, Calculation, Computed, Condition, Script, compute_on};
use dg_forms::{four, truth_in, two};
use dg_language::{Code, STEPS};
use std::alloc::{AllocError, Global};

/// The truth of a number's text.
#[tactic(auto, using(crate::proofs::WholeLemmas::truth_of_whole))]
fn whole_truth(number: i64) -> bool
    ensures { truth_of (decimal_text number) ≡ Some result }
{
    number != 0
}

impl Machine {
    /// The next test of a loop begins to be computed, if a step is left for it.
    #[tactic(auto, unfolding(crate::specs::Meaning::back, crate::specs::Meaning::all_back))]
    fn next_test(
        &mut self,
        alloc: Global,
        mut repetition: Boxed<Repetition>,
    ) -> Result<Pace, AllocError>
        requires { self.old.control ≡ Control.Go }
        ensures { IfOk result (λ p. Comes (next_test repetition self.old.state (all_back self.old.stack))
            self.old.state.known (weight_of self.old + 5) self.new p) }
    {
        if repetition.get().left == 0 || !self.state.has_step() {
            let closing = self.out_of_steps(alloc)?;
            return Ok(Pace::Over(closing));
        }
        self.state.take_step();
        repetition.begin_test();
        self.test(alloc, repetition)
    }

    /// The test of a loop is computed, and its body begins if the condition holds.
    #[tactic(auto, unfolding(crate::specs::Meaning::back, crate::specs::Meaning::all_back))]
    fn test(&mut self, alloc: Global, repetition: Boxed<Repetition>) -> Result<Pace, AllocError>
        requires go { self.old.control ≡ Control.Go }
        requires stage { repetition.stage ≡ LoopPart.Test }
        ensures { IfOk result (λ p. Comes (calculate (evaluate repetition.depth) repetition.test self.old.state
            (repeating repetition LoopPart.Test (all_back self.old.stack))) self.old.state.known
            (weight_of self.old + 2 ^ 139) self.new p) }
    {
        let looped = repetition.get();
        let formula = looped.test.formula(alloc, &mut self.shelves.formulas)?;
        let Some(mut calculation) = Calculation::of(alloc, formula, looped.depth) else {
            return self.no_expression(alloc, looped.test.text());
        };
        match compute_on(alloc, &self.state, &mut calculation)? {
            Computed::Value(value) => self.behind_test(alloc, repetition, Code::Done, value),
            Computed::Whole(number) => {
                let holds = whole_truth(number);
                self.repeat_if(alloc, repetition, holds)
            }
            computed => {
                self.stack.push(Frame::Repeating { repetition })?;
                self.come_to(alloc, calculation, computed)
            }
        }
    }

    /// The body of a loop begins, if its condition holds.
    #[tactic(auto, unfolding(crate::specs::Meaning::rest, crate::specs::Meaning::back, crate::specs::Meaning::all_back, crate::specs::Meaning::weight, crate::specs::Meaning::stack_weight))]
    fn repeat_if(
        &mut self,
        alloc: Global,
        mut repetition: Boxed<Repetition>,
        holds: bool,
    ) -> Result<Pace, AllocError>
        requires { self.old.control ≡ Control.Go }
        ensures { IfOk result (λ p. Comes (repeat_if repetition holds self.old.state (all_back self.old.stack))
            self.old.state.known (weight_of self.old + 32) self.new p) }
    {
        if !holds {
            self.end(Code::Done, Bytes::new(alloc));
            return Ok(Pace::Moved);
        }
        repetition.set_stage(LoopPart::Body);
        self.run_body(alloc, repetition)
    }

    /// The body of a loop runs. Where all of it runs where it stands, no frame stands around it.
    #[tactic(auto, unfolding(crate::specs::Meaning::back, crate::specs::Meaning::all_back, crate::specs::Meaning::weight, crate::specs::Meaning::stack_weight))]
    fn run_body(&mut self, alloc: Global, repetition: Boxed<Repetition>) -> Result<Pace, AllocError>
        requires go { self.old.control ≡ Control.Go }
        requires stage { repetition.stage ≡ LoopPart.Body }
        ensures { IfOk result (λ p. Comes (evaluate repetition.depth repetition.body self.old.state
            (repeating repetition LoopPart.Body (all_back self.old.stack))) self.old.state.known
            (weight_of self.old + 24) self.new p) }
    {
        let looped = repetition.get();
        let depth = looped.depth;
        if depth == 0 {
            let closing = self.cut(alloc, b"too many nested evaluations")?;
            return Ok(Pace::Over(closing));
        }
        let commands = looped.body.script(alloc)?;
        let mut value = Bytes::new(alloc);
        let left = self.settle(alloc, commands, &mut value, depth - 1)?;
        if left.is_over() {
            return self.end_body(alloc, repetition, value);
        }
        self.stack.push(Frame::Repeating { repetition })?;
        self.next_command(alloc, left, value, depth - 1)
    }

    /// The body of a loop has run where it stands: the third script of `for` begins, or the loop goes on at its next move.
    #[tactic(auto, unfolding(crate::specs::Meaning::rest, crate::specs::Meaning::back, crate::specs::Meaning::all_back, crate::specs::Meaning::weight, crate::specs::Meaning::stack_weight))]
    fn end_body(
        &mut self,
        alloc: Global,
        repetition: Boxed<Repetition>,
        value: Bytes,
    ) -> Result<Pace, AllocError>
        requires go { self.old.control ≡ Control.Go }
        requires stage { repetition.stage ≡ LoopPart.Body }
        ensures { IfOk result (λ p. Comes
            (repeating repetition LoopPart.Body (all_back self.old.stack) Code.Done value self.old.state)
            self.old.state.known (weight_of self.old + 24) self.new p) }
    {
        let Some(next) = &repetition.get().next else {
            self.stack.push(Frame::Repeating { repetition })?;
            self.end(Code::Done, value);
            return Ok(Pace::Moved);
        };
        let commands = next.script(alloc)?;
        self.begin_next(alloc, repetition, commands)
    }

    /// The third script of `for` begins, whose commands these are.
    #[tactic(auto, unfolding(crate::specs::Meaning::back, crate::specs::Meaning::all_back, crate::specs::Meaning::weight, crate::specs::Meaning::stack_weight))]
    fn begin_next(
        &mut self,
        alloc: Global,
        mut repetition: Boxed<Repetition>,
        commands: Script,
    ) -> Result<Pace, AllocError>
        requires { self.old.control ≡ Control.Go }
        ensures { IfOk result (λ p. (text : List ℕ) → commands ≡ commands_at text 0 → Comes
            (evaluate repetition.depth text self.old.state
            (repeating repetition LoopPart.Next (all_back self.old.stack))) self.old.state.known
            (weight_of self.old + 16) self.new p) }
    {
        let depth = repetition.get().depth;
        if depth == 0 {
            let closing = self.cut(alloc, b"too many nested evaluations")?;
            return Ok(Pace::Over(closing));
        }
        let mut value = Bytes::new(alloc);
        let left = self.settle(alloc, commands, &mut value, depth - 1)?;
        repetition.set_stage(LoopPart::Next);
        self.stack.push(Frame::Repeating { repetition })?;
        if left.is_over() {
            self.end(Code::Done, value);
            return Ok(Pace::Moved);
        }
        self.next_command(alloc, left, value, depth - 1)
    }

    /// What comes behind the body of a loop: the third script of `for`, or the next test.
    #[tactic(auto, unfolding(crate::specs::Meaning::back, crate::specs::Meaning::all_back, crate::specs::Meaning::weight, crate::specs::Meaning::stack_weight))]
    fn next_script(
        &mut self,
        alloc: Global,
        repetition: Boxed<Repetition>,
    ) -> Result<Pace, AllocError>
        requires { self.old.control ≡ Control.Go }
        ensures { IfOk result (λ p. Comes (next_script repetition self.old.state (all_back self.old.stack))
            self.old.state.known (weight_of self.old + 16) self.new p) }
    {
        let Some(next) = &repetition.get().next else {
            return self.next_test(alloc, repetition);
        };
        let commands = next.script(alloc)?;
        self.begin_next(alloc, repetition, commands)
    }

    /// A loop goes on behind its first script.
    #[tactic(auto, unfolding(crate::specs::Meaning::rest, crate::specs::Meaning::weight))]
    fn behind_start(
        &mut self,
        alloc: Global,
        repetition: Boxed<Repetition>,
        code: Code,
        value: Bytes,
    ) -> Result<Pace, AllocError>
        requires { self.old.control ≡ Control.Go }
        ensures { IfOk result (λ p. Comes
            (repeating repetition LoopPart.Start (all_back self.old.stack) code value self.old.state)
            self.old.state.known (weight_of self.old + 8) self.new p) }
    {
        match code {
            Code::Done => self.next_test(alloc, repetition),
            Code::Failed | Code::Returned | Code::Broken | Code::Continued | Code::ExpContinued => {
                Ok(self.go_up(code, value))
            }
        }
    }

    /// A loop goes on behind its test.
    #[tactic(auto, unfolding(crate::specs::Meaning::rest, crate::specs::Meaning::weight))]
    fn behind_test(
        &mut self,
        alloc: Global,
        repetition: Boxed<Repetition>,
        code: Code,
        value: Bytes,
    ) -> Result<Pace, AllocError>
        requires { self.old.control ≡ Control.Go }
        ensures { IfOk result (λ p. Comes
            (repeating repetition LoopPart.Test (all_back self.old.stack) code value self.old.state)
            self.old.state.known (weight_of self.old + 32) self.new p) }
    {
        match code {
            Code::Done => match truth_in(alloc, value.as_slice())? {
                Ok(holds) => self.repeat_if(alloc, repetition, holds),
                Err(message) => self.fail(alloc, message),
            },
            Code::Failed | Code::Returned | Code::Broken | Code::Continued | Code::ExpContinued => {
                Ok(self.go_up(code, value))
            }
        }
    }

    /// A loop goes on behind its body.
    #[tactic(auto, unfolding(crate::specs::Meaning::rest, crate::specs::Meaning::weight))]
    fn behind_body(
        &mut self,
        alloc: Global,
        repetition: Boxed<Repetition>,
        code: Code,
        value: Bytes,
    ) -> Result<Pace, AllocError>
        requires { self.old.control ≡ Control.Go }
        ensures { IfOk result (λ p. Comes
            (repeating repetition LoopPart.Body (all_back self.old.stack) code value self.old.state)
            self.old.state.known (weight_of self.old + 16) self.new p) }
    {
        match code {
            Code::Done | Code::Continued => self.next_script(alloc, repetition),
            Code::Broken => Ok(self.go_up(Code::Done, Bytes::new(alloc))),
            Code::Failed | Code::Returned | Code::ExpContinued => Ok(self.go_up(code, value)),
        }
    }

    /// A loop goes on behind its third script.
    #[tactic(auto, unfolding(crate::specs::Meaning::rest, crate::specs::Meaning::weight))]
    fn behind_next(
        &mut self,
        alloc: Global,
        repetition: Boxed<Repetition>,
        code: Code,
        value: Bytes,
    ) -> Result<Pace, AllocError>
        requires { self.old.control ≡ Control.Go }
        ensures { IfOk result (λ p. Comes
            (repeating repetition LoopPart.Next (all_back self.old.stack) code value self.old.state)
            self.old.state.known (weight_of self.old + 8) self.new p) }
    {
        match code {
            Code::Done => self.next_test(alloc, repetition),
            Code::Broken => Ok(self.go_up(Code::Done, Bytes::new(alloc))),
            Code::Failed | Code::Returned | Code::Continued | Code::ExpContinued => {
                Ok(self.go_up(code, value))
            }
        }
    }

    /// A loop goes on behind what of it has ended.
    pub(crate) fn repeat(
        &mut self,
        alloc: Global,
        repetition: Boxed<Repetition>,
        code: Code,
        value: Bytes,
    ) -> Result<Pace, AllocError>
        requires { self.old.control ≡ Control.Go }
        ensures { IfOk result (λ p. Comes
            (repeating repetition repetition.stage (all_back self.old.stack) code value self.old.state)
            self.old.state.known (weight_of self.old + stage_weight repetition.stage) self.new p) }
    {
        match repetition.get().stage {
            LoopPart::Start => self.behind_start(alloc, repetition, code, value),
            LoopPart::Test => self.behind_test(alloc, repetition, code, value),
            LoopPart::Body => self.behind_body(alloc, repetition, code, value),
            LoopPart::Next => self.behind_next(alloc, repetition, code, value),
        }
    }

    /// `while test body`.
    #[tactic(auto, unfolding(dg_language::specs::Choosing::do_while, crate::specs::Meaning::rest, crate::specs::Meaning::back, crate::specs::Meaning::all_back, crate::specs::Meaning::weight, crate::specs::Meaning::stack_weight))]
    pub(crate) fn repeat_while(
        &mut self,
        alloc: Global,
        args: &[Bytes],
        depth: u32,
    ) -> Result<Pace, AllocError>
        requires { self.old.control ≡ Control.Go }
        ensures { IfOk result (GoesAs (do_while (evaluate depth) args.now) 16 self.old self.new) }
    {
        let Some((test, body)) = two(args) else {
            return self.wrong_count(alloc, b"while");
        };
        let repetition = Repetition {
            stage: LoopPart::Start,
            test: Condition::new(alloc, &mut self.shelves.formulas, test)?,
            next: None,
            body: Body::new(alloc, &mut self.shelves.scripts, body)?,
            left: STEPS,
            depth,
        };
        let repetition = Boxed::new(alloc, repetition)?;
        self.stack.push(Frame::Repeating { repetition })?;
        self.end(Code::Done, Bytes::new(alloc));
        Ok(Pace::Moved)
    }

    /// `for start test next body`.
    #[tactic(auto, unfolding(dg_language::specs::Choosing::do_for, crate::specs::Meaning::back, crate::specs::Meaning::all_back, crate::specs::Meaning::weight, crate::specs::Meaning::stack_weight))]
    pub(crate) fn repeat_for(
        &mut self,
        alloc: Global,
        args: &[Bytes],
        depth: u32,
    ) -> Result<Pace, AllocError>
        requires { self.old.control ≡ Control.Go }
        ensures { IfOk result (GoesAs (do_for (evaluate depth) args.now) 16 self.old self.new) }
    {
        let Some((start, test, next, body)) = four(args) else {
            return self.wrong_count(alloc, b"for");
        };
        let repetition = Repetition {
            stage: LoopPart::Start,
            test: Condition::new(alloc, &mut self.shelves.formulas, test)?,
            next: Some(Body::new(alloc, &mut self.shelves.scripts, next)?),
            body: Body::new(alloc, &mut self.shelves.scripts, body)?,
            left: STEPS,
            depth,
        };
        let repetition = Boxed::new(alloc, repetition)?;
        self.stack.push(Frame::Repeating { repetition })?;
        let start = start.copy(alloc)?;
        let pace = self.enter(alloc, start, depth)?;
        Ok(pace)
    }
}
