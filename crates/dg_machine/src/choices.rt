//! The commands `if`, `switch` and `eval`, and the way to all that compute, choose or repeat.
ghost use Rattle.std.specs.Prelude.{◌≡◌, ◌+◌, ◌*◌, ◌^◌, ◌<◌, IfOk, length};
ghost use Rattle.dg_language.specs.Choosing.{choose, do_if, do_otherwise};
ghost use Rattle.dg_language.specs.Switching.{do_eval, do_switch, evaluated};
ghost use Rattle.dg_language.specs.Language.{do_choice};
ghost use Rattle.dg_language.specs.Language.{evaluate};
ghost use Rattle.dg_machine.specs.declared.frame.Control.{Control};
ghost use Rattle.dg_machine.specs.Choosing.{choosing};
ghost use Rattle.dg_machine.specs.Meaning.{all_back, weight_of, Goes, GoesAs};

use crate::frame::{Choice, Frame, Pace};
use crate::machine::Machine;
use dg_bytes::Bytes;
use dg_compiled::{Calculation, Computed, compute_on};
use dg_expr::decimal;
use dg_forms::{clauses_of, concatenated, split, switched, truth_in};
use dg_language::{ChoiceCommand, Clause, Clauses, Code, Queue};
use std::alloc::{AllocError, Global};

impl Machine {
    /// The last body of an `if` runs, if it has one.
    #[tactic(auto, unfolding(crate::specs::Meaning::rest, crate::specs::Meaning::weight))]
    fn otherwise(
        &mut self,
        alloc: Global,
        otherwise: Option<Bytes>,
        depth: u32,
    ) -> Result<Pace, AllocError>
        requires { self.old.control ≡ Control.Go }
        ensures { IfOk result (GoesAs (do_otherwise (evaluate depth) otherwise) 4 self.old self.new) }
    {
        match otherwise {
            None => {
                self.end(Code::Done, Bytes::new(alloc));
                Ok(Pace::Moved)
            }
            Some(body) => self.enter(alloc, body, depth),
        }
    }

    /// The condition of the next clause begins to be computed, or the last body runs.
    #[tactic(auto, unfolding(crate::specs::Meaning::back, crate::specs::Meaning::all_back, crate::specs::Meaning::weight, crate::specs::Meaning::stack_weight))]
    fn choose(
        &mut self,
        alloc: Global,
        mut left: Queue<Clause>,
        otherwise: Option<Bytes>,
        depth: u32,
    ) -> Result<Pace, AllocError>
        requires { self.old.control ≡ Control.Go }
        ensures { IfOk result (λ p. Goes (choose (evaluate depth) left otherwise self.old.state (all_back self.old.stack))
            self.old.state.known (weight_of self.old + 2 ^ 140 + 2 ^ 140 * length left) self.new p) }
    {
        let Some(clause) = left.next() else {
            return self.otherwise(alloc, otherwise, depth);
        };
        let Clause { condition, body } = clause;
        let choice = Choice {
            body,
            left,
            otherwise,
            depth,
        };
        let formula = self.shelves.formulas.reading(alloc, &condition)?;
        let Some(mut calculation) = Calculation::of(alloc, formula, depth) else {
            return self.no_expression(alloc, &condition);
        };
        match compute_on(alloc, &self.state, &mut calculation)? {
            Computed::Value(value) => self.decide_now(alloc, choice, value),
            Computed::Whole(number) => {
                let value = decimal(alloc, number)?;
                self.decide_now(alloc, choice, value)
            }
            computed => {
                self.stack.push(Frame::Choosing { choice })?;
                self.come_to(alloc, calculation, computed)
            }
        }
    }

    /// An `if` goes on, once the value of a condition is there: further clauses wait for the next move.
    #[tactic(auto, unfolding(crate::specs::Meaning::rest, crate::specs::Meaning::back, crate::specs::Meaning::all_back, crate::specs::Meaning::weight, crate::specs::Meaning::stack_weight))]
    fn decide_now(
        &mut self,
        alloc: Global,
        choice: Choice,
        value: Bytes,
    ) -> Result<Pace, AllocError>
        requires { self.old.control ≡ Control.Go }
        ensures { IfOk result (λ p. Goes (choosing choice (all_back self.old.stack) Code.Done value self.old.state)
            self.old.state.known (weight_of self.old + 2 + 2 ^ 140 + 2 ^ 140 * length choice.left) self.new p) }
    {
        match truth_in(alloc, value.as_slice())? {
            Ok(true) => self.enter(alloc, choice.body, choice.depth),
            Ok(false) => {
                if choice.left.len() == 0 {
                    return self.otherwise(alloc, choice.otherwise, choice.depth);
                }
                self.stack.push(Frame::Choosing { choice })?;
                self.end(Code::Done, value);
                Ok(Pace::Moved)
            }
            Err(message) => self.fail(alloc, message),
        }
    }

    /// An `if` goes on, once the value of a condition is there.
    fn decide(&mut self, alloc: Global, choice: Choice, value: Bytes) -> Result<Pace, AllocError>
        requires { self.old.control ≡ Control.Go }
        ensures { IfOk result (λ p. Goes (choosing choice (all_back self.old.stack) Code.Done value self.old.state)
            self.old.state.known (weight_of self.old + 2 ^ 140 + 2 ^ 140 * length choice.left) self.new p) }
    {
        match truth_in(alloc, value.as_slice())? {
            Ok(true) => self.enter(alloc, choice.body, choice.depth),
            Ok(false) => self.choose(alloc, choice.left, choice.otherwise, choice.depth),
            Err(message) => self.fail(alloc, message),
        }
    }

    /// A condition of `if` has ended.
    pub(crate) fn after_condition(
        &mut self,
        alloc: Global,
        choice: Choice,
        code: Code,
        value: Bytes,
    ) -> Result<Pace, AllocError>
        requires { self.old.control ≡ Control.Go }
        ensures { IfOk result (λ p. Goes (choosing choice (all_back self.old.stack) code value self.old.state)
            self.old.state.known (weight_of self.old + 2 ^ 140 + 2 ^ 140 * length choice.left) self.new p) }
    {
        match code {
            Code::Done => self.decide(alloc, choice, value),
            Code::Failed | Code::Returned | Code::Broken | Code::Continued | Code::ExpContinued => {
                Ok(self.go_up(code, value))
            }
        }
    }

    /// `if`.
    #[tactic(auto, unfolding(dg_language::specs::Choosing::do_if))]
    fn branch(&mut self, alloc: Global, args: &[Bytes], depth: u32) -> Result<Pace, AllocError>
        requires { self.old.control ≡ Control.Go }
        ensures { IfOk result (GoesAs (do_if (evaluate depth) args.now) (2 ^ 249) self.old self.new) }
    {
        let Some(clauses) = clauses_of(alloc, args)? else {
            return self.wrong_count(alloc, b"if");
        };
        let Clauses { tested, otherwise } = clauses;
        // The call shows the proof that the length is a `usize`.
        let _count = tested.len();
        self.choose(alloc, tested, otherwise, depth)
    }

    /// `switch`: the body that it takes runs.
    #[tactic(auto, unfolding(dg_language::specs::Switching::do_switch))]
    fn switch(&mut self, alloc: Global, args: &[Bytes], depth: u32) -> Result<Pace, AllocError>
        requires { self.old.control ≡ Control.Go }
        ensures { IfOk result (GoesAs (do_switch (evaluate depth) args.now) 4 self.old self.new) }
    {
        match switched(alloc, &mut self.shelves.pairs, args)? {
            Ok(body) => self.otherwise(alloc, body, depth),
            Err(message) => self.fail(alloc, message),
        }
    }

    /// A text runs, if it was not too long.
    fn evaluate(
        &mut self,
        alloc: Global,
        text: Option<Bytes>,
        depth: u32,
    ) -> Result<Pace, AllocError>
        requires { self.old.control ≡ Control.Go }
        ensures { IfOk result (GoesAs (evaluated (evaluate depth) text) 4 self.old self.new) }
    {
        let Some(text) = text else {
            let closing = self.cut(alloc, b"value too long")?;
            return Ok(Pace::Over(closing));
        };
        self.enter(alloc, text, depth)
    }

    /// `eval`: what `concat` makes of the words runs.
    #[tactic(auto, unfolding(dg_language::specs::Switching::do_eval))]
    fn eval(&mut self, alloc: Global, args: &[Bytes], depth: u32) -> Result<Pace, AllocError>
        requires { self.old.control ≡ Control.Go }
        ensures { IfOk result (GoesAs (do_eval (evaluate depth) args.now) 4 self.old self.new) }
    {
        let Some((_, _)) = split(args) else {
            return self.wrong_count(alloc, b"eval");
        };
        let text = concatenated(alloc, args)?;
        self.evaluate(alloc, text, depth)
    }

    /// A command that computes, chooses or repeats.
    pub(crate) fn choice(
        &mut self,
        alloc: Global,
        which: ChoiceCommand,
        args: &[Bytes],
        depth: u32,
    ) -> Result<Pace, AllocError>
        requires { self.old.control ≡ Control.Go }
        ensures { IfOk result (GoesAs (do_choice (evaluate depth) which args.now) (2 ^ 249) self.old self.new) }
    {
        match which {
            ChoiceCommand::Expr => self.expr(alloc, args, depth),
            ChoiceCommand::Eval => self.eval(alloc, args, depth),
            ChoiceCommand::If => self.branch(alloc, args, depth),
            ChoiceCommand::Switch => self.switch(alloc, args, depth),
            ChoiceCommand::While => self.repeat_while(alloc, args, depth),
            ChoiceCommand::For => self.repeat_for(alloc, args, depth),
        }
    }
}
