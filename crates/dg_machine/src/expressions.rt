//! How an expression is computed.
ghost use Rattle.std.specs.Prelude.{◌≡◌, ◌+◌, ◌*◌, ◌^◌, ◌<◌, [], IfOk, length};
ghost use Rattle.dg_expr.specs.declared.fault.ExprFault.TheVariants.{Syntax};
ghost use Rattle.dg_language.specs.Evaluation.{fail, if_done};
ghost use Rattle.dg_language.specs.Expressions.{do_expr, fault_message, written};
ghost use Rattle.dg_language.specs.Language.{evaluate};
ghost use Rattle.dg_machine.specs.declared.frame.Control.{Control};
ghost use Rattle.dg_compiled.specs.Calculating.{calculating, calculating_with};
ghost use Rattle.dg_compiled.specs.Computing.{Computes};
ghost use Rattle.dg_machine.specs.Meaning.{all_back, weight_of, Goes, GoesAs};

use crate::frame::{Frame, Pace};
use crate::machine::Machine;
use dg_bytes::Bytes;
use dg_compiled::{Calculation, Computed, compute_on};
use dg_expr::decimal;
use dg_forms::{in_decimal, split, syntax_error, with_spaces};
use dg_language::Code;
use dg_scope::LONGEST_VALUE;
use std::alloc::{AllocError, Global};

impl Machine {
    /// An expression goes on, up to its end or to an operand that needs an evaluation.
    #[tactic(auto, unfolding(crate::specs::Meaning::rest, crate::specs::Meaning::go, crate::specs::Meaning::back, crate::specs::Meaning::all_back, crate::specs::Meaning::weight, crate::specs::Meaning::stack_weight))]
    pub(crate) fn compute(
        &mut self,
        alloc: Global,
        mut calculation: Calculation,
    ) -> Result<Pace, AllocError>
        requires { self.old.control ≡ Control.Go }
        ensures { IfOk result (λ p. Goes (calculating calculation self.old.state (all_back self.old.stack))
            self.old.state.known (weight_of self.old + 8 + 2 ^ 67 * length calculation.left) self.new p) }
    {
        let computed = compute_on(alloc, &self.state, &mut calculation)?;
        self.come_to(alloc, calculation, computed)
    }

    /// An expression has come to its end, to an error, or to an operand that needs an evaluation.
    #[tactic(auto, unfolding(crate::specs::Meaning::rest, crate::specs::Meaning::go, crate::specs::Meaning::back, crate::specs::Meaning::all_back, crate::specs::Meaning::weight, crate::specs::Meaning::stack_weight))]
    pub(crate) fn come_to(
        &mut self,
        alloc: Global,
        calculation: Calculation,
        computed: Computed,
    ) -> Result<Pace, AllocError>
        requires { self.old.control ≡ Control.Go }
        ensures { IfOk result (λ p. (first : Calculation) → Computes self.old.state first calculation computed → Goes
            (calculating first self.old.state (all_back self.old.stack)) self.old.state.known
            (weight_of self.old + 8 + 2 ^ 67 * length first.left) self.new p) }
    {
        match computed {
            Computed::Value(value) => {
                self.end(Code::Done, value);
                Ok(Pace::Moved)
            }
            Computed::Whole(number) => {
                let value = decimal(alloc, number)?;
                self.end(Code::Done, value);
                Ok(Pace::Moved)
            }
            Computed::Failed(message) => self.fail(alloc, message),
            Computed::Operand(making) => {
                let depth = calculation.depth;
                self.stack.push(Frame::Calculating { calculation })?;
                self.stack.push(Frame::Gathering { making, depth })?;
                Ok(Pace::Moved)
            }
        }
    }

    /// A text spells no expression.
    #[cold]
    #[inline(never)]
    pub(crate) fn no_expression(&mut self, alloc: Global, text: &Bytes) -> Result<Pace, AllocError>
        requires { self.old.control ≡ Control.Go }
        ensures { IfOk result (GoesAs (fail (fault_message Syntax text.now [])) 2 self.old self.new) }
    {
        let message = syntax_error(alloc, text.as_slice())?;
        self.fail(alloc, message)
    }

    /// What an operand is made of has ended.
    pub(crate) fn after_operand(
        &mut self,
        alloc: Global,
        mut calculation: Calculation,
        code: Code,
        value: Bytes,
    ) -> Result<Pace, AllocError>
        requires { self.old.control ≡ Control.Go }
        ensures { IfOk result (λ p. Goes (if_done (λ v s. calculating_with calculation v s (all_back self.old.stack))
            (all_back self.old.stack) code value self.old.state) self.old.state.known
            (weight_of self.old + 9 + 2 ^ 67 * length calculation.left) self.new p) }
    {
        match code {
            Code::Done => {
                calculation.values.push(value)?;
                self.compute(alloc, calculation)
            }
            Code::Failed | Code::Returned | Code::Broken | Code::Continued | Code::ExpContinued => {
                Ok(self.go_up(code, value))
            }
        }
    }

    /// The value of `expr` is written: a number in decimal.
    #[tactic(auto, unfolding(crate::specs::Meaning::rest, crate::specs::Meaning::weight))]
    pub(crate) fn write_value(
        &mut self,
        alloc: Global,
        code: Code,
        value: Bytes,
    ) -> Result<Pace, AllocError>
        requires { self.old.control ≡ Control.Go }
        ensures { IfOk result (λ p. Goes (written (all_back self.old.stack) code value self.old.state) self.old.state.known
            (weight_of self.old + 2) self.new p) }
    {
        match code {
            Code::Done => {
                let value = in_decimal(alloc, value)?;
                self.end(Code::Done, value);
            }
            code => self.end(code, value),
        }
        Ok(Pace::Moved)
    }

    /// `expr word..`.
    #[tactic(auto, unfolding(dg_language::specs::Expressions::do_expr, crate::specs::Meaning::back, crate::specs::Meaning::all_back, crate::specs::Meaning::weight, crate::specs::Meaning::stack_weight))]
    pub(crate) fn expr(
        &mut self,
        alloc: Global,
        args: &[Bytes],
        depth: u32,
    ) -> Result<Pace, AllocError>
        requires { self.old.control ≡ Control.Go }
        ensures { IfOk result (GoesAs (do_expr (evaluate depth) args.now) (2 ^ 140) self.old self.new) }
    {
        let Some((first, others)) = split(args) else {
            return self.wrong_count(alloc, b"expr");
        };
        let text = with_spaces(alloc, first.as_slice(), others)?;
        if text.len() > LONGEST_VALUE {
            let closing = self.cut(alloc, b"value too long")?;
            return Ok(Pace::Over(closing));
        }
        let formula = self.shelves.formulas.reading(alloc, &text)?;
        let Some(mut calculation) = Calculation::of(alloc, formula, depth) else {
            return self.no_expression(alloc, &text);
        };
        match compute_on(alloc, &self.state, &mut calculation)? {
            Computed::Value(value) => {
                let value = in_decimal(alloc, value)?;
                self.end(Code::Done, value);
                Ok(Pace::Moved)
            }
            Computed::Whole(number) => {
                let value = decimal(alloc, number)?;
                self.end(Code::Done, value);
                Ok(Pace::Moved)
            }
            computed => {
                self.stack.push(Frame::Writing)?;
                self.come_to(alloc, calculation, computed)
            }
        }
    }
}
