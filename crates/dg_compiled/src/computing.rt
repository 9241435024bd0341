//! The instructions of an expression, as far as they need no evaluation.
ghost use Rattle.std.specs.Prelude.{◌≡◌, ◌∷◌, List, IfOk, IfSome, OnOk, MatchOption, Some, None};
ghost use Rattle.dg_expr.specs.Code.{below, top};
ghost use Rattle.dg_expr.specs.Truth.{truth_of};
ghost use Rattle.dg_expr.specs.declared.code.Instruction.{Instruction as Step};
ghost use Rattle.dg_language.specs.Expressions.{or_no_truth};
ghost use Rattle.dg_language.specs.WordSteps.{operand_steps};
ghost use Rattle.dg_words.specs.Piece.{Piece};
ghost use Rattle.dg_compiled.specs.declared.computing.Computed.{Computed as TheComputed};
ghost use Rattle.dg_compiled.specs.Computing.{Computes, Does, Instructs, Loads};
ghost use Rattle.dg_compiled.specs.Instructions.{IsTaken};

use crate::calculation::Calculation;
use crate::instructions::Taken;
use crate::making::{Making, first_or_empty};
use crate::stack::Stack;
use crate::texts::make_texts;
use dg_bytes::Bytes;
use dg_expr::{Infix, Prefix, truth_text};
use dg_forms::{truth_in, value_behind, value_between};
use dg_language::{Purpose, Queue, State, Substitution};
use std::alloc::{AllocError, Global};

/// How far the instructions of an expression have come without a question or an evaluation.
#[derive(Drop)]
pub enum Computed {
    /// To the end, with this value.
    Value(Bytes),
    /// To the end, with the text of this number.
    Whole(i64),
    /// To one that fails with this message.
    Failed(Bytes),
    /// To an operand that needs an evaluation, with the rest of its words.
    Operand(Making),
}

/// Takes the value on top.
fn take_top(alloc: Global, values: &mut Stack<Bytes>) -> Bytes
    ensures first { result ≡ top values.old }
    ensures others { values.new ≡ below values.old }
{
    match values.pop() {
        Some(value) => value,
        None => Bytes::new(alloc),
    }
}

/// Takes the value on top, and gives its truth, or the message of one that has none.
fn take_truth(alloc: Global, values: &mut Stack<Bytes>) -> Result<Result<bool, Bytes>, AllocError>
    ensures truth { IfOk result (λ r. r ≡ or_no_truth (truth_of (top values.old)) (top values.old)) }
    ensures others { values.new ≡ below values.old }
{
    let value = take_top(alloc, values);
    truth_in(alloc, value.as_slice())
}

/// Puts a value on top. As many instructions are passed over.
fn put(calculation: &mut Calculation, value: Bytes, passed: usize) -> Result<(), AllocError>
    ensures { OnOk result
        (calculation.new ≡ record calculation.old { values = value ∷ calculation.old.values; passed = passed }) }
{
    calculation.values.push(value)?;
    calculation.passed = passed;
    Ok(())
}

/// An operator before its operand.
#[inline(never)]
fn apply_one(
    alloc: Global,
    calculation: &mut Calculation,
    op: Prefix,
) -> Result<Option<Bytes>, AllocError>
    ensures { IfOk result (Does (Step.ApplyOne op) calculation.old calculation.new) }
{
    let operand = take_top(alloc, &mut calculation.values);
    match value_behind(alloc, op, operand.as_slice())? {
        Ok(value) => {
            put(calculation, value, 0)?;
            Ok(None)
        }
        Err(message) => Ok(Some(message)),
    }
}

/// An operator between its operands.
fn apply(
    alloc: Global,
    calculation: &mut Calculation,
    op: Infix,
) -> Result<Option<Bytes>, AllocError>
    ensures { IfOk result (Does (Step.Apply op) calculation.old calculation.new) }
{
    let right = take_top(alloc, &mut calculation.values);
    let left = take_top(alloc, &mut calculation.values);
    match value_between(alloc, op, left.as_slice(), right.as_slice())? {
        Ok(value) => {
            put(calculation, value, 0)?;
            Ok(None)
        }
        Err(message) => Ok(Some(message)),
    }
}

/// The left operand of `&&`: where it is false the right one is passed over.
#[inline(never)]
fn and(
    alloc: Global,
    calculation: &mut Calculation,
    passed: usize,
) -> Result<Option<Bytes>, AllocError>
    ensures { IfOk result (Does (Step.And passed) calculation.old calculation.new) }
{
    match take_truth(alloc, &mut calculation.values)? {
        Ok(true) => {
            calculation.passed = 0;
            Ok(None)
        }
        Ok(false) => {
            let value = Bytes::from_slice(alloc, b"0")?;
            put(calculation, value, passed)?;
            Ok(None)
        }
        Err(message) => Ok(Some(message)),
    }
}

/// The left operand of `||`: where it is true the right one is passed over.
#[inline(never)]
fn or(
    alloc: Global,
    calculation: &mut Calculation,
    passed: usize,
) -> Result<Option<Bytes>, AllocError>
    ensures { IfOk result (Does (Step.Or passed) calculation.old calculation.new) }
{
    match take_truth(alloc, &mut calculation.values)? {
        Ok(false) => {
            calculation.passed = 0;
            Ok(None)
        }
        Ok(true) => {
            let value = Bytes::from_slice(alloc, b"1")?;
            put(calculation, value, passed)?;
            Ok(None)
        }
        Err(message) => Ok(Some(message)),
    }
}

/// The truth of the top takes its place.
#[inline(never)]
fn tell(alloc: Global, calculation: &mut Calculation) -> Result<Option<Bytes>, AllocError>
    ensures { IfOk result (Does Step.Truth calculation.old calculation.new) }
{
    match take_truth(alloc, &mut calculation.values)? {
        Ok(holds) => {
            let value = Bytes::from_slice(alloc, truth_text(holds))?;
            put(calculation, value, 0)?;
            Ok(None)
        }
        Err(message) => Ok(Some(message)),
    }
}

/// A condition: where it is false its first branch is passed over.
#[inline(never)]
fn unless(
    alloc: Global,
    calculation: &mut Calculation,
    passed: usize,
) -> Result<Option<Bytes>, AllocError>
    ensures { IfOk result (Does (Step.Unless passed) calculation.old calculation.new) }
{
    match take_truth(alloc, &mut calculation.values)? {
        Ok(true) => {
            calculation.passed = 0;
            Ok(None)
        }
        Ok(false) => {
            calculation.passed = passed;
            Ok(None)
        }
        Err(message) => Ok(Some(message)),
    }
}

/// An operand is put on top, unless its words need an evaluation.
#[inline(never)]
fn load(
    alloc: Global,
    state: &State,
    calculation: &mut Calculation,
    left: Queue<Substitution>,
) -> Result<Option<Making>, AllocError>
    ensures { IfOk result (λ o. (pieces : List Piece) → left ≡ operand_steps pieces → Loads (Step.Push pieces) state.now
        calculation.old calculation.new o) }
{
    let mut making = Making::begun(alloc, Purpose::Load, left);
    make_texts(alloc, state, &mut making)?;
    if making.left.len() > 0 {
        calculation.passed = 0;
        return Ok(Some(making));
    }
    let value = first_or_empty(alloc, making.made.as_slice())?;
    put(calculation, value, 0)?;
    Ok(None)
}

/// The result of an instruction that may fail with a message.
fn failed(message: Option<Bytes>) -> Option<Computed>
    ensures { MatchOption message (result ≡ None) (λ m. result ≡ Some (TheComputed.Failed m)) }
{
    match message {
        Some(message) => Some(Computed::Failed(message)),
        None => None,
    }
}

/// Does an instruction.
fn instruct(
    alloc: Global,
    state: &State,
    calculation: &mut Calculation,
    taken: Taken,
) -> Result<Option<Computed>, AllocError>
    ensures { IfOk result
        (λ o. (i : Step) → IsTaken state.now i taken → Instructs i state.now calculation.old calculation.new o) }
{
    match taken {
        Taken::Value(value) => {
            put(calculation, value, 0)?;
            Ok(None)
        }
        Taken::Operand(left) => match load(alloc, state, calculation, left)? {
            Some(making) => Ok(Some(Computed::Operand(making))),
            None => Ok(None),
        },
        Taken::One(op) => Ok(failed(apply_one(alloc, calculation, op)?)),
        Taken::Two(op) => Ok(failed(apply(alloc, calculation, op)?)),
        Taken::And(passed) => Ok(failed(and(alloc, calculation, passed)?)),
        Taken::Or(passed) => Ok(failed(or(alloc, calculation, passed)?)),
        Taken::Truth => Ok(failed(tell(alloc, calculation)?)),
        Taken::Unless(passed) => Ok(failed(unless(alloc, calculation, passed)?)),
        Taken::Skip(passed) => {
            calculation.passed = passed;
            Ok(None)
        }
    }
}

/// The number that an expression comes to, where whole numbers are all that it needs.
#[tactic(auto, unfolding(crate::specs::Wholes::ComesToWhole))]
fn compute_whole(state: &State, calculation: &Calculation) -> Option<i64>
    ensures { IfSome result (λ z. Computes state.now calculation.now calculation.now (TheComputed.Whole z)) }
{
    if calculation.passed > 0 {
        return None;
    }
    calculation.left.whole(state)
}

/// The value of an expression that is one operator between two operands that are values by themselves.
fn compute_at_once(
    alloc: Global,
    state: &State,
    calculation: &Calculation,
) -> Result<Option<Computed>, AllocError>
    ensures { IfOk result (λ o. IfSome o (Computes state.now calculation.now calculation.now)) }
{
    if calculation.passed > 0 {
        return Ok(None);
    }
    let Some((left, op, right)) = calculation.left.between(state) else {
        return Ok(None);
    };
    match value_between(alloc, op, left.as_slice(), right.as_slice())? {
        Ok(value) => Ok(Some(Computed::Value(value))),
        Err(message) => Ok(Some(Computed::Failed(message))),
    }
}

/// Does the instructions of an expression, up to its end, to one that fails or to an operand that needs an evaluation.
pub fn compute_on(
    alloc: Global,
    state: &State,
    calculation: &mut Calculation,
) -> Result<Computed, AllocError>
    ensures { IfOk result (Computes state.now calculation.old calculation.new) }
{
    if let Some(number) = compute_whole(state, calculation) {
        return Ok(Computed::Whole(number));
    }
    if let Some(computed) = compute_at_once(alloc, state, calculation)? {
        return Ok(computed);
    }
    compute_in_steps(alloc, state, calculation)
}

/// The same, an instruction at a time.
#[inline(never)]
fn compute_in_steps(
    alloc: Global,
    state: &State,
    calculation: &mut Calculation,
) -> Result<Computed, AllocError>
    ensures { IfOk result (Computes state.now calculation.old calculation.new) }
{
    'instructions: while let Some(taken) = calculation.left.next(alloc, state)? {
        if calculation.passed > 0 {
            calculation.passed -= 1;
        } else if let Some(computed) = instruct(alloc, state, calculation, taken)? {
            return Ok(computed);
        }
    }
    Ok(Computed::Value(take_top(alloc, &mut calculation.values)))
}
