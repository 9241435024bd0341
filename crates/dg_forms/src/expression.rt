//! Parts of the evaluation of expressions: code, the values of operators, truth, and the message of each fault.
ghost use Rattle.std.specs.Prelude.{◌≡◌, ◌++◌, [], IfOk};
ghost use Rattle.dg_expr.specs.Operator.{value_of, value_of_one};
ghost use Rattle.dg_expr.specs.Reading.{tree_in};
ghost use Rattle.dg_expr.specs.Truth.{truth_of};
ghost use Rattle.dg_language.specs.Expressions.{code_in, fault_message, in_decimal, on_side, or_fault, or_no_truth, behind_spaces};

use crate::messages::with_quoted;
use dg_bytes::{Bytes, Seq};
use dg_expr::{
    ExprFault, Infix, Instruction, Prefix, Side, apply, apply_one, compile, decimal, number,
    read_expr, truth,
};
use dg_lists::fault_text;
use std::alloc::{AllocError, Global};

/// The operand on a side.
fn on_side<'a>(side: Side, left: &'a [u8], right: &'a [u8]) -> &'a [u8]
    ensures { result.now ≡ on_side side left.now right.now }
{
    match side {
        Side::Left => left,
        Side::Right => right,
    }
}

/// The message of a fault, of which these are the operands, or the text that spells no expression.
fn fault_message(
    alloc: Global,
    fault: ExprFault,
    left: &[u8],
    right: &[u8],
) -> Result<Bytes, AllocError>
    ensures { IfOk result (λ m. m ≡ fault_message fault left.now right.now) }
{
    match fault {
        ExprFault::Syntax => with_quoted(alloc, b"syntax error in expression ", left),
        ExprFault::NotWhole(side) => {
            with_quoted(
                alloc,
                b"expected integer but got ",
                on_side(side, left, right),
            )
        }
        ExprFault::DivideByZero => Bytes::from_slice(alloc, b"divide by zero"),
        ExprFault::TooLarge => Bytes::from_slice(alloc, b"integer value too large to represent"),
        ExprFault::NotTruth => with_quoted(alloc, b"expected boolean value but got ", left),
        ExprFault::Memory => Err(AllocError),
        ExprFault::NegativeShift => Bytes::from_slice(alloc, b"negative shift argument"),
        ExprFault::BadList(fault) => Bytes::from_slice(alloc, fault_text(fault)),
    }
}

/// The message of a text that spells no expression.
pub fn syntax_error(alloc: Global, text: &[u8]) -> Result<Bytes, AllocError>
    ensures { IfOk result (λ m. m ≡ fault_message ExprFault.Syntax text.now []) }
{
    fault_message(alloc, ExprFault::Syntax, text, b"")
}

/// The code of the expression that a text spells, if it spells one.
pub fn code_of(alloc: Global, text: &[u8]) -> Result<Option<Seq<Instruction>>, AllocError>
    ensures { IfOk result (λ code. code ≡ code_in (tree_in text.now)) }
{
    match read_expr(alloc, text) {
        Ok(tree) => Ok(Some(compile(alloc, tree)?)),
        Err(ExprFault::Memory) => Err(AllocError),
        Err(_) => Ok(None),
    }
}

/// The value of an operator between two texts, or the message of its fault.
pub fn value_between(
    alloc: Global,
    op: Infix,
    left: &[u8],
    right: &[u8],
) -> Result<Result<Bytes, Bytes>, AllocError>
    ensures { IfOk result (λ r. r ≡ or_fault (value_of op left.now right.now) left.now right.now) }
{
    match apply(alloc, op, left, right) {
        Ok(value) => Ok(Ok(value)),
        Err(ExprFault::Memory) => Err(AllocError),
        Err(fault) => Ok(Err(fault_message(alloc, fault, left, right)?)),
    }
}

/// The value of an operator before a text, or the message of its fault.
pub fn value_behind(
    alloc: Global,
    op: Prefix,
    operand: &[u8],
) -> Result<Result<Bytes, Bytes>, AllocError>
    ensures { IfOk result (λ r. r ≡ or_fault (value_of_one op operand.now) operand.now []) }
{
    match apply_one(alloc, op, operand) {
        Ok(value) => Ok(Ok(value)),
        Err(ExprFault::Memory) => Err(AllocError),
        Err(fault) => Ok(Err(fault_message(alloc, fault, operand, b"")?)),
    }
}

/// The truth of a text, or the message of one that has none.
pub fn truth_in(alloc: Global, text: &[u8]) -> Result<Result<bool, Bytes>, AllocError>
    ensures { IfOk result (λ r. r ≡ or_no_truth (truth_of text.now) text.now) }
{
    match truth(text) {
        Ok(holds) => Ok(Ok(holds)),
        Err(fault) => Ok(Err(fault_message(alloc, fault, text, b"")?)),
    }
}

/// A value, which is written in decimal if it is a number.
#[tactic(auto, unfolding(dg_language::specs::Expressions::in_decimal))]
pub fn in_decimal(alloc: Global, value: Bytes) -> Result<Bytes, AllocError>
    ensures { IfOk result (λ v. v ≡ in_decimal value) }
{
    match number(value.as_slice()) {
        Some(number) => decimal(alloc, number),
        None => Ok(value),
    }
}

/// Words with a space between each two: a first one and others.
pub fn with_spaces(alloc: Global, first: &[u8], others: &[Bytes]) -> Result<Bytes, AllocError>
    ensures { IfOk result (λ t. t ≡ first.now ++ behind_spaces others.now) }
{
    let mut text = Bytes::from_slice(alloc, first)?;
    for word in others {
        text.extend(b" ")?;
        text.extend(word.as_slice())?;
    }
    Ok(text)
}
