//! The values of operators.
ghost use Rattle.std.specs.Prelude.{◌≡◌, ◌≢◌, ◌*ℤ◌, ◌+ℤ◌, ◌-ℤ◌, pos, ◌⊎◌, Bool, not, Some, None, Ok, Err, IfOk, MatchResult};
ghost use Rattle.std.specs.Int.{w64, int_bit_and, int_bit_or, int_bit_xor};
ghost use Rattle.std.specs.List.{list_any};
ghost use Rattle.dg_lists.specs.Elements.{elements_of};
ghost use Rattle.dg_expr.specs.Answers.{Computes, HasValue, IsNotWhole};
ghost use Rattle.dg_expr.specs.Number.{decimal_text, number_of};
ghost use Rattle.dg_expr.specs.Operator.{and_then, divided, found_in, number_value, of_wholes, or_else, order_of, quotient, remainder, shifted_left, shifted_right, truth_value, value_of, value_of_one};
ghost use Rattle.dg_bytes.specs.Same.{same_bytes};
ghost use Rattle.dg_expr.specs.Truth.{truth_of};

use crate::boolean::{truth, truth_text};
use crate::fault::{ExprFault, Side};
use crate::operator::{Infix, Prefix};
use crate::whole::number;
use dg_bytes::Bytes;
use dg_lists::{WordFault, split_list};
use itoa::Buffer;
use std::alloc::{AllocError, Global};
use std::cmp::Ordering;

/// The text of a number, in decimal.
///
/// # Errors
/// `AllocError` where a growth is refused.
pub fn decimal(alloc: Global, value: i64) -> Result<Bytes, AllocError>
    ensures { IfOk result (λ t. t ≡ decimal_text value) }
{
    Bytes::from_slice(alloc, Buffer::new().format(value).as_bytes())
}

/// The text of a number, if 64 bits hold it.
fn number_value(alloc: Global, value: i128) -> Result<Bytes, ExprFault>
    ensures { HasValue (number_value value) result }
{
    match i64::try_from(value) {
        Ok(value) => Ok(decimal(alloc, value)?),
        Err(_) => Err(ExprFault::TooLarge),
    }
}

fn truth_value(alloc: Global, truth: bool) -> Result<Bytes, ExprFault>
    ensures { HasValue (truth_value truth) result }
{
    Ok(Bytes::from_slice(alloc, truth_text(truth))?)
}

/// Two whole numbers, or the side of the first operand that is none.
fn wholes(left: &[u8], right: &[u8]) -> Result<(i64, i64), ExprFault>
    ensures { MatchResult result (λ p. (number_of left.now ≡ Some p.0) × (number_of right.now ≡ Some p.1)) (IsNotWhole (number_of left.now) (number_of right.now)) }
{
    let Some(x) = number(left) else {
        return Err(ExprFault::NotWhole(Side::Left));
    };
    let Some(y) = number(right) else {
        return Err(ExprFault::NotWhole(Side::Right));
    };
    Ok((x, y))
}

/// The product of two numbers of 64 bits.
fn times(x: i64, y: i64) -> i128
    ensures { result ≡ x *ℤ y }
{
    i128::from(x) * i128::from(y)
}

#[tactic(auto, using(crate::proofs::Wholes::wholes))]
fn product(alloc: Global, left: &[u8], right: &[u8]) -> Result<Bytes, ExprFault>
    ensures { HasValue (of_wholes (λ x y. number_value (x *ℤ y)) left.now right.now) result }
{
    let (x, y) = wholes(left, right)?;
    number_value(alloc, times(x, y))
}

#[tactic(auto, using(crate::proofs::Wholes::wholes))]
fn sum(alloc: Global, left: &[u8], right: &[u8]) -> Result<Bytes, ExprFault>
    ensures { HasValue (of_wholes (λ x y. number_value (x +ℤ y)) left.now right.now) result }
{
    let (x, y) = wholes(left, right)?;
    number_value(alloc, i128::from(x) + i128::from(y))
}

#[tactic(auto, using(crate::proofs::Wholes::wholes))]
fn difference(alloc: Global, left: &[u8], right: &[u8]) -> Result<Bytes, ExprFault>
    ensures { HasValue (of_wholes (λ x y. number_value (x -ℤ y)) left.now right.now) result }
{
    let (x, y) = wholes(left, right)?;
    number_value(alloc, i128::from(x) - i128::from(y))
}

/// The quotient rounded down.
fn quotient(x: i64, y: i64) -> i128
    requires { y ≢ pos 0 }
    ensures { result ≡ quotient x y }
{
    if y > 0 {
        i128::from(x.div_euclid(y))
    } else {
        let (x, y) = (i128::from(x), i128::from(y));
        (-x).div_euclid(-y)
    }
}

/// The remainder, which has the divisor's sign.
fn remainder(x: i64, y: i64) -> i128
    requires { y ≢ pos 0 }
    ensures { result ≡ remainder x y }
{
    if y > 0 {
        i128::from(x.rem_euclid(y))
    } else {
        let (x, y) = (i128::from(x), i128::from(y));
        -(-x).rem_euclid(-y)
    }
}

#[tactic(auto, using(crate::proofs::Wholes::wholes))]
fn ratio(alloc: Global, left: &[u8], right: &[u8]) -> Result<Bytes, ExprFault>
    ensures { HasValue (of_wholes (divided quotient) left.now right.now) result }
{
    let (x, y) = wholes(left, right)?;
    if y == 0 {
        return Err(ExprFault::DivideByZero);
    }
    number_value(alloc, quotient(x, y))
}

#[tactic(auto, using(crate::proofs::Wholes::wholes))]
fn residue(alloc: Global, left: &[u8], right: &[u8]) -> Result<Bytes, ExprFault>
    ensures { HasValue (of_wholes (divided remainder) left.now right.now) result }
{
    let (x, y) = wholes(left, right)?;
    if y == 0 {
        return Err(ExprFault::DivideByZero);
    }
    number_value(alloc, remainder(x, y))
}

/// The number times 2 to the power of the count.
#[tactic(auto, using(crate::proofs::Shifts::shifts))]
fn shifted_left(x: i64, count: i64) -> Result<i128, ExprFault>
    ensures { Computes (shifted_left x count) result }
{
    if count < 0 {
        Err(ExprFault::NegativeShift)
    } else if x == 0 {
        Ok(0)
    } else if count < 64 {
        Ok(i128::from(x) * i128::from(1u64 << count))
    } else {
        Err(ExprFault::TooLarge)
    }
}

/// The number divided by 2 to the power of the count, rounded down.
#[tactic(auto, using(crate::proofs::Shifts::shifts))]
fn shifted_right(x: i64, count: i64) -> Result<i128, ExprFault>
    ensures { Computes (shifted_right x count) result }
{
    if count < 0 {
        Err(ExprFault::NegativeShift)
    } else if count < 64 {
        Ok(i128::from(x >> count))
    } else if x < 0 {
        Ok(-1)
    } else {
        Ok(0)
    }
}

#[tactic(auto, using(crate::proofs::Wholes::wholes))]
fn shift_left(alloc: Global, left: &[u8], right: &[u8]) -> Result<Bytes, ExprFault>
    ensures { HasValue (of_wholes shifted_left left.now right.now) result }
{
    let (x, count) = wholes(left, right)?;
    number_value(alloc, shifted_left(x, count)?)
}

#[tactic(auto, using(crate::proofs::Wholes::wholes))]
fn shift_right(alloc: Global, left: &[u8], right: &[u8]) -> Result<Bytes, ExprFault>
    ensures { HasValue (of_wholes shifted_right left.now right.now) result }
{
    let (x, count) = wholes(left, right)?;
    number_value(alloc, shifted_right(x, count)?)
}

#[tactic(auto, using(crate::proofs::Wholes::wholes))]
fn bit_and(alloc: Global, left: &[u8], right: &[u8]) -> Result<Bytes, ExprFault>
    ensures { HasValue (of_wholes (λ x y. number_value (int_bit_and w64 x y)) left.now right.now) result }
{
    let (x, y) = wholes(left, right)?;
    number_value(alloc, i128::from(x & y))
}

#[tactic(auto, using(crate::proofs::Wholes::wholes))]
fn bit_xor(alloc: Global, left: &[u8], right: &[u8]) -> Result<Bytes, ExprFault>
    ensures { HasValue (of_wholes (λ x y. number_value (int_bit_xor w64 x y)) left.now right.now) result }
{
    let (x, y) = wholes(left, right)?;
    number_value(alloc, i128::from(x ^ y))
}

#[tactic(auto, using(crate::proofs::Wholes::wholes))]
fn bit_or(alloc: Global, left: &[u8], right: &[u8]) -> Result<Bytes, ExprFault>
    ensures { HasValue (of_wholes (λ x y. number_value (int_bit_or w64 x y)) left.now right.now) result }
{
    let (x, y) = wholes(left, right)?;
    number_value(alloc, i128::from(x | y))
}

/// Of numbers where both are, else of bytes in order.
fn order(left: &[u8], right: &[u8]) -> Ordering
    ensures { result ≡ order_of left.now right.now }
{
    if let Some(x) = number(left)
        && let Some(y) = number(right)
    {
        return x.cmp(&y);
    }
    left.cmp(right)
}

/// Whether one of some texts is this one.
fn has(texts: &[Bytes], text: &[u8]) -> bool
    ensures { result ≡ list_any (λ x. same_bytes x text.now) texts.now }
{
    texts.iter().any(|one| one.as_slice() == text)
}

/// Whether an element of a list is equal to a text.
fn is_element(alloc: Global, text: &[u8], list: &[u8]) -> Result<bool, ExprFault>
    ensures { MatchResult result (λ b. (f : Bool → Bool) → found_in (elements_of list.now) text.now f ≡ truth_value (f b)) (λ e. (e ≡ ExprFault.Memory) ⊎ ((f : Bool → Bool) → found_in (elements_of list.now) text.now f ≡ Err e)) }
{
    match split_list(alloc, list) {
        Ok(elements) => Ok(has(elements.as_slice(), text)),
        Err(WordFault::Memory) => Err(ExprFault::Memory),
        Err(fault) => Err(ExprFault::BadList(fault)),
    }
}

/// Whether an element of a list is equal to a text, as a value.
fn contained(alloc: Global, text: &[u8], list: &[u8]) -> Result<Bytes, ExprFault>
    ensures { HasValue (found_in (elements_of list.now) text.now (λ t. t)) result }
{
    truth_value(alloc, is_element(alloc, text, list)?)
}

/// Whether no element of a list is equal to a text, as a value.
fn missing(alloc: Global, text: &[u8], list: &[u8]) -> Result<Bytes, ExprFault>
    ensures { HasValue (found_in (elements_of list.now) text.now not) result }
{
    truth_value(alloc, !is_element(alloc, text, list)?)
}

/// The truth of both: the right is looked at where the left is true.
fn both(alloc: Global, left: &[u8], right: &[u8]) -> Result<Bytes, ExprFault>
    ensures { HasValue (and_then (truth_of left.now) (truth_of right.now)) result }
{
    if !truth(left)? {
        return truth_value(alloc, false);
    }
    truth_value(alloc, truth(right)?)
}

/// The truth of either: the right is looked at where the left is false.
fn either(alloc: Global, left: &[u8], right: &[u8]) -> Result<Bytes, ExprFault>
    ensures { HasValue (or_else (truth_of left.now) (truth_of right.now)) result }
{
    if truth(left)? {
        return truth_value(alloc, true);
    }
    truth_value(alloc, truth(right)?)
}

/// The value of an operator between two texts, by expr(n) on whole numbers of 64 bits. A value that is a
/// number is written in decimal, and truth as `1` or `0`.
///
/// # Errors
/// Of whole numbers first `NotWhole` of the left or the right operand, then `NegativeShift` or
/// `DivideByZero`, then `TooLarge`; of truth `NotTruth` of an operand that is looked at; of a list
/// `BadList`. `Memory` where a growth is refused.
#[tactic(auto, unfolding(crate::specs::Operator::value_of))]
pub fn apply(alloc: Global, op: Infix, left: &[u8], right: &[u8]) -> Result<Bytes, ExprFault>
    ensures { MatchResult result (λ v. value_of op left.now right.now ≡ Ok v) (λ f. (f ≡ ExprFault.Memory) ⊎ (value_of op left.now right.now ≡ Err f)) }
{
    match op {
        Infix::Times => product(alloc, left, right),
        Infix::Over => ratio(alloc, left, right),
        Infix::Remainder => residue(alloc, left, right),
        Infix::Plus => sum(alloc, left, right),
        Infix::Minus => difference(alloc, left, right),
        Infix::ShiftLeft => shift_left(alloc, left, right),
        Infix::ShiftRight => shift_right(alloc, left, right),
        Infix::Less => truth_value(alloc, order(left, right).is_lt()),
        Infix::Greater => truth_value(alloc, order(left, right).is_gt()),
        Infix::LessOrEqual => truth_value(alloc, !order(left, right).is_gt()),
        Infix::GreaterOrEqual => truth_value(alloc, !order(left, right).is_lt()),
        Infix::Equal => truth_value(alloc, order(left, right).is_eq()),
        Infix::NotEqual => truth_value(alloc, !order(left, right).is_eq()),
        Infix::SameText => truth_value(alloc, left == right),
        Infix::OtherText => truth_value(alloc, !(left == right)),
        Infix::In => contained(alloc, left, right),
        Infix::NotIn => missing(alloc, left, right),
        Infix::BitAnd => bit_and(alloc, left, right),
        Infix::BitXor => bit_xor(alloc, left, right),
        Infix::BitOr => bit_or(alloc, left, right),
        Infix::And => both(alloc, left, right),
        Infix::Or => either(alloc, left, right),
    }
}

/// A whole number, or the fault of an operand that is none.
fn whole(operand: &[u8]) -> Result<i64, ExprFault>
    ensures { MatchResult result (λ x. number_of operand.now ≡ Some x) (λ f. (number_of operand.now ≡ None) × (f ≡ ExprFault.NotWhole Side.Left)) }
{
    number(operand).ok_or(ExprFault::NotWhole(Side::Left))
}

/// The value of an operator before a text, as `apply` gives it of two.
///
/// # Errors
/// `NotWhole` of the left, `TooLarge`, `NotTruth`, or `Memory`.
#[tactic(auto, unfolding(crate::specs::Operator::value_of_one))]
pub fn apply_one(alloc: Global, op: Prefix, operand: &[u8]) -> Result<Bytes, ExprFault>
    ensures { MatchResult result (λ v. value_of_one op operand.now ≡ Ok v) (λ f. (f ≡ ExprFault.Memory) ⊎ (value_of_one op operand.now ≡ Err f)) }
{
    match op {
        Prefix::Negate => number_value(alloc, -i128::from(whole(operand)?)),
        Prefix::Keep => number_value(alloc, i128::from(whole(operand)?)),
        Prefix::Complement => number_value(alloc, i128::from(!whole(operand)?)),
        Prefix::Not => truth_value(alloc, !truth(operand)?),
    }
}
