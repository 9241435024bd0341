//! Operators between whole numbers, without their texts.
ghost use Rattle.std.specs.Prelude.{◌≡◌, ◌*ℤ◌, ◌+ℤ◌, ◌-ℤ◌, Ok, IfSome};
ghost use Rattle.dg_expr.specs.Arithmetic.{GivesWhole};
ghost use Rattle.dg_expr.specs.Number.{decimal_text};
ghost use Rattle.dg_expr.specs.Operator.{divided, number_value, quotient, remainder};
ghost use Rattle.dg_expr.specs.Truth.{truth_text};

use crate::operator::Infix;

/// Truth as a number.
fn truth_number(holds: bool) -> i64
    ensures { truth_text holds ≡ decimal_text result }
{
    if holds { 1 } else { 0 }
}

/// The product, if 64 bits hold it.
fn product(x: i64, y: i64) -> Option<i64>
    ensures { IfSome result (λ z. number_value (x *ℤ y) ≡ Ok (decimal_text z)) }
{
    x.checked_mul(y)
}

/// The sum, if 64 bits hold it.
fn sum(x: i64, y: i64) -> Option<i64>
    ensures { IfSome result (λ z. number_value (x +ℤ y) ≡ Ok (decimal_text z)) }
{
    x.checked_add(y)
}

/// The difference, if 64 bits hold it.
fn difference(x: i64, y: i64) -> Option<i64>
    ensures { IfSome result (λ z. number_value (x -ℤ y) ≡ Ok (decimal_text z)) }
{
    x.checked_sub(y)
}

/// The quotient by a divisor above 0.
fn ratio(x: i64, y: i64) -> Option<i64>
    ensures { IfSome result (λ z. divided quotient x y ≡ Ok (decimal_text z)) }
{
    if y <= 0 {
        return None;
    }
    Some(x.div_euclid(y))
}

/// The remainder of the division by a divisor above 0.
fn residue(x: i64, y: i64) -> Option<i64>
    ensures { IfSome result (λ z. divided remainder x y ≡ Ok (decimal_text z)) }
{
    if y <= 0 {
        return None;
    }
    Some(x.rem_euclid(y))
}

/// The number that an operator gives two whole numbers, by expr(n): truth is 1 or 0. None where it gives no number, or
/// would take more than one look at it: for shifts, for divisors that are not above 0, and for operators of texts, lists and truth.
#[tactic(auto, unfolding(crate::specs::Operator::value_of))]
pub fn apply_whole(op: Infix, x: i64, y: i64) -> Option<i64>
    ensures { IfSome result (GivesWhole op x y) }
{
    match op {
        Infix::Times => product(x, y),
        Infix::Plus => sum(x, y),
        Infix::Minus => difference(x, y),
        Infix::Over => ratio(x, y),
        Infix::Remainder => residue(x, y),
        Infix::Less => Some(truth_number(x < y)),
        Infix::Greater => Some(truth_number(x > y)),
        Infix::LessOrEqual => Some(truth_number(x <= y)),
        Infix::GreaterOrEqual => Some(truth_number(x >= y)),
        Infix::Equal => Some(truth_number(x == y)),
        Infix::NotEqual => Some(truth_number(x != y)),
        Infix::BitAnd => Some(x & y),
        Infix::BitXor => Some(x ^ y),
        Infix::BitOr => Some(x | y),
        _ => None,
    }
}
