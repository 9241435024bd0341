//! Why an expression has no tree or no value.
ghost use Rattle.std.specs.Prelude.{◌≡◌};
ghost use Rattle.dg_expr.specs.declared.fault.ExprFault.TheVariants.{Memory};

use dg_lists::WordFault;
use std::alloc::{AllocError, AllocFailed};
use thiserror::Error;

/// A side of an operator. An operator before its operand has it on the left.
#[derive(Clone, Copy, Debug, PartialEq, Eq)]
pub enum Side {
    Left,
    Right,
}

/// Why an expression is not read or has no value, by expr(n). Of two operands that aren't whole numbers
/// the left is named.
#[derive(Clone, Copy, Debug, PartialEq, Eq, Drop, Error)]
pub enum ExprFault {
    /// The text spells no tree of at most 200 levels.
    #[error("syntax error in expression")]
    Syntax,
    /// The operand on this side is no whole number of 64 bits.
    #[error("expected integer")]
    NotWhole(Side),
    /// The divisor is 0.
    #[error("divide by zero")]
    DivideByZero,
    /// The value doesn't fit 64 bits.
    #[error("integer value too large to represent")]
    TooLarge,
    /// An operand is neither true nor false.
    #[error("expected boolean value")]
    NotTruth,
    /// A growth was refused.
    #[error("out of memory")]
    Memory,
    /// A shift by a negative number.
    #[error("negative shift argument")]
    NegativeShift,
    /// The right operand of `in` or `ni` is no list.
    #[error("{0}")]
    BadList(WordFault),
}

impl From<AllocError> for ExprFault {
    ghost from_gives = { λ _ e. e ≡ Memory };

    fn from(_e: AllocError) -> ExprFault {
        ExprFault::Memory
    }
}

impl<T: Drop> From<AllocFailed<T>> for ExprFault {
    ghost from_gives = { λ _ e. e ≡ Memory };

    fn from(_e: AllocFailed<T>) -> ExprFault {
        ExprFault::Memory
    }
}
