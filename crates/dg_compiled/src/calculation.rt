//! An expression that is computed.
ghost use Rattle.std.specs.Prelude.{◌≡◌, ◌<◌, ◌^◌, [], length, IfSome, MatchOption, Some, None};
ghost use Rattle.std.specs.Arc.{arc_value};

use crate::instructions::{Formula, Instructions};
use crate::stack::Stack;
use dg_bytes::Bytes;
use std::alloc::Global;
use std::sync::Arc;

/// The code of an expression, on a stack of values.
#[derive(Drop)]
pub struct Calculation {
    pub values: Stack<Bytes>,
    /// How many of the instructions that are left are passed over.
    pub passed: usize,
    /// The instructions that are left.
    pub left: Instructions,
    pub depth: u32,
}

impl Calculation {
    /// An expression of which nothing is computed yet, if its text spells one.
    pub fn of(alloc: Global, formula: Arc<Formula>, depth: u32) -> Option<Calculation>
        ensures begun { MatchOption result (arc_value formula ≡ None) (λ c. (arc_value formula ≡ Some c.left) ×
            (c ≡ record { values = []; passed = 0; left = c.left; depth = depth })) }
        ensures counted { IfSome result (λ c. length c.left < 2 ^ 64) }
    {
        let left = Instructions::of(formula)?;
        // The call shows the proof that the length is a `usize`.
        let _count = left.len();
        Some(Calculation {
            values: Stack::new(alloc),
            passed: 0,
            left,
            depth,
        })
    }
}
