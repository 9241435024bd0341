//! Expressions of whole numbers, computed without texts for the numbers in between.
ghost use Rattle.std.specs.Prelude.{◌≡◌, ◌∷◌, [], List, IfSome, map};
ghost use Rattle.dg_expr.specs.declared.code.Instruction.{Instruction as Step};
ghost use Rattle.dg_words.specs.Piece.{Piece};
ghost use Rattle.dg_language.specs.WordSteps.{operand_steps};
ghost use Rattle.dg_language.specs.State.{State};
ghost use Rattle.dg_compiled.specs.Steps.{operand_in};
ghost use Rattle.dg_compiled.specs.Wholes.{Advances, Combines, ComesToWhole, MakesWhole};

use crate::texts::one_value;
use arrayvec::ArrayVec;
use dg_bytes::Seq;
use dg_expr::{Infix, Instruction, apply_whole, number};
use dg_language::{State, Substitution};
use std::marker::Model;

/// The most numbers that may wait for their operators.
const MOST_WAITING: usize = 8;

/// Numbers that wait for their operators. A contract sees the last first.
#[derive(Drop)]
struct Waiting {
    numbers: ArrayVec<i64, MOST_WAITING>,
}

impl Model for Waiting {
    ghost use Rattle.std.specs.Prelude.{ℤ, List, reverse};

    ghost Value = { List ℤ };

    ghost view = { λ w. reverse w.numbers.items };
}

impl Waiting {
    /// None.
    fn new() -> Waiting
        ensures { result ≡ [] }
    {
        Waiting {
            numbers: ArrayVec::new(),
        }
    }

    /// Puts a number on top, if there is room.
    fn put(&mut self, number: i64) -> Option<()>
        ensures { IfSome result (λ _. self.new ≡ number ∷ self.old) }
    {
        self.numbers.try_push(number).ok()
    }

    /// Takes the number on top.
    fn take(&mut self) -> Option<i64>
        ensures { IfSome result (λ n. self.old ≡ n ∷ self.new) }
    {
        self.numbers.pop()
    }

    /// Takes the two numbers on top, and gives the result of an operator on them, where it is a number.
    fn combined(&mut self, op: Infix) -> Option<i64>
        ensures { IfSome result (Combines op self.old self.new) }
    {
        let right = self.take()?;
        let left = self.take()?;
        apply_whole(op, left, right)
    }
}

/// The number of an operand that is one by itself.
fn whole_operand(state: &State, steps: &[Substitution]) -> Option<i64>
    ensures { IfSome result (MakesWhole state.now steps.now) }
{
    let value = one_value(state, steps)?;
    number(value.as_slice())
}

/// Puts the number of an operand on top, if it is one by itself and there is room.
#[tactic(auto, using(crate::proofs::WholeLemmas::pushed))]
fn push_operand(state: &State, steps: &[Substitution], waiting: &mut Waiting) -> Option<()>
    ensures { IfSome result (λ _. (pieces : List Piece) → steps.now ≡ operand_steps pieces → Advances state.now
        (Step.Push pieces) waiting.old waiting.new) }
{
    let number = whole_operand(state, steps)?;
    waiting.put(number)?;
    Some(())
}

/// Puts the result of an operator in the place of the two numbers on top, if it is a number.
#[tactic(auto, using(crate::proofs::WholeLemmas::applied))]
fn apply_operator(op: Infix, waiting: &mut Waiting) -> Option<()>
    ensures { IfSome result (λ _. (s : State) → Advances s (Step.Apply op) waiting.old waiting.new) }
{
    let number = waiting.combined(op)?;
    waiting.put(number)?;
    Some(())
}

/// Does an instruction whose operand is made in these steps, if it puts a number on top or takes two for one.
fn advance(
    state: &State,
    instruction: &Instruction,
    steps: &[Substitution],
    waiting: &mut Waiting,
) -> Option<()>
    requires { steps.now ≡ operand_in instruction.now }
    ensures { IfSome result (λ _. Advances state.now instruction.now waiting.old waiting.new) }
{
    match instruction {
        Instruction::Push(_) => {
            push_operand(state, steps, waiting)?;
            Some(())
        }
        Instruction::Apply(op) => {
            apply_operator(*op, waiting)?;
            Some(())
        }
        _ => None,
    }
}

/// The number that an expression comes to, where all its operands are whole numbers by themselves and its last operator gives a
/// whole number.
pub(crate) fn whole_of(
    state: &State,
    code: &[Instruction],
    steps: &[Seq<Substitution>],
) -> Option<i64>
    requires { steps.now ≡ map operand_in code.now }
    ensures { IfSome result (ComesToWhole state.now code.now) }
{
    let (last, others) = code.split_last()?;
    let Instruction::Apply(op) = last else {
        return None;
    };
    let mut waiting = Waiting::new();
    'instructions: for at in 0..others.len() {
        advance(state, &others[at], steps[at].as_slice(), &mut waiting)?;
    }
    waiting.combined(*op)
}
