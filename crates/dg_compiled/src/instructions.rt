//! The code of expressions, which is read once.
ghost use Rattle.std.specs.Prelude.{◌≡◌, List, length, map, IfOk, IfSome};
ghost use Rattle.std.specs.Bool.{OnTrue};
ghost use Rattle.std.specs.Arc.{arc_value};
ghost use Rattle.dg_expr.specs.Reading.{tree_in};
ghost use Rattle.dg_expr.specs.declared.code.Instruction.{Instruction as Step};
ghost use Rattle.dg_words.specs.Piece.{Piece};
ghost use Rattle.dg_language.specs.Expressions.{code_in};
ghost use Rattle.dg_compiled.specs.Instructions.{TakesAt, IsBetween, IsOperand, Takes};
ghost use Rattle.dg_compiled.specs.Steps.{operand_in};
ghost use Rattle.dg_compiled.specs.Wholes.{ComesToWhole};

use crate::script::KEPT;
use crate::steps::{kept_steps, queued};
use crate::texts::one_value;
use crate::wholes::whole_of;
use dg_bytes::{Bytes, Seq, TryCopy};
use dg_expr::{Infix, Instruction, Prefix};
use dg_forms::{code_of, operand_of};
use dg_language::{Queue, State, Substitution};
use dg_shelf::{Reading, Shelf};
use std::alloc::{AllocError, Global};
use std::marker::Model;
use std::sync::Arc;

/// The code of the expression that a text spells, if it spells one, and for each instruction the steps in which its operand
/// is made. A contract sees the code.
#[derive(Drop)]
pub struct Formula {
    code: Option<Seq<Instruction>>,
    steps: Seq<Seq<Substitution>>,
}

impl Model for Formula {
    ghost use Rattle.std.specs.Prelude.{◌≡◌, List, Option};
    ghost use Rattle.dg_expr.specs.declared.code.Instruction.{Instruction};
    ghost use Rattle.dg_compiled.specs.Steps.{operands_in};

    ghost Value = { Option (List Instruction) };

    ghost view = { λ f. f.code };

    ghost invariant = { λ f. f.steps ≡ operands_in f.code };
}

/// The steps in which the operand of an instruction is made, if it has one.
fn operand_in(alloc: Global, instruction: &Instruction) -> Result<Seq<Substitution>, AllocError>
    ensures { IfOk result (λ steps. steps ≡ operand_in instruction.now) }
{
    match instruction {
        Instruction::Push(parts) => kept_steps(alloc, operand_of(alloc, parts)?),
        _ => Ok(Seq::new(alloc)),
    }
}

/// The steps of each of these instructions.
fn operands_of(alloc: Global, code: &[Instruction]) -> Result<Seq<Seq<Substitution>>, AllocError>
    ensures { IfOk result (λ all. all ≡ map operand_in code.now) }
{
    let mut all = Seq::new(alloc);
    for instruction in code {
        all.push(operand_in(alloc, instruction)?)?;
    }
    Ok(all)
}

impl Reading for Formula {
    ghost read_of = { λ text. code_in (tree_in text) };

    fn read(alloc: Global, text: &[u8]) -> Result<Formula, AllocError> {
        let code = code_of(alloc, text)?;
        let steps = match &code {
            Some(code) => operands_of(alloc, code.as_slice())?,
            None => Seq::new(alloc),
        };
        Ok(Formula { code, steps })
    }
}

/// An expression that is computed again and again. Unless it is long its code is read once. A contract
/// sees the text.
#[derive(Drop)]
pub struct Condition {
    text: Bytes,
    formula: Option<Arc<Formula>>,
}

impl Model for Condition {
    ghost use Rattle.std.specs.Prelude.{ℕ, List};
    ghost use Rattle.dg_compiled.specs.Instructions.{IsCode};

    ghost Value = { List ℕ };

    ghost view = { λ c. c.text };

    ghost invariant = { λ c. IsCode c.text c.formula };
}

impl Condition {
    /// A text. `AllocError` if there is no room for it, or for its code.
    pub fn new(
        alloc: Global,
        formulas: &mut Shelf<Formula>,
        text: &Bytes,
    ) -> Result<Condition, AllocError>
        ensures { IfOk result (λ c. c ≡ text.now) }
    {
        let formula = if text.len() > KEPT {
            None
        } else {
            Some(formulas.reading(alloc, text)?)
        };
        Ok(Condition {
            text: text.copy(alloc)?,
            formula,
        })
    }

    /// The text.
    pub fn text(&self) -> &Bytes
        ensures { result.now ≡ self.now }
    {
        &self.text
    }

    /// The code of the expression.
    pub fn formula(
        &self,
        alloc: Global,
        formulas: &mut Shelf<Formula>,
    ) -> Result<Arc<Formula>, AllocError>
        ensures { IfOk result (λ f. arc_value f ≡ code_in (tree_in self.now)) }
    {
        match &self.formula {
            Some(formula) => Ok(Arc::try_clone(formula)?),
            None => formulas.reading(alloc, &self.text),
        }
    }
}

/// An instruction that is taken; where it puts an operand on the stack its value, or else the steps in which that is made.
#[derive(Drop)]
pub enum Taken {
    Value(Bytes),
    Operand(Queue<Substitution>),
    One(Prefix),
    Two(Infix),
    And(usize),
    Or(usize),
    Truth,
    Unless(usize),
    Skip(usize),
}

/// The instructions of an expression, and the place up to which they were taken. A contract sees those that are left.
#[derive(Drop)]
pub struct Instructions {
    formula: Arc<Formula>,
    at: usize,
}

impl Model for Instructions {
    ghost use Rattle.std.specs.Prelude.{List};
    ghost use Rattle.std.specs.Arc.{arc_value};
    ghost use Rattle.dg_expr.specs.declared.code.Instruction.{Instruction};
    ghost use Rattle.dg_compiled.specs.Instructions.{left_of};

    ghost Value = { List Instruction };

    ghost view = { λ i. left_of (arc_value i.formula) i.at };
}

/// How the operand that these steps make is taken.
fn take_operand(alloc: Global, state: &State, steps: &[Substitution]) -> Result<Taken, AllocError>
    ensures { IfOk result (IsOperand state.now steps.now) }
{
    match one_value(state, steps) {
        Some(value) => Ok(Taken::Value(value.copy(alloc)?)),
        None => Ok(Taken::Operand(queued(alloc, steps)?)),
    }
}

/// Whether an instruction puts an operand on the stack.
fn pushes(instruction: &Instruction) -> bool
    ensures { OnTrue result ((pieces : List Piece) × (instruction.now ≡ Step.Push pieces)) }
{
    matches!(instruction, Instruction::Push(_))
}

/// The operator between two operands that an instruction applies, if it does.
fn operator_in(instruction: &Instruction) -> Option<Infix>
    ensures { IfSome result (λ op. instruction.now ≡ Step.Apply op) }
{
    match instruction {
        Instruction::Apply(op) => Some(*op),
        _ => None,
    }
}

/// The operands and the operator, where these instructions are one operator between two operands that are values by themselves.
fn between<'a>(
    state: &'a State,
    code: &'a [Instruction],
    steps: &'a [Seq<Substitution>],
) -> Option<(&'a Bytes, Infix, &'a Bytes)>
    requires { steps.now ≡ map operand_in code.now }
    ensures { IfSome result (λ r. IsBetween state.now code.now r.0.now r.1 r.2.now) }
{
    if code.len() != 3 || !pushes(&code[0]) || !pushes(&code[1]) {
        return None;
    }
    let Some(op) = operator_in(&code[2]) else {
        return None;
    };
    let Some(left) = one_value(state, steps[0].as_slice()) else {
        return None;
    };
    let Some(right) = one_value(state, steps[1].as_slice()) else {
        return None;
    };
    Some((left, op, right))
}

/// The instruction at a place, if there is one.
fn take_at(
    alloc: Global,
    state: &State,
    code: &[Instruction],
    steps: &[Seq<Substitution>],
    at: usize,
) -> Result<Option<Taken>, AllocError>
    requires { steps.now ≡ map operand_in code.now }
    ensures { IfOk result (TakesAt state.now code.now at) }
{
    if at >= code.len() {
        return Ok(None);
    }
    Ok(Some(match &code[at] {
        Instruction::Push(_) => take_operand(alloc, state, steps[at].as_slice())?,
        Instruction::ApplyOne(op) => Taken::One(*op),
        Instruction::Apply(op) => Taken::Two(*op),
        Instruction::And(passed) => Taken::And(*passed),
        Instruction::Or(passed) => Taken::Or(*passed),
        Instruction::Truth => Taken::Truth,
        Instruction::Unless(passed) => Taken::Unless(*passed),
        Instruction::Skip(passed) => Taken::Skip(*passed),
    }))
}

impl Instructions {
    /// All instructions of an expression, if its text spells one.
    pub fn of(formula: Arc<Formula>) -> Option<Instructions>
        ensures { result ≡ arc_value formula }
    {
        if formula.code.is_none() {
            return None;
        }
        Some(Instructions { formula, at: 0 })
    }

    /// How many instructions are left.
    pub fn len(&self) -> usize
        ensures { result ≡ length self.now }
    {
        match &self.formula.code {
            Some(code) => code.len().saturating_sub(self.at),
            None => 0,
        }
    }

    /// The operands and the operator, where one operator between two operands that are values by themselves is all there is.
    pub fn between<'a>(&'a self, state: &'a State) -> Option<(&'a Bytes, Infix, &'a Bytes)>
        ensures { IfSome result (λ r. IsBetween state.now self.now r.0.now r.1 r.2.now) }
    {
        match &self.formula.code {
            Some(code) if self.at == 0 => {
                between(state, code.as_slice(), self.formula.steps.as_slice())
            }
            _ => None,
        }
    }

    /// The number that all instructions come to, where whole numbers are all that they need.
    pub(crate) fn whole(&self, state: &State) -> Option<i64>
        ensures { IfSome result (ComesToWhole state.now self.now) }
    {
        match &self.formula.code {
            Some(code) if self.at == 0 => {
                whole_of(state, code.as_slice(), self.formula.steps.as_slice())
            }
            _ => None,
        }
    }

    /// Takes the next instruction.
    pub fn next(&mut self, alloc: Global, state: &State) -> Result<Option<Taken>, AllocError>
        ensures { IfOk result (Takes state.now self.old self.new) }
    {
        let Some(code) = &self.formula.code else {
            return Ok(None);
        };
        let taken = take_at(
            alloc,
            state,
            code.as_slice(),
            self.formula.steps.as_slice(),
            self.at,
        )?;
        if taken.is_some() {
            self.at += 1;
        }
        Ok(taken)
    }
}
