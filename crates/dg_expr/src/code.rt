//! The flat code of a tree.
ghost use Rattle.std.specs.Prelude.{◌≡◌, ◌++◌, ◌∷◌, ◌+◌, [], ℕ, List, OnOk, IfOk, length};
ghost use Rattle.dg_expr.specs.Code.{Host, code_of, joining, right_code, run, value};
ghost use Rattle.dg_expr.specs.Tree.{Tree as Spelled};

use crate::operator::{Infix, Prefix};
use crate::tree::{Node, Tree};
use dg_bytes::Seq;
use dg_words::Parts;
use std::alloc::{AllocError, Global};

/// An instruction, which works on a stack of texts.
#[derive(Drop)]
pub enum Instruction {
    /// Puts the text of an operand on the stack, once its parts are substituted.
    Push(Parts),
    /// The value of an operator before the top takes its place.
    ApplyOne(Prefix),
    /// The value of an operator between the two on top takes their place, the left of which lies below.
    Apply(Infix),
    /// Takes the top away where it is true. Else `0` takes its place, and so many instructions are passed
    /// over.
    And(usize),
    /// Takes the top away where it is false. Else `1` takes its place, and so many instructions are passed
    /// over.
    Or(usize),
    /// `1` or `0`, the truth of the top, takes its place.
    Truth,
    /// Takes the top away, and passes over so many instructions where it is false.
    Unless(usize),
    /// Passes over so many instructions.
    Skip(usize),
}

/// How an operator uses its right operand.
#[derive(Clone, Copy)]
pub enum Joins {
    Always,
    WhereTrue,
    WhereFalse,
}

impl Infix {
    fn joins(self) -> Joins
        ensures { result ≡ joining self }
    {
        match self {
            Infix::And => Joins::WhereTrue,
            Infix::Or => Joins::WhereFalse,
            _ => Joins::Always,
        }
    }
}

/// Adds an instruction behind code.
fn add(code: &mut Seq<Instruction>, instruction: Instruction) -> Result<(), AllocError>
    ensures { OnOk result (code.new ≡ code.old ++ instruction ∷ []) }
{
    code.push(instruction)?;
    Ok(())
}

/// Adds code behind other code.
fn append(code: &mut Seq<Instruction>, more: Seq<Instruction>) -> Result<(), AllocError>
    ensures { OnOk result (code.new ≡ code.old ++ more) }
{
    for instruction in more.into_vec() {
        add(code, instruction)?;
    }
    Ok(())
}

/// Adds the code of a right operand and the operator.
fn add_applied(
    code: &mut Seq<Instruction>,
    op: Infix,
    right: Seq<Instruction>,
) -> Result<(), AllocError>
    ensures { OnOk result (code.new ≡ code.old ++ (right ++ Instruction.Apply op ∷ [])) }
{
    append(code, right)?;
    add(code, Instruction::Apply(op))
}

/// Adds the code of a right operand whose truth is the value, behind an instruction that may pass over it.
fn add_truth(
    code: &mut Seq<Instruction>,
    pass: Instruction,
    right: Seq<Instruction>,
) -> Result<(), AllocError>
    ensures { OnOk result (code.new ≡ code.old ++ (pass ∷ (right ++ Instruction.Truth ∷ []))) }
{
    add(code, pass)?;
    append(code, right)?;
    add(code, Instruction::Truth)
}

/// Adds the instructions after the code of the left operand.
fn add_right(
    code: &mut Seq<Instruction>,
    op: Infix,
    right: Seq<Instruction>,
) -> Result<(), AllocError>
    ensures { OnOk result (code.new ≡ code.old ++ right_code (joining op) op right) }
{
    let passed = right.len() + 1;
    match op.joins() {
        Joins::Always => add_applied(code, op, right),
        Joins::WhereTrue => add_truth(code, Instruction::And(passed), right),
        Joins::WhereFalse => add_truth(code, Instruction::Or(passed), right),
    }
}

/// Adds the instructions after the code of a condition: the code of both branches, of which one is passed over.
fn add_branches(
    code: &mut Seq<Instruction>,
    first: Seq<Instruction>,
    second: Seq<Instruction>,
) -> Result<(), AllocError>
    ensures { OnOk result (code.new ≡ code.old ++ (Instruction.Unless (length first + 1) ∷ (first ++ (Instruction.Skip (length second) ∷ second)))) }
{
    add(code, Instruction::Unless(first.len() + 1))?;
    append(code, first)?;
    add(code, Instruction::Skip(second.len()))?;
    append(code, second)
}

/// Adds the code of a tree.
#[tactic(auto, unfolding(crate::specs::Code::code_of))]
fn add_code(alloc: Global, tree: Tree, code: &mut Seq<Instruction>) -> Result<(), AllocError>
    ensures { OnOk result (code.new ≡ code.old ++ code_of tree) }
{
    match tree.into_node() {
        Node::Operand(parts) => add(code, Instruction::Push(parts)),
        Node::One(op, a) => {
            add_code(alloc, a, code)?;
            add(code, Instruction::ApplyOne(op))
        }
        Node::Two(op, a, b) => {
            let mut right = Seq::new(alloc);
            add_code(alloc, b, &mut right)?;
            add_code(alloc, a, code)?;
            add_right(code, op, right)
        }
        Node::Choice(condition, a, b) => {
            let mut first = Seq::new(alloc);
            add_code(alloc, a, &mut first)?;
            let mut second = Seq::new(alloc);
            add_code(alloc, b, &mut second)?;
            add_code(alloc, condition, code)?;
            add_branches(code, first, second)
        }
    }
}

/// The code of a tree. To run it is to give the tree its value (`code_runs`).
///
/// # Errors
/// `AllocError` where a growth is refused.
pub fn compile(alloc: Global, tree: Tree) -> Result<Seq<Instruction>, AllocError>
    ensures { IfOk result (λ code. code ≡ code_of tree) }
{
    let mut code = Seq::new(alloc);
    add_code(alloc, tree, &mut code)?;
    Ok(code)
}

/// A law: whatever substitutes operands, in states `S` and with answers `R`, code that begins with a tree's
/// goes on behind it with the tree's value on the stack, or ends as the tree's value does.
pub fn code_runs<S, R>()
    ensures { (host : Host S R) (tree : Spelled) (stack : List (List ℕ)) (more : List Instruction) (state : S) (then_do : List ℕ → S → R) → run host stack 0 (code_of tree ++ more) state then_do ≡ value host tree state (λ v after. run host (v ∷ stack) 0 more after then_do) }
{}
