//! The reading of expressions.
ghost use Rattle.std.specs.Prelude.{◌≡◌, ◌≤◌, ◌⊎◌, ℕ, List, IfOk, IfErr, MatchResult, None, Some, drop, length};
ghost use Rattle.dg_expr.specs.Grammar.{Spells, SpellsNone};
ghost use Rattle.dg_expr.specs.Reading.{tree_in};
ghost use Rattle.dg_expr.specs.Steps.{Advances, Finds};
ghost use Rattle.dg_expr.specs.Tree.{Tree as Spelled, height};

use crate::fault::ExprFault;
use crate::frame::Frames;
use crate::lexer::first_lexeme;
use crate::tree::Tree;
use std::alloc::Global;

/// Reads the first lexeme of a text: the tree behind it, and how many bytes it takes.
#[tactic(auto, using(crate::proofs::Tokens::reads))]
fn advance(
    alloc: Global,
    frames: &mut Frames,
    tree: Option<Tree>,
    text: &[u8],
) -> Result<(Option<Tree>, usize), ExprFault>
    requires { 1 ≤ length text.now }
    ensures { Advances text.now frames.old tree frames.new result }
{
    let lexeme = first_lexeme(alloc, text)?;
    let tree = frames.pass(alloc, tree, lexeme.token)?;
    Ok((tree, lexeme.length))
}

/// The text behind so many bytes.
fn behind(text: &[u8], count: usize) -> &[u8]
    requires { count ≤ length text.now }
    ensures { result.now ≡ drop count text.now }
{
    &text[count..]
}

/// The tree that reading gives.
#[tactic(auto, unfolding(crate::specs::Reading::tree_in, crate::specs::Reading::read, crate::specs::Token::tokens_behind))]
fn read_tree(alloc: Global, text: &[u8]) -> Result<Tree, ExprFault>
    ensures { Finds (tree_in text.now) result }
{
    let mut frames = Frames::new(alloc);
    let mut tree = None;
    let mut rest = text;
    while !rest.is_empty() {
        let (next, length) = advance(alloc, &mut frames, tree, rest)?;
        tree = next;
        rest = behind(rest, length);
    }
    frames.finish(alloc, tree)
}

/// Reads an expression by expr(n): the tree that the text spells. The operators are those of `Infix` and
/// `Prefix`, and `?:`; operands are what begins with `$` or `[`, quoted and braced words, parentheses,
/// words of truth, and runs of letters, digits, `.` and `_` that begin with a digit.
///
/// # Errors
/// `Syntax` where the text spells no tree of at most 200 levels, or `Memory` where a growth is refused.
#[tactic(auto, using(crate::proofs::Spelling::spelled_tree))]
pub fn read_expr(alloc: Global, text: &[u8]) -> Result<Tree, ExprFault>
    ensures spelled { IfOk result (λ tree. Spells text.now tree) }
    ensures only { IfOk result (λ tree. (other : Spelled) → Spells text.now other → height other ≤ 200 → other ≡ tree) }
    ensures syntax { IfErr result (λ f. (f ≡ ExprFault.Memory) ⊎ ((f ≡ ExprFault.Syntax) × SpellsNone text.now)) }
    ensures reading { MatchResult result (λ tree. tree_in text.now ≡ Some tree) (λ f. (f ≡ ExprFault.Memory) ⊎ ((f ≡ ExprFault.Syntax) × (tree_in text.now ≡ None))) }
{
    match read_tree(alloc, text) {
        Ok(tree) => Ok(tree),
        Err(fault) => Err(fault),
    }
}

/// A law: reading gives a tree exactly where the text spells it and it has at most 200 levels. So a text
/// spells at most one such tree.
pub fn one_tree()
    ensures read_is_spelled { (text : List ℕ) (tree : Spelled) → tree_in text ≡ Some tree → Spells text tree × (height tree ≤ 200) }
    ensures spelled_is_read { (text : List ℕ) (tree : Spelled) → Spells text tree → height tree ≤ 200 → tree_in text ≡ Some tree }
{}
