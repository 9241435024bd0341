//! Trees of expressions.
ghost use Rattle.std.specs.Prelude.{◌≡◌, ◌≤◌, ◌+◌, max};
ghost use Rattle.dg_expr.specs.Shape.{tree_of};
ghost use Rattle.dg_expr.specs.Steps.{Makes};
ghost use Rattle.dg_expr.specs.Tree.{height, Operand, One, Two, Choice};

use crate::fault::ExprFault;
use crate::operator::{Infix, Prefix};
use dg_words::Parts;
use std::alloc::Global;
use std::marker::Model;

/// The levels that a tree may have.
const MOST_LEVELS: usize = 200;

/// The top of a tree: an operand, an operator before a tree, an operator between two trees, or a
/// condition with the tree where it holds and the tree where it doesn't.
#[cycle(tree)]
#[derive(Drop)]
pub enum Node {
    Operand(Parts),
    One(Prefix, Tree),
    Two(Infix, Tree, Tree),
    Choice(Tree, Tree, Tree),
}

/// A tree of at most 200 levels. An operand is one level; parentheses are none.
#[cycle(tree)]
#[derive(Drop)]
pub struct Tree {
    levels: usize,
    node: Box<Node>,
}

impl Model for Tree {
    ghost use Rattle.std.specs.Prelude.{◌≡◌, ◌≤◌};
    ghost use Rattle.dg_expr.specs.Tree.{Tree, height};
    ghost use Rattle.std.specs.Coded.{codes};
    ghost use Rattle.dg_expr.specs.TreeCode.{tree_code};
    ghost use Rattle.dg_expr.specs.contracts.operator.Infix as infixes;
    ghost use Rattle.dg_expr.specs.contracts.operator.Prefix as prefixes;

    ghost Value = { Tree };

    ghost coded = { tree_code (Prim.hlevel (codes, infixes.the_row.coded, prefixes.the_row.coded)) };

    ghost use Rattle.dg_expr.specs.Shape.{tree_of};

    ghost view = { λ t. tree_of t.node.value };

    ghost invariant = { λ t. (t.levels ≡ height (tree_of t.node.value)) × (t.levels ≤ 200) };

    ghost size = { height };

    ghost use Rattle.dg_expr.specs.TreeFall.{deep_le-height};

    ghost size_decreases = { λ t h. deep_le-height t.node.value };
}

impl Tree {
    /// A tree of a node, whose levels these are, if they aren't too many.
    fn new(alloc: Global, levels: usize, node: Node) -> Result<Tree, ExprFault>
        requires { levels ≡ height (tree_of node) }
        ensures { Makes (tree_of node) result }
    {
        if levels > MOST_LEVELS {
            return Err(ExprFault::Syntax);
        }
        Ok(Tree {
            levels,
            node: Box::new(alloc, node)?,
        })
    }

    pub(crate) fn operand(alloc: Global, parts: Parts) -> Result<Tree, ExprFault>
        ensures { Makes (Operand parts) result }
    {
        Tree::new(alloc, 1, Node::Operand(parts))
    }

    pub(crate) fn one(alloc: Global, op: Prefix, a: Tree) -> Result<Tree, ExprFault>
        ensures { Makes (One op a) result }
    {
        let levels = a.levels() + 1;
        Tree::new(alloc, levels, Node::One(op, a))
    }

    pub(crate) fn two(alloc: Global, op: Infix, a: Tree, b: Tree) -> Result<Tree, ExprFault>
        ensures { Makes (Two op a b) result }
    {
        let levels = a.levels().max(b.levels()) + 1;
        Tree::new(alloc, levels, Node::Two(op, a, b))
    }

    pub(crate) fn choice(alloc: Global, c: Tree, a: Tree, b: Tree) -> Result<Tree, ExprFault>
        ensures { Makes (Choice c a b) result }
    {
        let levels = c.levels().max(a.levels().max(b.levels())) + 1;
        Tree::new(alloc, levels, Node::Choice(c, a, b))
    }

    /// How many levels there are.
    pub fn levels(&self) -> usize
        ensures levels { result ≡ height self.now }
        ensures few { result ≤ 200 }
    {
        self.levels
    }

    /// The top of the tree.
    pub fn node(&self) -> &Node
        ensures { tree_of result.now ≡ self.now }
    {
        &self.node
    }

    /// The top of the tree.
    pub fn into_node(self) -> Node
        ensures { tree_of result ≡ self }
    {
        let Tree { node, .. } = self;
        Box::into_inner(node)
    }
}
