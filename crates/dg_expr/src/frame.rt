//! The open items while an expression is read.
ghost use Rattle.std.specs.Prelude.{◌≡◌, ◌∷◌, [], List, IsTrue, IsFalse, MatchOption, OnOk, None, Some};
ghost use Rattle.dg_expr.specs.Grammar.{level_of};
ghost use Rattle.dg_expr.specs.declared.frame.Frame.{Frame};
ghost use Rattle.dg_expr.specs.Reading.{at_operand, at_operator, branch_ends, condition_taken, finish, joined, opened, paren_closed, parens_end, pass, reduce, step, takes};
ghost use Rattle.dg_expr.specs.Steps.{Finds, Leads, Makes};

use crate::fault::ExprFault;
use crate::operator::{Infix, Prefix};
use crate::token::Token;
use crate::tree::Tree;
use std::alloc::{AllocError, Global};
use std::marker::Model;

/// An operator that waits for the tree behind it, parentheses, a condition whose first branch comes, or
/// one whose second comes.
#[derive(Drop)]
pub enum Frame {
    Prefix(Prefix),
    Infix(Infix, Tree),
    Paren,
    Condition(Tree),
    Branch(Tree, Tree),
}

/// The open items. A contract sees the innermost first.
#[derive(Drop)]
pub struct Frames {
    inner: Vec<Frame>,
}

impl Model for Frames {
    ghost use Rattle.std.specs.Prelude.{List, reverse};
    ghost use Rattle.dg_expr.specs.declared.frame.Frame.{Frame};
    ghost use Rattle.std.specs.Coded.{codes};
    ghost use Rattle.dg_expr.specs.contracts.frame.Frame as frames;

    ghost Value = { List Frame };

    ghost coded = { Prim.hlevel (codes, frames.the_row.coded) };

    ghost view = { λ f. reverse f.inner.items };
}

impl Frame {
    /// Whether it is an open parenthesis.
    fn is_paren(&self) -> bool
        ensures paren { IsTrue result → self.now ≡ Frame.Paren }
        ensures other { IsFalse result → (frames : List Frame) → paren_closed (self.now ∷ frames) ≡ None }
    {
        match self {
            Frame::Paren => true,
            Frame::Prefix(_) => false,
            Frame::Infix(_, _) => false,
            Frame::Condition(_) => false,
            Frame::Branch(_, _) => false,
        }
    }

    /// Whether it takes a tree that an operator of this level follows.
    fn takes(&self, level: u8) -> bool
        ensures { result ≡ takes level self.now }
    {
        match self {
            Frame::Prefix(_) => true,
            Frame::Infix(op, _) => level <= op.level(),
            Frame::Paren | Frame::Condition(_) => false,
            Frame::Branch(_, _) => level == 0,
        }
    }

    /// The tree that it makes of one.
    fn join(self, alloc: Global, tree: Tree) -> Result<Tree, ExprFault>
        ensures { Makes (joined self tree) result }
    {
        // The call shows the proof that the tree has so many levels.
        let _levels = tree.levels();
        match self {
            Frame::Prefix(op) => Tree::one(alloc, op, tree),
            Frame::Infix(op, left) => Tree::two(alloc, op, left, tree),
            Frame::Paren => Ok(tree),
            Frame::Condition(_) => Ok(tree),
            Frame::Branch(condition, first) => Tree::choice(alloc, condition, first, tree),
        }
    }
}

impl Frames {
    pub fn new(alloc: Global) -> Frames
        ensures { result ≡ [] }
    {
        Frames {
            inner: Vec::new(alloc),
        }
    }

    fn push(&mut self, frame: Frame) -> Result<(), AllocError>
        ensures { OnOk result (self.new ≡ frame ∷ self.old) }
    {
        self.inner.push(frame)?;
        Ok(())
    }

    fn pop(&mut self) -> Option<Frame>
        ensures { MatchOption result ((self.old ≡ []) × (self.new ≡ [])) (λ f. self.old ≡ f ∷ self.new) }
    {
        self.inner.pop()
    }

    /// HasValue a tree to all that takes it where an operator of this level follows.
    #[tactic(auto, unfolding(crate::specs::Reading::reduce))]
    fn reduce(&mut self, alloc: Global, level: u8, tree: Tree) -> Result<Tree, ExprFault>
        ensures { Leads (reduce level self.old tree) self.new result }
    {
        let mut tree = tree;
        'frames: loop {
            let Some(frame) = self.pop() else {
                return Ok(tree);
            };
            if !frame.takes(level) {
                self.push(frame)?;
                return Ok(tree);
            }
            tree = frame.join(alloc, tree)?;
        }
    }

    /// Opens one more, behind which an operand must come.
    fn open(&mut self, frame: Frame) -> Result<Option<Tree>, ExprFault>
        ensures { Leads (Some (frame ∷ self.old, None)) self.new result }
    {
        self.push(frame)?;
        Ok(None)
    }

    /// A token where an operand must come: the tree of an operand, or none yet.
    fn at_operand(&mut self, alloc: Global, token: Token) -> Result<Option<Tree>, ExprFault>
        ensures { Leads (at_operand self.old token) self.new result }
    {
        match token {
            Token::Operand(parts) => Ok(Some(Tree::operand(alloc, parts)?)),
            Token::LeftParen => self.open(Frame::Paren),
            Token::Prefix(op) => self.open(Frame::Prefix(op)),
            Token::Plus => self.open(Frame::Prefix(Prefix::Keep)),
            Token::Minus => self.open(Frame::Prefix(Prefix::Negate)),
            Token::Infix(_) => Err(ExprFault::Syntax),
            Token::RightParen => Err(ExprFault::Syntax),
            Token::Question => Err(ExprFault::Syntax),
            Token::Colon => Err(ExprFault::Syntax),
        }
    }

    /// The innermost parentheses end.
    fn close_paren(&mut self) -> Result<(), ExprFault>
        ensures { Leads (paren_closed self.old) self.new result }
    {
        match self.pop() {
            Some(frame) if frame.is_paren() => Ok(()),
            _ => Err(ExprFault::Syntax),
        }
    }

    /// The condition that waits for its first branch.
    fn take_condition(&mut self) -> Result<Tree, ExprFault>
        ensures { Leads (condition_taken self.old) self.new result }
    {
        match self.pop() {
            Some(Frame::Condition(condition)) => Ok(condition),
            Some(Frame::Paren) => Err(ExprFault::Syntax),
            Some(Frame::Prefix(_)) => Err(ExprFault::Syntax),
            Some(Frame::Infix(_, _)) => Err(ExprFault::Syntax),
            Some(Frame::Branch(_, _)) => Err(ExprFault::Syntax),
            None => Err(ExprFault::Syntax),
        }
    }

    /// An operator comes behind a tree.
    fn open_infix(
        &mut self,
        alloc: Global,
        op: Infix,
        tree: Tree,
    ) -> Result<Option<Tree>, ExprFault>
        ensures { Leads (opened (Frame.Infix op) (reduce (level_of op) self.old tree)) self.new result }
    {
        let left = self.reduce(alloc, op.level(), tree)?;
        self.open(Frame::Infix(op, left))
    }

    /// A `?` comes behind a tree, the condition.
    fn open_condition(&mut self, alloc: Global, tree: Tree) -> Result<Option<Tree>, ExprFault>
        ensures { Leads (opened Frame.Condition (reduce 1 self.old tree)) self.new result }
    {
        let condition = self.reduce(alloc, 1, tree)?;
        self.open(Frame::Condition(condition))
    }

    /// A `:` comes behind a tree, the first branch.
    fn open_branch(&mut self, alloc: Global, tree: Tree) -> Result<Option<Tree>, ExprFault>
        ensures { Leads (branch_ends (reduce 0 self.old tree)) self.new result }
    {
        let first = self.reduce(alloc, 0, tree)?;
        let condition = self.take_condition()?;
        self.open(Frame::Branch(condition, first))
    }

    /// A closing parenthesis comes behind a tree, which stands within.
    fn end_paren(&mut self, alloc: Global, tree: Tree) -> Result<Option<Tree>, ExprFault>
        ensures { Leads (parens_end (reduce 0 self.old tree)) self.new result }
    {
        let inner = self.reduce(alloc, 0, tree)?;
        match self.close_paren() {
            Ok(()) => Ok(Some(inner)),
            Err(fault) => Err(fault),
        }
    }

    /// A token where an operator may come: the tree behind parentheses that end, or none yet.
    fn at_operator(
        &mut self,
        alloc: Global,
        tree: Tree,
        token: Token,
    ) -> Result<Option<Tree>, ExprFault>
        ensures { Leads (at_operator self.old tree token) self.new result }
    {
        match token {
            Token::Infix(op) => self.open_infix(alloc, op, tree),
            Token::Plus => self.open_infix(alloc, Infix::Plus, tree),
            Token::Minus => self.open_infix(alloc, Infix::Minus, tree),
            Token::Question => self.open_condition(alloc, tree),
            Token::Colon => self.open_branch(alloc, tree),
            Token::RightParen => self.end_paren(alloc, tree),
            Token::Operand(_) => Err(ExprFault::Syntax),
            Token::Prefix(_) => Err(ExprFault::Syntax),
            Token::LeftParen => Err(ExprFault::Syntax),
        }
    }

    /// One more token, behind a tree or where an operand must come.
    #[tactic(auto, unfolding(crate::specs::Reading::step))]
    fn step(
        &mut self,
        alloc: Global,
        tree: Option<Tree>,
        token: Token,
    ) -> Result<Option<Tree>, ExprFault>
        ensures { Leads (step self.old tree token) self.new result }
    {
        match tree {
            None => self.at_operand(alloc, token),
            Some(tree) => self.at_operator(alloc, tree, token),
        }
    }

    /// One more lexeme: a token, or none.
    pub fn pass(
        &mut self,
        alloc: Global,
        tree: Option<Tree>,
        token: Option<Token>,
    ) -> Result<Option<Tree>, ExprFault>
        ensures { Leads (pass self.old tree token) self.new result }
    {
        match token {
            None => Ok(tree),
            Some(token) => self.step(alloc, tree, token),
        }
    }

    /// The text ends: its tree, where nothing else is open.
    #[tactic(auto, unfolding(crate::specs::Reading::finish))]
    pub fn finish(mut self, alloc: Global, tree: Option<Tree>) -> Result<Tree, ExprFault>
        ensures { Finds (finish self tree) result }
    {
        let Some(tree) = tree else {
            return Err(ExprFault::Syntax);
        };
        let tree = self.reduce(alloc, 0, tree)?;
        if self.inner.is_empty() {
            Ok(tree)
        } else {
            Err(ExprFault::Syntax)
        }
    }
}
