//! Values that stand in a block of their own, so that what holds one is moved by moving a pointer.
ghost use Rattle.std.specs.Prelude.{◌≡◌, ◌-◌, ◌<◌, None, IfOk, OnOk};
ghost use Rattle.dg_machine.specs.declared.frame.LoopPart.{LoopPart as TheStage};
ghost use Rattle.dg_language.specs.Play.{lookup};
ghost use Rattle.dg_machine.specs.Meaning.{told, ComesTo};
ghost use Rattle.dg_machine.specs.Arriving.{ComesAlong};

use crate::answers::Answers;
use crate::frame::{LoopPart, Repetition, Stop};
use crate::machine::Machine;
use dg_world::{Answer, Question};
use std::alloc::{AllocError, Global};
use std::marker::Model;

/// A value in a block of its own. A contract sees the value.
#[derive(Drop)]
pub(crate) struct Boxed<T> {
    inner: Box<T>,
}

impl<T> Model for Boxed<T> {
    ghost use Rattle.std.specs.Prelude.{◌≡◌};

    ghost Value = { T };

    ghost view = { λ b. b.inner.value };
}

impl<T: Drop> Boxed<T> {
    /// A value in a new block.
    pub fn new(alloc: Global, value: T) -> Result<Boxed<T>, AllocError>
        ensures { IfOk result (λ b. b ≡ value) }
    {
        let inner = Box::new(alloc, value)?;
        Ok(Boxed { inner })
    }

    /// The value.
    pub fn get(&self) -> &T
        ensures { result.now ≡ self.now }
    {
        &self.inner
    }

    /// The value, without its block.
    pub fn into_inner(self) -> T
        ensures { result ≡ self }
    {
        Box::into_inner(self.inner)
    }
}

impl Boxed<Machine> {
    /// Moves until a question stands or all is over.
    pub fn run_on(&mut self, alloc: Global) -> Result<Stop, AllocError>
        ensures { IfOk result (ComesTo self.old self.new) }
    {
        self.inner.run_on(alloc)
    }

    /// Moves until a question stands that these don't answer, or all is over.
    pub fn run_along<A: Answers>(&mut self, alloc: Global, answers: &A) -> Result<Stop, AllocError>
        ensures { IfOk result (ComesAlong (A.source answers.now) A.holds self.old self.new) }
    {
        self.inner.run_along(alloc, answers)
    }

    /// Notes the answer to a question that had none.
    pub fn learn(&mut self, question: Question, answer: Answer) -> Result<(), AllocError>
        requires { lookup question self.old.state.known ≡ None }
        ensures { OnOk result (self.new ≡ told question answer self.old) }
    {
        self.inner.state.learn(question, answer)
    }
}

impl Boxed<Repetition> {
    /// This of the loop runs next.
    pub fn set_stage(&mut self, stage: LoopPart)
        ensures { self.new ≡ record self.old { stage = stage } }
    {
        self.inner.stage = stage;
    }

    /// A test runs next, and is counted.
    pub fn begin_test(&mut self)
        requires { 0 < self.old.left }
        ensures { self.new ≡ record self.old { stage = TheStage.Test; left = self.old.left - 1 } }
    {
        self.inner.stage = LoopPart::Test;
        self.inner.left -= 1;
    }
}
