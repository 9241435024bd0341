//! Evaluations, which stop at each question: the machine behind a door that is cheap to pass.
ghost use Rattle.std.specs.Prelude.{◌≡◌, true, IfOk};
ghost use Rattle.dg_world.specs.Question.{fits};
ghost use Rattle.dg_machine.specs.Arriving.{ComesAs, HasCome};

use crate::answers::Answers;
use crate::boxed::Boxed;
use crate::frame::{Closing, Frame, Opening, Stop};
use crate::machine::Machine;
use crate::readings::Readings;
use dg_bytes::Seq;
use dg_compiled::Stack;
use dg_language::{Ask, Close, State};
use dg_results::Verdict;
use dg_world::{Answer, Read, TestId};
use std::alloc::{AllocError, Global};
use std::marker::Model;

/// The judging of a test, between two questions. A contract sees its test, the answers so far and
/// the steps that were taken.
pub struct Evaluation {
    test: TestId,
    machine: Boxed<Machine>,
}

impl Model for Evaluation {
    ghost use Rattle.dg_language.specs.State.{taken};
    ghost use Rattle.dg_machine.specs.Evaluating.{EvaluationView, IsLeft};

    ghost Value = { EvaluationView };

    ghost view = { λ e. record { test = e.test; reads = e.machine.state.known; steps = taken e.machine.state } };

    ghost invariant = { λ e. IsLeft e.test e.machine };
}

/// Written by hand, and so one call for whoever lets an evaluation go.
impl Drop for Evaluation {
    fn drop(self) {
        let Evaluation {
            test: _,
            machine: _,
        } = self;
    }
}

/// The judging of a test, at a question that has no answer yet. A contract sees what is asked, and
/// what it sees of an evaluation.
pub struct Asking {
    test: TestId,
    ask: Boxed<Ask>,
    machine: Boxed<Machine>,
}

impl Model for Asking {
    ghost use Rattle.dg_language.specs.State.{taken};
    ghost use Rattle.dg_machine.specs.Evaluating.{AskingView, IsAsking};

    ghost Value = { AskingView };

    ghost view = { λ a. record { test = a.test; reads = a.machine.state.known; ask = a.ask; steps = taken a.machine.state } };

    ghost invariant = { λ a. IsAsking a.test a.ask a.machine };
}

/// Written by hand, and so one call for whoever lets it go.
impl Drop for Asking {
    fn drop(self) {
        let Asking {
            test: _,
            ask: _,
            machine: _,
        } = self;
    }
}

/// An evaluation that has ended.
#[derive(Drop)]
pub struct Ended {
    pub test: TestId,
    /// The questions that were answered, in order.
    pub reads: Seq<Read>,
    pub verdict: Verdict,
    pub close: Close,
    /// The steps that the board's file took.
    pub board_steps: u32,
    /// All steps that were taken.
    pub steps: u64,
    /// What was read of texts, for another evaluation.
    pub readings: Readings,
}

/// What an evaluation comes to by itself.
#[derive(Drop)]
pub enum Arrival {
    /// A question that has no answer yet.
    AtQuestion(Asking),
    /// All has ended.
    AtEnd(Ended),
    /// A pattern that was answered as read can't be built.
    Lost,
}

impl Evaluation {
    ghost use Rattle.dg_machine.specs.Evaluating.{begun};
    ghost use Rattle.dg_machine.specs.Arriving.{Arrives, ArrivesAlong};

    /// The judging of a test begins, with what other evaluations read of texts.
    pub fn start(alloc: Global, test: TestId, readings: Readings) -> Result<Evaluation, AllocError>
        ensures { IfOk result (λ e. e ≡ begun test) }
    {
        let shelves = readings.for_next(alloc)?;
        let mut stack = Stack::new(alloc);
        stack.push(Frame::Opening {
            what: Opening::Board,
        })?;
        let state = State::new(alloc, test.copy(alloc)?);
        let machine = Machine::new(state, stack, shelves);
        let machine = Boxed::new(alloc, machine)?;
        Ok(Evaluation { test, machine })
    }

    /// Goes on until a question stands or all is over.
    pub fn run_on(self, alloc: Global) -> Result<Arrival, AllocError>
        ensures { IfOk result (Arrives self) }
    {
        let Evaluation { test, mut machine } = self;
        let stop = machine.run_on(alloc)?;
        arrive(alloc, test, machine, stop)
    }

    /// Goes on until a question stands that these don't answer, or all is over. Each question before that is told their answer.
    pub fn run_along<A: Answers>(self, alloc: Global, answers: &A) -> Result<Arrival, AllocError>
        ensures { IfOk result (ArrivesAlong (A.source answers.now) A.holds self) }
    {
        let Evaluation { test, mut machine } = self;
        let stop = machine.run_along(alloc, answers)?;
        arrive(alloc, test, machine, stop)
    }
}

/// What the judging of a test has come to, whose machine has stopped.
fn arrive(
    alloc: Global,
    test: TestId,
    machine: Boxed<Machine>,
    stop: Stop,
) -> Result<Arrival, AllocError>
    requires { HasCome test machine stop }
    ensures { IfOk result (ComesAs test machine stop) }
{
    match stop {
        Stop::AtQuestion(ask) => Ok(Arrival::AtQuestion(Asking { test, ask, machine })),
        Stop::Lost => Ok(Arrival::Lost),
        Stop::AtEnd(closing) => {
            let Closing { verdict, close } = closing.into_inner();
            let (state, shelves) = machine.into_inner().into_parts();
            let board_steps = state.board_steps();
            let steps = state.steps();
            let reads = state.into_reads()?;
            Ok(Arrival::AtEnd(Ended {
                test,
                reads,
                verdict,
                close,
                board_steps,
                steps,
                readings: Readings::of(shelves),
            }))
        }
    }
}

impl Asking {
    ghost use Rattle.dg_machine.specs.Evaluating.{NeedsNext, answered};

    /// What is asked: the question that the judging needs next, and where that is an entry of a session the action that
    /// it is to answer.
    pub fn ask(&self) -> &Ask
        ensures ask { result.now ≡ self.now.ask }
        ensures next { NeedsNext self.now.test self.now.reads self.now.ask }
    {
        self.ask.get()
    }

    /// The steps that were taken.
    pub fn steps(&self) -> u64
        ensures { result ≡ self.now.steps }
    {
        self.machine.get().state.steps()
    }

    /// Goes on with an answer of the question's kind.
    pub fn tell(self, answer: Answer) -> Result<Evaluation, AllocError>
        requires { fits self.ask.question answer ≡ true }
        ensures { IfOk result (λ e. e ≡ answered self answer) }
    {
        let Asking {
            test,
            ask,
            mut machine,
        } = self;
        let ask = ask.into_inner();
        machine.learn(ask.question, answer)?;
        Ok(Evaluation { test, machine })
    }
}
