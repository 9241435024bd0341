//! A worker's own way to the bench.
ghost use Rattle.std.specs.Prelude.{◌≡◌, IfOk, OnOk, IfSome};

use crate::bench::Bench;
use crate::pass::Pass;
use crate::refusal::BenchRefusal;
use crate::replay::Replay;
use crate::room::Room;
use crate::work::WorkFault;
use dg_eval::{Job, Readings, Turn};
use dg_gate::{AskFault, Asker};
use dg_live::LiveFault;
use dg_records::Record;
use dg_transcript::Transcript;
use dg_world::{Answer, Question, TestId};
use std::alloc::Global;
use std::mem;
use std::sync::Wait;

/// A caller with a pass of its own, which keeps why the bench did not answer a question.
pub(crate) struct Client<'a, B: Room, R: Wait> {
    rt: &'a R,
    alloc: Global,
    bench: &'a Bench<B>,
    pass: Pass<B>,
    refusal: Option<BenchRefusal>,
}

/// Written by hand, and so one call for whoever lets a client go.
impl<'a, B: Room, R: Wait> Drop for Client<'a, B, R> {
    fn drop(self) {
        let Client {
            rt: _,
            alloc: _,
            bench: _,
            pass: _,
            refusal: _,
        } = self;
    }
}

impl<'a, B: Room, R: Wait> Asker for Client<'a, B, R> {
    ghost use Rattle.dg_bench.specs.Work.{Answers};

    ghost step = { λ before question answer after. Answers before.pass after.pass question answer };

    fn ask(&mut self, question: &Question) -> Result<Answer, AskFault> {
        let pass = mem::replace(&mut self.pass, self.bench.pass());
        match self.bench.ask(self.rt, self.alloc, pass, question) {
            Ok((pass, _receipt, answer)) => {
                self.pass = pass;
                Ok(answer)
            }
            Err((pass, refusal)) => {
                self.pass = pass;
                Err(self.refused(refusal))
            }
        }
    }
}

impl<'a, B: Room, R: Wait> Client<'a, B, R> {
    /// A caller with this pass.
    pub(crate) fn new(rt: &'a R, alloc: Global, bench: &'a Bench<B>, pass: Pass<B>) -> Self {
        Client {
            rt,
            alloc,
            bench,
            pass,
            refusal: None,
        }
    }

    /// Why the bench did not answer.
    fn refused(&mut self, refusal: BenchRefusal) -> AskFault {
        if refusal == BenchRefusal::Memory {
            return AskFault::Memory;
        }
        self.refusal = Some(refusal);
        AskFault::Refused
    }

    /// The fault of a judging that gave no record.
    pub(crate) fn fault(&mut self, test: TestId, why: LiveFault) -> WorkFault {
        WorkFault::of_judging(test, why, self.refusal.take())
    }

    /// What the transcript of a test answers, which is looked up once.
    fn replay(&mut self, test: &TestId) -> Result<Replay, LiveFault> {
        let Ok(own) = test.copy(self.alloc) else {
            return Err(LiveFault::Memory);
        };
        let pass = mem::replace(&mut self.pass, self.bench.pass());
        match self.bench.transcript(self.rt, self.alloc, pass, test) {
            Ok((pass, transcript)) => {
                self.pass = pass;
                Ok(Replay {
                    test: own,
                    transcript,
                })
            }
            Err((pass, refusal)) => {
                self.pass = pass;
                Err(LiveFault::Asker(self.refused(refusal)))
            }
        }
    }

    /// Tells a job what its test's transcript answers to its next questions, and the bench to the first other one, or gives its
    /// record.
    fn take_turn(&mut self, job: &mut Job, replay: &Replay) -> Result<Option<Record>, LiveFault>
        ensures test { OnOk result (job.new.test ≡ job.old.test) }
        ensures record { IfOk result (λ o. IfSome o (λ r. r.test ≡ job.old.test)) }
    {
        let ask = match job.advance_along(self.alloc, replay) {
            Ok(Turn::Need(ask)) => ask,
            Ok(Turn::Done(record)) => return Ok(Some(record)),
            Err(fault) => return Err(LiveFault::Job(fault)),
        };
        match self.ask(&ask.question) {
            Ok(answer) => match job.answer(answer) {
                Ok(()) => Ok(None),
                Err(fault) => Err(LiveFault::Job(fault)),
            },
            Err(fault) => Err(LiveFault::Asker(fault)),
        }
    }

    /// A job for a test, with what its worker has read.
    fn job(&self, test: &TestId, readings: &mut Readings) -> Result<Job, LiveFault>
        ensures { IfOk result (λ j. j.test ≡ test.now) }
    {
        let read = mem::replace(readings, Readings::new());
        match test.copy(self.alloc) {
            Ok(own) => match Job::start_with(self.alloc, own, read) {
                Ok(job) => Ok(job),
                Err(_) => Err(LiveFault::Memory),
            },
            Err(_) => Err(LiveFault::Memory),
        }
    }

    /// Judges a test, whose children answer from its transcript as it stands when the judging begins; the bench answers what else is
    /// asked. The readings are those of the worker.
    pub(crate) fn rejudge(
        &mut self,
        test: &TestId,
        readings: &mut Readings,
    ) -> Result<Record, LiveFault>
        ensures { IfOk result (λ r. r.test ≡ test.now) }
    {
        let replay = self.replay(test)?;
        let mut job = self.job(test, readings)?;
        'turns: for _turn in 0..u64::MAX {
            if let Some(record) = self.take_turn(&mut job, &replay)? {
                job.hand_on(readings);
                return Ok(record);
            }
        }
        Err(LiveFault::Memory)
    }

    /// Keeps a record.
    pub(crate) fn commit(&mut self, record: Record) -> Result<(), WorkFault> {
        let pass = mem::replace(&mut self.pass, self.bench.pass());
        match self.bench.commit(self.rt, self.alloc, pass, record) {
            Ok((pass, _receipt)) => {
                self.pass = pass;
                Ok(())
            }
            Err((pass, _record, refusal)) => {
                self.pass = pass;
                Err(WorkFault::of_refusal(refusal))
            }
        }
    }

    /// Keeps a live run.
    pub(crate) fn commit_live(
        &mut self,
        record: Record,
        transcript: Transcript,
    ) -> Result<(), WorkFault> {
        let pass = mem::replace(&mut self.pass, self.bench.pass());
        match self
            .bench
            .commit_live(self.rt, self.alloc, pass, record, transcript)
        {
            Ok((pass, _receipt)) => {
                self.pass = pass;
                Ok(())
            }
            Err((pass, _record, _transcript, refusal)) => {
                self.pass = pass;
                Err(WorkFault::of_refusal(refusal))
            }
        }
    }
}
