//! Jobs: evaluations that stop at each question and go on from there.
ghost use Rattle.std.specs.Prelude.{◌≡◌, IfOk, MatchResult};
ghost use Rattle.dg_eval.specs.Advance.{Advances, AdvancesAlong, Halts, HaltsAlong, HasArrived, HasFailed, Meets, Misses, Tells, Refuses, started, going};

use crate::stage::Stage;
use dg_language::Ask;
use dg_machine::{Answers, Arrival, Evaluation, Readings};
use dg_records::Record;
use dg_world::{Answer, TestId};
use std::alloc::{AllocError, Global};
use std::marker::Model;
use std::mem;
use thiserror::Error;

/// What a turn of a job came to.
#[derive(Drop)]
pub enum Turn {
    /// The evaluation needs the answer to this question; where that is an entry of a session, it is to answer the
    /// action beside it.
    Need(Ask),
    /// The evaluation has ended.
    Done(Record),
}

/// Why a job does not go on.
#[derive(Clone, Copy, Debug, PartialEq, Eq, Drop, Error)]
pub enum JobFault {
    /// No question stands.
    #[error("no question stands")]
    NotAsked,
    /// The answer is not of the question's kind.
    #[error("the answer is of another kind")]
    WrongKind,
    /// A pattern that was answered as read can't be built. Every later call answers `Failed`.
    #[error("a pattern answered as read could not be built")]
    PatternLost,
    /// A growth was refused. Every later call answers `Failed`.
    #[error("out of memory")]
    Memory,
    /// The job has failed before, or is done.
    #[error("the job has ended")]
    Failed,
}

/// The judging of a test, which stops at each question that has no answer yet. It is never begun
/// again, and asks no question twice.
pub struct Job {
    test: TestId,
    stage: Stage,
    steps: u64,
}

/// Written by hand, and so one call for whoever lets a job go.
impl Drop for Job {
    fn drop(self) {
        let Job {
            test: _,
            stage: _,
            steps: _,
        } = self;
    }
}

impl Model for Job {
    ghost use Rattle.dg_eval.specs.Truth.{JobView, IsStage, reads_of, asked_of, is_live, has_failed};

    ghost Value = { JobView };

    ghost view = { λ j. record { test = j.test; reads = reads_of j.stage; asked = asked_of j.stage; live = is_live j.stage; failed = has_failed j.stage; steps = j.steps } };

    ghost invariant = { λ j. IsStage j.test j.stage };
}

impl Job {
    /// Begins the judging of a test.
    pub fn start(alloc: Global, test: TestId) -> Result<Job, AllocError>
        ensures { IfOk result (λ j. j ≡ started test) }
    {
        Job::start_with(alloc, test, Readings::new())
    }

    /// Begins the judging of a test, with what the evaluations of other jobs read of texts.
    pub fn start_with(alloc: Global, test: TestId, readings: Readings) -> Result<Job, AllocError>
        ensures { IfOk result (λ j. j ≡ started test) }
    {
        let test = test.kept(alloc)?;
        let evaluation = Evaluation::start(alloc, test.copy(alloc)?, readings)?;
        Ok(Job {
            test,
            stage: Stage::Running(evaluation),
            steps: 0,
        })
    }

    /// The steps that were taken up to the last turn; once the job is done, those of the whole
    /// evaluation.
    pub fn steps(&self) -> u64
        ensures { result ≡ self.now.steps }
    {
        self.steps
    }

    /// Puts what the evaluation read of texts in the place of these readings, where the job is done.
    pub fn hand_on(mut self, readings: &mut Readings) {
        if let Stage::Finished(read) = mem::replace(&mut self.stage, Stage::Failed) {
            *readings = read;
        }
    }

    /// Goes on to the next question or to the end. While a question stands it is given again.
    ///
    /// # Errors
    /// `PatternLost` where a pattern that was answered as read can't be built, `Memory` where a growth
    /// is refused, and the job has then failed; `Failed` where it has failed before, or is done.
    pub fn advance(&mut self, alloc: Global) -> Result<Turn, JobFault>
        ensures { MatchResult result (Advances self.old self.new) (Halts self.old self.new) }
    {
        match mem::replace(&mut self.stage, Stage::Failed) {
            Stage::Running(evaluation) => self.go_on(alloc, evaluation),
            Stage::Asking(asking) => {
                let copy = asking.ask().copy(alloc)?;
                self.stage.set(Stage::Asking(asking));
                Ok(Turn::Need(copy))
            }
            Stage::Finished(readings) => {
                self.stage.set(Stage::Finished(readings));
                Err(JobFault::Failed)
            }
            Stage::Failed => Err(JobFault::Failed),
        }
    }

    /// Goes on to the next question that these don't answer, or to the end: each question before that is told their answer.
    /// While a question stands it is given again.
    ///
    /// # Errors
    /// As `advance`.
    pub fn advance_along<A: Answers>(
        &mut self,
        alloc: Global,
        answers: &A,
    ) -> Result<Turn, JobFault>
        ensures { MatchResult result (AdvancesAlong (A.source answers.now) A.holds self.old self.new)
            (HaltsAlong (A.source answers.now) A.holds self.old self.new) }
    {
        match mem::replace(&mut self.stage, Stage::Failed) {
            Stage::Running(evaluation) => match evaluation.run_along(alloc, answers) {
                Ok(arrival) => self.arrive(alloc, arrival),
                Err(AllocError) => Err(JobFault::Memory),
            },
            stage => {
                self.stage.set(stage);
                self.advance(alloc)
            }
        }
    }

    /// The evaluation moves up to a question, or to the end, or fails.
    fn go_on(&mut self, alloc: Global, evaluation: Evaluation) -> Result<Turn, JobFault>
        requires test { evaluation.test ≡ self.old.test }
        requires failed { HasFailed self.old self.old }
        ensures { MatchResult result (Advances (going self.old evaluation.reads) self.new)
            (Halts (going self.old evaluation.reads) self.new) }
    {
        let arrival = evaluation.run_on(alloc)?;
        self.arrive(alloc, arrival)
    }

    /// The evaluation has come to a question, to the end, or to a pattern that can't be built.
    fn arrive(&mut self, alloc: Global, arrival: Arrival) -> Result<Turn, JobFault>
        requires arrived { HasArrived self.old.test arrival }
        requires failed { HasFailed self.old self.old }
        ensures { MatchResult result (Meets self.old self.new arrival) (Misses self.old self.new arrival) }
    {
        match arrival {
            Arrival::AtQuestion(asking) => {
                let copy = asking.ask().copy(alloc)?;
                self.steps = asking.steps();
                self.stage.set(Stage::Asking(asking));
                Ok(Turn::Need(copy))
            }
            Arrival::AtEnd(ended) => {
                self.steps = ended.steps;
                self.stage.set(Stage::Finished(ended.readings));
                let record = Record::from_parts(ended.test, ended.reads, ended.verdict);
                Ok(Turn::Done(record.shared(alloc)))
            }
            Arrival::Lost => Err(JobFault::PatternLost),
        }
    }

    /// Tells the answer to the question that stands.
    ///
    /// # Errors
    /// `NotAsked` where no question stands, `WrongKind` where the answer isn't of its kind, and
    /// neither changes anything; `Memory` where a growth is refused, and the job has then failed;
    /// `Failed` where it has failed before.
    pub fn answer(&mut self, answer: Answer) -> Result<(), JobFault>
        ensures { MatchResult result (λ _. Tells self.old self.new answer self.old.asked) (Refuses self.old self.new answer) }
    {
        match mem::replace(&mut self.stage, Stage::Failed) {
            Stage::Asking(asking) => {
                if !asking.ask().question.fits(&answer) {
                    self.stage.set(Stage::Asking(asking));
                    return Err(JobFault::WrongKind);
                }
                let evaluation = asking.tell(answer)?;
                self.stage.set(Stage::Running(evaluation));
                Ok(())
            }
            Stage::Running(evaluation) => {
                self.stage.set(Stage::Running(evaluation));
                Err(JobFault::NotAsked)
            }
            Stage::Finished(readings) => {
                self.stage.set(Stage::Finished(readings));
                Err(JobFault::NotAsked)
            }
            Stage::Failed => Err(JobFault::Failed),
        }
    }
}

impl From<AllocError> for JobFault {
    ghost use Rattle.dg_eval.specs.declared.job.JobFault.TheVariants.{Memory};

    ghost from_gives = { λ _ e. e ≡ Memory };

    fn from(_e: AllocError) -> JobFault {
        JobFault::Memory
    }
}
