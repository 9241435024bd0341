//! What workers do, and why they stop.
ghost use Rattle.std.specs.Prelude.{◌≡◌, ◌≢◌};
ghost use Rattle.dg_bench.specs.declared.refusal.BenchRefusal.TheVariants.{Memory as WantsMemory};
ghost use Rattle.dg_bench.specs.declared.work.WorkFault.TheVariants as told;

use crate::refusal::BenchRefusal;
use dg_eval::JobFault;
use dg_gate::AskFault;
use dg_live::LiveFault;
use dg_world::TestId;
use std::alloc::AllocError;
use thiserror::Error;

/// Which tests workers judge, and how.
#[derive(Clone, Copy, Debug, PartialEq, Eq)]
pub enum Work {
    /// All selected tests, each with children of its own.
    Live,
    /// The pending tests, whose children answer from their transcripts.
    Rejudge,
}

/// Why workers stop. The calls that they made before stay made.
#[derive(Debug, PartialEq, Eq, Drop, Error)]
pub enum WorkFault {
    /// The bench refused a call, for another cause than want of memory.
    #[error("the bench refused: {0}")]
    Bench(BenchRefusal),
    /// No thread could be made.
    #[error("no thread could be made")]
    Thread,
    /// Memory ran out.
    #[error("out of memory")]
    Memory,
    /// The judging of this test needs a pattern that was answered as read, and it can't be built.
    #[error("a pattern answered as read could not be built")]
    PatternLost(TestId),
}

impl From<AllocError> for WorkFault {
    ghost use Rattle.dg_bench.specs.declared.work.WorkFault.TheVariants.{Memory};

    ghost from_gives = { λ _ e. e ≡ Memory };

    fn from(_e: AllocError) -> WorkFault {
        WorkFault::Memory
    }
}

impl WorkFault {
    /// The fault of a call that the bench refused.
    pub(crate) fn of_refusal(refusal: BenchRefusal) -> WorkFault
        ensures { result ≢ told.Bench WantsMemory }
    {
        match refusal {
            BenchRefusal::Memory => WorkFault::Memory,
            other => WorkFault::Bench(other),
        }
    }

    /// The fault of a worker: want of memory is told as such.
    pub(crate) fn of_worker(fault: WorkFault) -> WorkFault
        ensures { result ≢ told.Bench WantsMemory }
    {
        match fault {
            WorkFault::Bench(refusal) => WorkFault::of_refusal(refusal),
            other => other,
        }
    }

    /// The fault of a judging that gave no record. What the bench refused to answer comes first.
    pub(crate) fn of_judging(
        test: TestId,
        why: LiveFault,
        refusal: Option<BenchRefusal>,
    ) -> WorkFault
        ensures { result ≢ told.Bench WantsMemory }
    {
        match (why, refusal) {
            (LiveFault::Asker(AskFault::Refused), Some(refusal)) => WorkFault::of_refusal(refusal),
            (LiveFault::Job(JobFault::PatternLost), _) => WorkFault::PatternLost(test),
            _ => WorkFault::Memory,
        }
    }
}
