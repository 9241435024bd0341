//! Where workers get their gates.
use dg_gate::{Asker, Gate};
use dg_live::{LiveFault, Readings, run_live_with};
use dg_records::Record;
use dg_transcript::Transcript;
use dg_world::TestId;
use std::alloc::{AllocError, Global};

/// Makes gates for workers, and takes them back.
pub trait MakeGate {
    ghost use Rattle.std.specs.Prelude.{◌+◌, ◌^◌, ◌<◌, IfOk};
    ghost use Rattle.dg_transcript.specs.declared.limits.TheConstants.{MAX_ENTRIES};

    type Made: Gate + Drop;

    /// A gate for one test of a worker: it may be called, and 65,536 of its calls may still be refused.
    fn make(&self, worker: usize) -> Result<Self::Made, AllocError>
        ensures room { IfOk result (λ g. Self.Made.count g + MAX_ENTRIES < 2 ^ 64) }
        ensures ready { IfOk result Self.Made.is_ready };

    /// Takes the gate back, after the run of that test.
    fn end(&self, worker: usize, gate: Self::Made);
}

/// Runs tests live for workers, and is told what they judge. Whatever makes gates does, and takes no notice.
pub trait RunTests {
    ghost use Rattle.std.specs.Prelude.{◌≡◌, IfOk, IfErr};
    ghost use Rattle.dg_living.specs.Replayed.{transcript_of};
    ghost use Rattle.dg_live.specs.Walk.{CanFail};

    // What has to hold before a test is run, as that what is called there may be called.
    ghost is_ready: { Self → Type 0 };

    /// Judges a test over a gate of its own, as [`run_live_with`] does: its record, and the transcript of what that read. The
    /// readings are those of the worker.
    fn run_test<A: Asker>(
        &self,
        alloc: Global,
        worker: usize,
        test: TestId,
        readings: &mut Readings,
        asker: &mut A,
    ) -> Result<(Record, Transcript), LiveFault>
        requires ready { is_ready self.now }
        ensures run { IfOk result (λ p. (p.0.test ≡ test) × (p.1 ≡ transcript_of p.0.reads)) }
        ensures fault { IfErr result CanFail };

    /// A worker begins to judge a test.
    fn begin(&self, _test: &TestId) {}

    /// A worker has judged a test, and keeps this record.
    fn end(&self, _record: &Record) {}
}

impl<M: MakeGate> RunTests for M {
    ghost is_ready = { λ m. Unit {0} };

    fn run_test<A: Asker>(
        &self,
        alloc: Global,
        worker: usize,
        test: TestId,
        readings: &mut Readings,
        asker: &mut A,
    ) -> Result<(Record, Transcript), LiveFault> {
        let Ok(mut gate) = self.make(worker) else {
            return Err(LiveFault::Memory);
        };
        let run = run_live_with(alloc, test, readings, &mut gate, asker);
        self.end(worker, gate);
        run
    }
}
