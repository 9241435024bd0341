//! Tests that are run with child processes on pipes.
use crate::progress::Progress;
use dg_bench::RunTests;
use dg_gate::{Asker, GateFault};
use dg_live::{LiveFault, Readings, run_live_with};
use dg_pipes::{Fresh, PipeGate};
use dg_records::Record;
use dg_transcript::Transcript;
use dg_world::TestId;
use std::alloc::Global;
use std::process::{ChildStdout, Processes, SystemProcess};
use std::sync::Wait;
use std::thread::Threads;
use std::time::Clock;

/// Runs tests over gates to child processes, whose outputs are read by what the opener starts.
#[derive(Drop)]
pub(crate) struct Runner<'a, R, F: Fn(ChildStdout) -> Result<Fresh, GateFault>> {
    pub(crate) rt: R,
    pub(crate) opener: F,
    pub(crate) progress: &'a Progress<R>,
}

impl<R, F> RunTests for Runner<'_, R, F>
where
    R: AllocGlobal
        + Processes<Started = SystemProcess>
        + Threads
        + Wait
        + Clock
        + Eprint
        + Copy
        + Drop,
    F: Fn(ChildStdout) -> Result<Fresh, GateFault> + Copy + Drop,
{
    ghost is_ready = { λ r. F.IsAlwaysCallable r.opener };

    /// Runs a test. None of its children is left.
    fn run_test<A: Asker>(
        &self,
        alloc: Global,
        _worker: usize,
        test: TestId,
        readings: &mut Readings,
        asker: &mut A,
    ) -> Result<(Record, Transcript), LiveFault> {
        let mut gate = PipeGate::new(self.rt, alloc, self.opener);
        let run = run_live_with(alloc, test, readings, &mut gate, asker);
        let _accounts = gate.stop();
        run
    }

    fn begin(&self, test: &TestId) {
        self.progress.begin(test);
    }

    fn end(&self, record: &Record) {
        self.progress.end(record.verdict());
    }
}
