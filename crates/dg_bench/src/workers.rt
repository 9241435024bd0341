//! Workers: threads that judge the tests of one bench together.
ghost use Rattle.std.specs.Prelude.{◌<◌, ◌≤◌, IfOk, IfErr};
ghost use Rattle.dg_bench.specs.Work.{IsReported, Stops};

use crate::bench::Bench;
use crate::client::Client;
use crate::make_gate::RunTests;
use crate::pass::Pass;
use crate::room::Room;
use crate::work::{Work, WorkFault};
use dg_bytes::{Seq, TryCopy};
use dg_core::Reply;
use dg_live::{LiveFault, Readings};
use dg_world::TestId;
use std::alloc::Global;
use std::sync::Wait;
use std::thread;
use std::thread::{JoinHandle, Threads};

/// What all workers of a run share: the bench, the tests in their order, and how many workers there are.
#[derive(Drop)]
struct Crew<'a, B: Room, M: RunTests, R: Wait> {
    rt: &'a R,
    alloc: Global,
    bench: &'a Bench<B>,
    maker: &'a M,
    tests: &'a [TestId],
    work: Work,
    workers: usize,
}

impl<'a, B: Room, M: RunTests, R: Wait> Crew<'a, B, M, R> {
    /// Judges a test, and keeps what comes of it.
    fn judge(
        &self,
        client: &mut Client<'a, B, R>,
        readings: &mut Readings,
        worker: usize,
        test: &TestId,
    ) -> Result<(), WorkFault>
        requires ready { M.is_ready self.now.maker.now }
    {
        self.maker.begin(test);
        match self.work {
            Work::Live => self.judge_live(client, readings, worker, test),
            Work::Rejudge => self.rejudge(client, readings, test),
        }
    }

    /// Judges a test with children of its own.
    fn judge_live(
        &self,
        client: &mut Client<'a, B, R>,
        readings: &mut Readings,
        worker: usize,
        test: &TestId,
    ) -> Result<(), WorkFault>
        requires ready { M.is_ready self.now.maker.now }
    {
        let own = test.copy(self.alloc)?;
        match self
            .maker
            .run_test(self.alloc, worker, own, readings, client)
        {
            Ok((record, transcript)) => {
                self.maker.end(&record);
                client.commit_live(record, transcript)
            }
            Err(why) => Err(self.fault(client, test, why)),
        }
    }

    /// Judges a test, whose children answer from their transcripts.
    fn rejudge(
        &self,
        client: &mut Client<'a, B, R>,
        readings: &mut Readings,
        test: &TestId,
    ) -> Result<(), WorkFault> {
        match client.rejudge(test, readings) {
            Ok(record) => {
                self.maker.end(&record);
                client.commit(record)
            }
            Err(why) => Err(self.fault(client, test, why)),
        }
    }

    /// The fault of a judging that gave no record.
    fn fault(&self, client: &mut Client<'a, B, R>, test: &TestId, why: LiveFault) -> WorkFault {
        match test.copy(self.alloc) {
            Ok(own) => client.fault(own, why),
            Err(_) => WorkFault::Memory,
        }
    }

    /// Judges the tests of a worker: from its own number on, each as many further as there are workers.
    fn run(&self, worker: usize, pass: Pass<B>) -> Result<(), WorkFault>
        requires some { 0 < self.now.workers }
        requires ready { M.is_ready self.now.maker.now }
    {
        let mut client = Client::new(self.rt, self.alloc, self.bench, pass);
        let mut readings = Readings::new();
        for test in self.tests.iter().skip(worker).step_by(self.workers) {
            self.judge(&mut client, &mut readings, worker, test)?;
        }
        Ok(())
    }
}

/// Waits for all workers to end. Gives the fault of the lowest that has one, or else that of starting them.
fn join_all<R: Threads>(
    rt: &R,
    handles: Vec<JoinHandle<Result<(), WorkFault>>>,
    starting: Result<(), WorkFault>,
) -> Result<(), WorkFault> {
    let mut lowest = Ok(());
    for handle in handles {
        let ended = handle.join(rt);
        lowest = lowest.and(ended);
    }
    lowest.and(starting)
}

/// Runs the workers, each in a thread of its own, until all have ended. One alone runs in the thread that calls.
fn run_crew<B: Room + Send + Sync, M: RunTests + Sync, R: Threads + Wait + Sync>(
    crew: &Crew<'_, B, M, R>,
    mut pass: Pass<B>,
) -> Result<(), WorkFault>
    requires some { 0 < crew.now.workers }
    requires ready { M.is_ready crew.now.maker.now }
{
    if crew.workers == 1 {
        return crew.run(0, pass);
    }
    thread::scope(
        thread::scope_env(),
        crew.rt,
        |scope| -> Result<(), WorkFault>
            requires some { 0 < crew.now.workers }
            requires ready { M.is_ready crew.now.maker.now }
        {
            let mut handles = Vec::new(crew.alloc);
            let mut starting = Ok(());
            for worker in 0..crew.workers {
                if handles.reserve(1).is_err() {
                    starting = Err(WorkFault::Memory);
                    break;
                }
                let twin = pass.twin();
                match scope.spawn(
                    move || -> Result<(), WorkFault>
                        requires some { 0 < crew.now.workers }
                        requires ready { M.is_ready crew.now.maker.now }
                    { crew.run(worker, twin) },
                ) {
                    Ok(handle) => handles.push_reserved(handle),
                    Err(_) => {
                        starting = Err(WorkFault::Thread);
                        break;
                    }
                }
            }
            join_all(crew.rt, handles, starting)
        },
    )
}

/// Judges tests in as many threads as there are workers, or in the one that calls where there is one worker, and reports once
/// all have ended. The list of the tests is read once; worker `i` takes those at `i`, `i + workers`, and so on, each with a
/// pass of its own, and holds the lock neither while it judges one nor while it waits for a child. What it judged it keeps,
/// by a call of the bench for each.
///
/// # Errors
/// The fault of the lowest worker that has one, once all have ended, or that of the list or of the report.
pub fn run_workers<B: Room + Send + Sync, M: RunTests + Sync, R: Threads + Wait + Sync>(
    rt: &R,
    alloc: Global,
    bench: &Bench<B>,
    pass: Pass<B>,
    maker: &M,
    workers: usize,
    work: Work,
) -> Result<(Pass<B>, Reply), (Pass<B>, WorkFault)>
    requires few { (0 < workers) × (workers ≤ 16) }
    requires ready { M.is_ready maker.now }
    ensures ok { IfOk result (λ r. IsReported pass r.0 r.1) }
    ensures fault { IfErr result (λ r. Stops pass r.0 r.1) }
{
    let (mut pass, tests) = match bench.tests(rt, alloc, pass, work) {
        Ok(listed) => listed,
        Err((pass, refusal)) => return Err((pass, WorkFault::of_refusal(refusal))),
    };
    let crew = Crew {
        rt,
        alloc,
        bench,
        maker,
        tests: tests.as_slice(),
        work,
        workers,
    };
    match run_crew(&crew, pass.twin()) {
        Ok(()) => {}
        Err(fault) => return Err((pass, WorkFault::of_worker(fault))),
    }
    match bench.report(rt, alloc, pass) {
        Ok((pass, _receipt, reply)) => Ok((pass, reply)),
        Err((pass, refusal)) => Err((pass, WorkFault::of_refusal(refusal))),
    }
}
