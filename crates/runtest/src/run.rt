//! A run over a suite's folders.
ghost use Rattle.std.specs.Prelude.{◌≡◌, IfOk, OnOk};
ghost use Rattle.dg_core.specs.declared.reply.Reply.TheVariants.{Sum};
ghost use Rattle.dg_bench.specs.Work.{IsReported};
ghost use Rattle.runtest.specs.Runs.{HasSelected, KeepsSelected, IsRun};

use crate::live::Runner;
use crate::progress::{Counts, Progress};
use crate::suite::{Suite, pattern_lost, text_of};
use crate::transcripts::{path_of, write_transcripts};
use dg_bench::{
    Bench, Call, Opened, Pass, Room, Work, WorkFault, run_workers, sums_are_from_scratch,
};
use dg_bytes::{Bytes, Seq};
use dg_core::Reply;
use dg_folders::{
    RunFault, read_suite, read_transcript, renew, sum_path, write_in_place, write_with_folders,
};
use dg_line::{Mode, Plan};
use dg_pipes::Fresh;
use dg_session::cause_number;
use dg_world::{Edit, Refusal, Selection, TestId};
use std::alloc::Global;
use std::marker::Brand;
use std::process::{Processes, SystemProcess};
use std::rt::Files;
use std::sync::Wait;
use std::thread::Threads;
use std::time::Clock;

/// How many calls the history of a run may have.
const CALLS: usize = 262_144;

/// What a run came to.
#[derive(Drop)]
pub(crate) struct RunResult {
    pub(crate) report: Bytes,
    pub(crate) status: u8,
    pub(crate) counts: Counts,
}

/// How a run goes: its folders, the tool, and how many tests are judged at a time.
#[derive(Drop)]
struct Course {
    mode: Mode,
    jobs: usize,
    srcdir: String,
    outdir: String,
    tool: String,
}

impl Course {
    /// That of a plan.
    fn of_plan(alloc: Global, plan: &Plan) -> Result<Course, RunFault> {
        Ok(Course {
            mode: plan.mode,
            jobs: plan.jobs as usize,
            srcdir: text_of(alloc, plan.srcdir.as_slice())?,
            outdir: text_of(alloc, plan.outdir.as_slice())?,
            tool: text_of(alloc, plan.selection.tool.as_slice())?,
        })
    }
}

/// The transcript of a test in the folder of a run becomes that of the test. Whether there is one.
fn take_transcript<B: Room, R: Files + AllocGlobal + Wait>(
    rt: &R,
    outdir: &str,
    test: &TestId,
    suite: &mut Suite<'_, B, R>,
) -> Result<bool, RunFault>
    ensures { OnOk result (KeepsSelected suite.old.pass suite.new.pass) }
{
    let alloc = rt.alloc();
    let path = path_of(alloc, outdir, test)?;
    let Some(text) = read_transcript(rt, path.as_str())? else {
        return Ok(false);
    };
    let edit = Edit::PutTranscript(
        Bytes::from_slice(alloc, test.board().as_slice())?,
        Bytes::from_slice(alloc, test.script().as_slice())?,
        text,
    );
    match suite.put(edit) {
        Ok(()) => Ok(true),
        Err(Refusal::BadTranscript(line, cause)) => {
            Err(RunFault::BadTranscript(path, line, cause_number(cause)))
        }
        Err(Refusal::Memory) => Err(RunFault::Memory),
        Err(_) => Err(suite.fault(RunFault::BadFile(path))),
    }
}

/// Reads the transcripts of tests, in their order. Gives how many there are.
fn take_transcripts<B: Room, R: Files + AllocGlobal + Wait>(
    rt: &R,
    outdir: &str,
    tests: &[TestId],
    suite: &mut Suite<'_, B, R>,
) -> Result<usize, RunFault>
    ensures { OnOk result (KeepsSelected suite.old.pass suite.new.pass) }
{
    let mut read = 0usize;
    for test in tests {
        if take_transcript(rt, outdir, test, suite)? {
            read = read.saturating_add(1);
        }
    }
    Ok(read)
}

/// Reads the files of the suite, and then selects.
#[tactic(auto, using(crate::proofs::Reporting::selected))]
fn take_suite<B: Room, R: Files + AllocGlobal + Wait + Clone + Drop>(
    rt: &R,
    course: &Course,
    selection: Selection,
    suite: &mut Suite<'_, B, R>,
) -> Result<(), RunFault>
    ensures { OnOk result (HasSelected selection suite.new.pass) }
{
    let tool = course.tool.as_bytes();
    if let Err(fault) = read_suite(rt, course.srcdir.as_str(), tool, suite) {
        return Err(suite.fault(fault));
    }
    match suite.put(Edit::Select(selection)) {
        Ok(()) => Ok(()),
        Err(Refusal::Memory) => Err(RunFault::Memory),
        Err(_) => Err(RunFault::HistoryFull),
    }
}

/// Reads the transcripts of tests where these are judged by them. Gives how many there are.
fn take_recorded<B: Room, R: Files + AllocGlobal + Wait>(
    rt: &R,
    course: &Course,
    tests: &[TestId],
    suite: &mut Suite<'_, B, R>,
) -> Result<usize, RunFault>
    ensures { OnOk result (KeepsSelected suite.old.pass suite.new.pass) }
{
    match course.mode {
        Mode::Rejudge => take_transcripts(rt, course.outdir.as_str(), tests, suite),
        Mode::Run | Mode::Session => Ok(0),
    }
}

/// Reads all that a run reads. Gives the selected tests, and how many transcripts there are, beside a pass that has seen the edits.
fn gather<B: Room, R: Files + AllocGlobal + Wait + Clone + Drop>(
    rt: &R,
    bench: &Bench<B>,
    course: &Course,
    selection: Selection,
) -> Result<(Pass<B>, Seq<TestId>, usize), RunFault>
    ensures { IfOk result (λ r. HasSelected selection r.0) }
{
    let mut suite = Suite::new(rt, rt.alloc(), bench);
    take_suite(rt, course, selection, &mut suite)?;
    let tests = suite.tests()?;
    let read = take_recorded(rt, course, tests.as_slice(), &mut suite)?;
    Ok((suite.into_pass(), tests, read))
}

/// The fault of workers that stopped.
fn fault_of(alloc: Global, fault: WorkFault) -> RunFault {
    match fault {
        WorkFault::Bench(_) => RunFault::HistoryFull,
        WorkFault::Thread => RunFault::NoThread,
        WorkFault::Memory => RunFault::Memory,
        WorkFault::PatternLost(test) => pattern_lost(alloc, &test),
    }
}

/// Judges what is selected: by running every test, or by the transcripts that there are. Gives the report and its status.
fn judge<B: Room + Send + Sync, R>(
    rt: &R,
    bench: &Bench<B>,
    course: &Course,
    pass: Pass<B>,
    progress: &Progress<R>,
) -> Result<(Pass<B>, Bytes, u8), RunFault>
where
    R: AllocGlobal
        + Processes<Started = SystemProcess>
        + Threads
        + Wait
        + Clock
        + Eprint
        + Copy
        + Drop
        + Send
        + Sync
        + 'static,
    ensures { IfOk result (λ r. IsReported pass r.0 (Sum r.1 r.2)) }
{
    let alloc = rt.alloc();
    let runner = Runner {
        rt: *rt,
        opener: move |output| Fresh::open(*rt, alloc, output),
        progress,
    };
    let workers = course.jobs.clamp(1, 16);
    let work = match course.mode {
        Mode::Rejudge => Work::Rejudge,
        Mode::Run | Mode::Session => Work::Live,
    };
    match run_workers(rt, alloc, bench, pass, &runner, workers, work) {
        Ok((pass, reply)) => match reply {
            Reply::Sum(report, status) => Ok((pass, report, status)),
            Reply::Pending(_) => Err(RunFault::HistoryFull),
        },
        Err((_, fault)) => Err(fault_of(alloc, fault)),
    }
}

/// What the calls of a run that read so many transcripts come to.
fn counts_of(calls: &[Call], read: usize) -> Counts {
    let mut counts = Counts::of_read(read);
    for call in calls {
        match call {
            Call::Live(record, _) | Call::Commit(record) => counts.add(record.verdict()),
            Call::Edit(_) | Call::Ask(_, _) | Call::Report(_) => {}
        }
    }
    counts
}

/// Writes the report to its file. A run makes the folders that this stands in. A file that is this report already stays, and
/// takes the time of now.
fn write_report<R: Files + AllocGlobal + Clock>(
    rt: &R,
    course: &Course,
    report: &[u8],
) -> Result<(), RunFault> {
    let path = sum_path(rt.alloc(), course.outdir.as_str(), course.tool.as_str())?;
    if renew(rt, path.as_str(), report) {
        return Ok(());
    }
    match course.mode {
        Mode::Run => write_with_folders(rt, path.as_str(), report),
        Mode::Rejudge | Mode::Session => write_in_place(rt, path.as_str(), report),
    }
}

/// Runs a plan over a bench of these cells.
fn run_over<B: Room + Send + Sync, R>(
    rt: &R,
    opened: Opened,
    plan: Plan,
    progress: &Progress<R>,
) -> Result<RunResult, RunFault>
where
    R: Files
        + AllocGlobal
        + Processes<Started = SystemProcess>
        + Threads
        + Wait
        + Clock
        + Eprint
        + Copy
        + Drop
        + Send
        + Sync
        + 'static,
    requires { opened.cells.names ≡ B.names }
    ensures { IfOk result (λ o. IsRun plan.selection o.report o.status) }
{
    let alloc = rt.alloc();
    let course = Course::of_plan(alloc, &plan)?;
    let bench = opened.named::<B>(alloc)?;
    let (pass, tests, read) = gather(rt, &bench, &course, plan.into_selection())?;
    progress.expect(tests.len());
    let (mut pass, report, status) = judge(rt, &bench, &course, pass, progress)?;
    sums_are_from_scratch();
    let Ok(history) = bench.into_history(&mut pass) else {
        return Err(RunFault::HistoryFull);
    };
    let calls = history.calls();
    write_transcripts(rt, course.outdir.as_str(), tests.as_slice(), calls)?;
    write_report(rt, &course, report.as_slice())?;
    Ok(RunResult {
        report,
        status,
        counts: counts_of(calls, read),
    })
}

/// Reads the suite of a plan, judges what is selected, live or by the transcripts that an earlier run wrote, and writes the
/// transcripts of what was run, and the report to `OUTDIR/TOOL.sum`. A run makes OUTDIR where it isn't there. The report and its
/// status are those of judging every selected test from scratch, on the world that the calls of the run's bench make.
pub(crate) fn run_plan<R>(rt: &R, plan: Plan, progress: &Progress<R>) -> Result<RunResult, RunFault>
where
    R: Files
        + AllocGlobal
        + Processes<Started = SystemProcess>
        + Threads
        + Wait
        + Clock
        + Eprint
        + Copy
        + Drop
        + Send
        + Sync
        + 'static,
    ensures { IfOk result (λ o. IsRun plan.selection o.report o.status) }
{
    let opened = Opened::new(rt.alloc(), CALLS)?;
    run_over::<Brand, R>(rt, opened, plan, progress)
}
