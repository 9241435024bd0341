//! A script that is edited by one caller, and judged and reported by another, in a thread of its own.
use crate::benches::replies::{PASSED, closed, is_sum, of_file, put_on};
use dg_bench::{Bench, Call, Pass, Receipt, Room};
use dg_core::Reply;
use dg_eval::{Job, Turn};
use dg_records::Record;
use dg_world::TestId;
use std::alloc::Global;
use std::sync::Wait;
use std::thread::{Threads, join};

/// What a job came to: the pass of the caller, and the record.
#[derive(Drop)]
pub struct Ran<B: Room> {
    pub pass: Pass<B>,
    pub record: Record,
}

/// A turn of a job, which takes its answer from a bench. Gives the record, where the job is done.
fn take_turn<B: Room, R: Wait>(
    rt: &R,
    alloc: Global,
    bench: &Bench<B>,
    pass: Pass<B>,
    job: &mut Job,
) -> Option<(Pass<B>, Option<Record>)> {
    let ask = match job.advance(alloc).ok()? {
        Turn::Need(ask) => ask,
        Turn::Done(record) => return Some((pass, Some(record))),
    };
    let (pass, _receipt, answer) = bench.ask(rt, alloc, pass, &ask.question).ok()?;
    job.answer(answer).ok()?;
    Some((pass, None))
}

/// Judges the script t/a.exp: a job takes its answers from a bench.
pub fn judge<B: Room, R: Wait>(
    rt: &R,
    alloc: Global,
    bench: &Bench<B>,
    mut pass: Pass<B>,
) -> Option<Ran<B>> {
    let test = TestId::new(alloc, b"unix", b"t/a.exp").ok()?;
    let mut job = Job::start(alloc, test).ok()?;
    for _ in 0..100u32 {
        let (seen, record) = take_turn(rt, alloc, bench, pass, &mut job)?;
        pass = seen;
        if let Some(record) = record {
            return Some(Ran { pass, record });
        }
    }
    None
}

/// What a thread is given.
#[derive(Drop)]
struct Twin<B: Room> {
    alloc: Global,
    pass: Pass<B>,
}

/// What it gives back: its pass, the receipt of a question for the script, and of the report.
#[derive(Drop)]
struct Reported<B: Room> {
    pass: Pass<B>,
    looked: Receipt<B>,
    told: Receipt<B>,
    reply: Reply,
}

/// Judges the script over a bench, and keeps the record.
fn judge_and_keep<B: Room, R: Wait>(
    rt: &R,
    alloc: Global,
    bench: &Bench<B>,
    pass: Pass<B>,
) -> Option<Pass<B>> {
    let Ran { pass, record } = judge(rt, alloc, bench, pass)?;
    let (pass, _kept) = bench.commit(rt, alloc, pass, record).ok()?;
    Some(pass)
}

/// Looks at the script.
fn look<B: Room, R: Wait>(
    rt: &R,
    alloc: Global,
    bench: &Bench<B>,
    pass: Pass<B>,
) -> Option<(Pass<B>, Receipt<B>)> {
    let question = of_file(alloc, b"t/a.exp")?;
    let (pass, looked, _text) = bench.ask(rt, alloc, pass, &question).ok()?;
    Some((pass, looked))
}

/// Judges the script over a bench, keeps the record, and reports.
fn judge_and_report<B: Room, R: Wait>(
    rt: &R,
    bench: &Bench<B>,
    twin: Twin<B>,
) -> Option<Reported<B>> {
    let Twin { alloc, pass } = twin;
    let pass = judge_and_keep(rt, alloc, bench, pass)?;
    let (pass, looked) = look(rt, alloc, bench, pass)?;
    let (pass, told, reply) = bench.report(rt, alloc, pass).ok()?;
    Some(Reported {
        pass,
        looked,
        told,
        reply,
    })
}

/// A twin in a thread of its own, and what it gives back.
fn in_a_thread<B: Room + Send + Sync, R: Threads + Wait + Sync>(
    rt: &R,
    bench: &Bench<B>,
    twin: Twin<B>,
) -> Option<Reported<B>> {
    join(rt, move || judge_and_report(rt, bench, twin), || ()).0
}

/// Whether the receipts tell of the last call, and of no call.
fn tell<B: Room>(bench: &Bench<B>, reported: &mut Reported<B>) -> bool {
    let is_report = match bench.call_at(&mut reported.told) {
        Some(Call::Report(reply)) => is_sum(reply, PASSED),
        _ => false,
    };
    is_report
        && bench.call_at(&mut reported.looked).is_none()
        && reported.told.number() == 2
        && reported.looked.number() == 2
}

/// Whether a history is of just an edit, a record and a report.
fn is_short<B: Room>(bench: Bench<B>, pass: Pass<B>) -> Option<bool> {
    let history = closed(bench, pass)?;
    Some(matches!(
        history.calls(),
        [Call::Edit(_), Call::Commit(_), Call::Report(_)]
    ))
}

/// Whether the thread reports what was edited before, in a history of just the edit, the record and the report.
pub fn is_reported<B: Room + Send + Sync, R: Threads + Wait + Sync>(
    rt: &R,
    alloc: Global,
    bench: Bench<B>,
) -> Option<bool> {
    let mut pass = put_on(
        rt,
        alloc,
        &bench,
        bench.pass(),
        b"t/a.exp",
        b"pass \"one\"\n",
    )?;
    let twin = Twin {
        alloc,
        pass: pass.twin(),
    };
    let mut reported = in_a_thread(rt, &bench, twin)?;
    let is_right = is_sum(&reported.reply, PASSED) && reported.pass.seen() == 3;
    Some(is_right && tell(&bench, &mut reported) && is_short(bench, pass)?)
}
