//! Workers over stored worlds, and over gates that wait for nothing.
use crate::benches::gates::{Deaf, Signal, Waiting};
use crate::benches::replies::{PASSED, closed, is_sum, put_on};
use dg_bench::{Bench, Call, Pass, Room, Work, run_workers};
use dg_core::Reply;
use dg_transcript::encode;
use std::alloc::{AllocError, Global};
use std::sync::Wait;
use std::thread::Threads;
use std::time::Clock;

/// A script that passes once its child has written an `x`.
const EXPECTS: &[u8] = b"spawn cat\nexpect x {pass one}\n";

/// A pass that has then seen that so many such scripts were put: t/00.exp, t/01.exp, ..
pub fn put_scripts<B: Room, R: Wait>(
    rt: &R,
    alloc: Global,
    bench: &Bench<B>,
    mut pass: Pass<B>,
    count: u32,
) -> Option<Pass<B>> {
    for number in 0..count {
        let name = format!(in alloc; "t/{number:02}.exp").ok()?;
        pass = put_on(rt, alloc, bench, pass, name.as_bytes(), EXPECTS)?;
    }
    Some(pass)
}

/// How many lines of a text are this one.
fn count_of(alloc: Global, text: &[u8], wanted: &[u8]) -> Result<usize, AllocError> {
    let lines: Vec<&[u8]> = text.split(|byte| *byte == b'\n').collect(alloc)?;
    let mut count = 0usize;
    for line in &lines {
        if *line == wanted {
            count = count.wrapping_add(1);
        }
    }
    Ok(count)
}

/// How many passes a sum of status 0 has, if it is one.
pub fn passes(alloc: Global, reply: &Reply) -> Option<usize> {
    match reply {
        Reply::Sum(text, 0) => count_of(alloc, text.as_slice(), b"PASS: one").ok(),
        _ => None,
    }
}

/// Gates that wait for nothing.
pub fn ready<'a, R: Clock>(rt: &'a R, alloc: Global, signal: &'a Signal) -> Waiting<'a, R> {
    Waiting {
        rt,
        alloc,
        started: signal,
        awaited: signal,
        wanted: 0,
    }
}

/// The pass, where workers judge what is pending, report that all passes, and so many calls are then seen.
fn passed<B: Room + Send + Sync, R: Threads + Wait + Clock + Sync>(
    rt: &R,
    alloc: Global,
    bench: &Bench<B>,
    pass: Pass<B>,
    maker: &Waiting<'_, R>,
    seen: usize,
) -> Option<Pass<B>> {
    let (pass, sum) = run_workers(rt, alloc, bench, pass, maker, 2, Work::Rejudge).ok()?;
    if is_sum(&sum, PASSED) && pass.seen() == seen {
        Some(pass)
    } else {
        None
    }
}

/// Whether two workers judge the one test that is pending, and then report without a further call.
pub fn rejudges<B: Room + Send + Sync, R: Threads + Wait + Clock + Sync>(
    rt: &R,
    alloc: Global,
    bench: Bench<B>,
) -> Option<bool> {
    let signal = Signal::new();
    let maker = ready(rt, alloc, &signal);
    let pass = put_on(
        rt,
        alloc,
        &bench,
        bench.pass(),
        b"t/a.exp",
        b"pass \"one\"\n",
    )?;
    let pass = passed(rt, alloc, &bench, pass, &maker, 3)?;
    let _pass = passed(rt, alloc, &bench, pass, &maker, 4)?;
    Some(true)
}

/// How many calls are live runs with one entry of a child's output.
fn live_runs(calls: &[Call]) -> usize {
    calls
        .iter()
        .filter(|call| matches!(call, Call::Live(_, _)))
        .count()
}

/// Whether two workers run three tests live, and keep a transcript of each.
pub fn runs_live<B: Room + Send + Sync, R: Threads + Wait + Clock + Sync>(
    rt: &R,
    alloc: Global,
    bench: Bench<B>,
) -> Option<bool> {
    let signal = Signal::new();
    let maker = ready(rt, alloc, &signal);
    let pass = put_scripts(rt, alloc, &bench, bench.pass(), 3)?;
    let (pass, reply) = run_workers(rt, alloc, &bench, pass, &maker, 2, Work::Live).ok()?;
    let history = closed(bench, pass)?;
    Some(
        passes(alloc, &reply) == Some(3) && live_runs(history.calls()) == 3 && signal.raised() == 3,
    )
}

/// A script that tells of a send that fails, and passes.
const TELLS: &[u8] = b"spawn cat\nif {[catch {send a} m]} {note $m}\npass p\n";

/// Its lines, and the transcript of a child that reads nothing, written out by hand.
const TOLD: &[u8] = b"NOTE: spawn id exp1 not open\nPASS: p\n";

const DEAF: &[u8] = b"dejagnu-transcript 1\nsession 1\nstarted 636174\nnosend 3 61\ndone\n";

/// Whether a sum has these lines, one behind the other.
fn tells(reply: &Reply, lines: &[u8]) -> bool {
    match reply {
        Reply::Sum(text, 0) => text
            .as_slice()
            .windows(lines.len().max(1))
            .any(|part| part == lines),
        _ => false,
    }
}

/// Whether the one live run among the calls has this transcript.
fn has_transcript(alloc: Global, calls: &[Call], wanted: &[u8]) -> Option<bool> {
    let mut found = false;
    for call in calls {
        if let Call::Live(_, transcript) = call {
            found = encode(alloc, transcript).ok()?.is(wanted);
        }
    }
    Some(found)
}

/// The same script with a comment behind it.
const TELLS_AGAIN: &[u8] = b"spawn cat\nif {[catch {send a} m]} {note $m}\npass p\n# again\n";

/// The pass, where workers then come to those lines by this script.
fn told<B: Room + Send + Sync, R: Threads + Wait + Sync>(
    rt: &R,
    alloc: Global,
    bench: &Bench<B>,
    pass: Pass<B>,
    script: &[u8],
    work: Work,
) -> Option<Pass<B>> {
    let pass = put_on(rt, alloc, bench, pass, b"t/a.exp", script)?;
    let (pass, reply) = run_workers(rt, alloc, bench, pass, &Deaf { alloc }, 2, work).ok()?;
    if tells(&reply, TOLD) {
        Some(pass)
    } else {
        None
    }
}

/// Whether workers keep the transcript of a call that failed, and judge again by it to the same lines.
pub fn keeps_failures<B: Room + Send + Sync, R: Threads + Wait + Sync>(
    rt: &R,
    alloc: Global,
    bench: Bench<B>,
) -> Option<bool> {
    let pass = told(rt, alloc, &bench, bench.pass(), TELLS, Work::Live)?;
    let pass = told(rt, alloc, &bench, pass, TELLS_AGAIN, Work::Rejudge)?;
    let history = closed(bench, pass)?;
    has_transcript(alloc, history.calls(), DEAF)
}
