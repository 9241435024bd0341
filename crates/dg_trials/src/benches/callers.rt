//! Two callers that edit, ask and report, while a third runs workers.
use crate::benches::gates::Signal;
use crate::benches::pauses::Pauses;
use crate::benches::replies::{are_same, are_same_replies, closed, put, replays};
use crate::benches::turns::Share;
use crate::benches::working::{put_scripts, ready};
use dg_bench::{Bench, Call, Pass, Receipt, Room, Work, run_workers};
use dg_bytes::Bytes;
use dg_core::Reply;
use dg_match::Reading;
use dg_world::{Answer, Question};
use std::alloc::{AllocError, Global};
use std::mem;
use std::sync::Wait;
use std::thread::{Threads, join};
use std::time::Clock;

/// How often a caller edits, asks and reports.
const ROUNDS: usize = 3;

/// Calls, each beside its place.
type Placed = Vec<(usize, Call)>;

/// A caller, the receipts that it was given, and where it yields.
#[derive(Drop)]
struct Caller<B: Room> {
    alloc: Global,
    pass: Pass<B>,
    receipts: Vec<Receipt<B>>,
    pauses: Pauses,
}

impl<B: Room> Caller<B> {
    /// A caller with no receipts.
    fn new(alloc: Global, pass: Pass<B>, seed: u64) -> Caller<B> {
        Caller {
            alloc,
            pass,
            receipts: Vec::new(alloc),
            pauses: Pauses::new(seed),
        }
    }

    /// Keeps a receipt, and yields.
    fn take(&mut self, pass: Pass<B>, receipt: Receipt<B>) -> Option<()> {
        self.pass = pass;
        self.receipts.push(receipt).ok()?;
        self.pauses.pause();
        Some(())
    }

    /// Puts a file.
    fn edit<R: Wait>(&mut self, rt: &R, bench: &Bench<B>, name: &[u8]) -> Option<()> {
        let edit = put(self.alloc, name, b"pass x\n").ok()?;
        let pass = mem::replace(&mut self.pass, bench.pass());
        let (pass, receipt) = bench.edit(rt, self.alloc, pass, edit).ok()?;
        self.take(pass, receipt)
    }

    /// Asks how a pattern is read.
    fn ask<R: Wait>(&mut self, rt: &R, bench: &Bench<B>) -> Option<()> {
        let question = Question::Pattern(Bytes::from_slice(self.alloc, b"b(.)").ok()?);
        let pass = mem::replace(&mut self.pass, bench.pass());
        let (pass, receipt, answer) = bench.ask(rt, self.alloc, pass, &question).ok()?;
        if answer != Answer::Reading(Reading::Read) {
            return None;
        }
        self.take(pass, receipt)
    }

    /// Reports.
    fn report<R: Wait>(&mut self, rt: &R, bench: &Bench<B>) -> Option<()> {
        let pass = mem::replace(&mut self.pass, bench.pass());
        let (pass, receipt, _reply) = bench.report(rt, self.alloc, pass).ok()?;
        self.take(pass, receipt)
    }

    /// Edits, asks and reports, again and again.
    fn go_round<R: Wait>(&mut self, rt: &R, bench: &Bench<B>, name: &[u8]) -> Option<()> {
        for _ in 0..ROUNDS {
            self.edit(rt, bench, name)?;
            self.ask(rt, bench)?;
            self.report(rt, bench)?;
        }
        Some(())
    }

    /// The call of each receipt that has one.
    fn calls(&mut self, bench: &Bench<B>) -> Result<Placed, AllocError> {
        let mut calls = Vec::new(self.alloc);
        for receipt in &mut self.receipts {
            let number = receipt.number();
            if let Some(call) = bench.call_at(receipt) {
                calls.push((number, call.copy(self.alloc)?))?;
            }
        }
        Ok(calls)
    }
}

/// The calls of a caller that goes round.
fn calls_of<B: Room, R: Wait>(
    rt: &R,
    bench: &Bench<B>,
    mut caller: Caller<B>,
    name: &[u8],
) -> Option<Placed> {
    caller.go_round(rt, bench, name)?;
    caller.calls(bench).ok()
}

/// Two callers at once.
fn two_go_round<B: Room + Send + Sync, R: Threads + Wait + Sync>(
    rt: &R,
    bench: &Bench<B>,
    one: Caller<B>,
    other: Caller<B>,
) -> (Option<Placed>, Option<Placed>) {
    join(
        rt,
        move || calls_of(rt, bench, one, b"t/00.exp"),
        move || calls_of(rt, bench, other, b"t/01.exp"),
    )
}

/// A report of workers, and how many calls were then seen.
#[derive(Drop)]
struct Reported {
    seen: usize,
    reply: Reply,
}

/// What two workers report.
fn work<'a, B: Room + Send + Sync, R: Threads + Wait + Clock + Sync>(
    bench: &Bench<B>,
    share: Share<'a, B, R>,
    work: Work,
) -> Option<(Share<'a, B, R>, Reported)> {
    let Share { pass, maker } = share;
    let (pass, reply) = run_workers(maker.rt, maker.alloc, bench, pass, maker, 2, work).ok()?;
    let seen = pass.seen();
    Some((Share { pass, maker }, Reported { seen, reply }))
}

/// Runs all tests, and then judges those that are pending.
fn work_twice<B: Room + Send + Sync, R: Threads + Wait + Clock + Sync>(
    bench: &Bench<B>,
    share: Share<'_, B, R>,
) -> Option<(Reported, Reported)> {
    let (share, live) = work(bench, share, Work::Live)?;
    let (_share, judged) = work(bench, share, Work::Rejudge)?;
    Some((live, judged))
}

/// Two callers that edit, ask and report, while a third runs workers.
fn three_at_once<B: Room + Send + Sync, R: Threads + Wait + Clock + Sync>(
    rt: &R,
    bench: &Bench<B>,
    one: Caller<B>,
    other: Caller<B>,
    third: Share<'_, B, R>,
) -> (
    Option<(Reported, Reported)>,
    (Option<Placed>, Option<Placed>),
) {
    join(
        rt,
        move || work_twice(bench, third),
        move || two_go_round(rt, bench, one, other),
    )
}

/// Whether each of these calls stands at its place, each after the one before it.
fn stand(calls: &[(usize, Call)], history: &[Call]) -> bool {
    let are_there = calls.iter().all(|(number, call)| match history.get(*number) {
        Some(there) => are_same(call, there),
        None => false,
    });
    are_there && calls.windows(2).all(|pair| pair[0].0 < pair[1].0)
}

/// Whether a report of workers is the last of the calls that were then seen.
fn is_last(reported: &Reported, history: &[Call]) -> bool {
    match history.get(..reported.seen).and_then(|seen| seen.last()) {
        Some(Call::Report(reply)) => are_same_replies(reply, &reported.reply),
        _ => false,
    }
}

/// How many of the calls are edits, questions and reports.
fn counts(calls: &[Call]) -> (usize, usize, usize) {
    let edits = calls.iter().filter(|call| matches!(call, Call::Edit(_)));
    let asks = calls.iter().filter(|call| matches!(call, Call::Ask(_, _)));
    let reports = calls.iter().filter(|call| matches!(call, Call::Report(_)));
    (edits.count(), asks.count(), reports.count())
}

/// What all three were told: the calls of the callers, and the reports of the workers.
#[derive(Drop)]
struct Told {
    one: Placed,
    other: Placed,
    live: Reported,
    judged: Reported,
}

impl Told {
    /// Whether these calls are a history of it: of all questions for one pattern just the first is a call.
    fn is_in(&self, history: &[Call]) -> bool {
        let (one, other) = (self.one.as_slice(), self.other.as_slice());
        counts(history) == (2 + 2 * ROUNDS, 1, 2 + 2 * ROUNDS)
            && one.len() + other.len() == 4 * ROUNDS + 1
            && stand(one, history)
            && stand(other, history)
            && is_last(&self.live, history)
            && is_last(&self.judged, history)
    }
}

/// What all three are told.
fn tell<B: Room + Send + Sync, R: Threads + Wait + Clock + Sync>(
    rt: &R,
    alloc: Global,
    bench: &Bench<B>,
    pass: &mut Pass<B>,
    seed: u64,
) -> Option<Told> {
    let signal = Signal::new();
    let maker = ready(rt, alloc, &signal);
    let one = Caller::new(alloc, pass.twin(), seed);
    let other = Caller::new(alloc, pass.twin(), !seed);
    let third = Share {
        pass: pass.twin(),
        maker: &maker,
    };
    let (worked, (one, other)) = three_at_once(rt, bench, one, other, third);
    let (live, judged) = worked?;
    Some(Told {
        one: one?,
        other: other?,
        live,
        judged,
    })
}

/// Whether all were told of the calls that stand in the history, each caller in its order, and whether a core that is given
/// these calls alone has the same replies.
pub fn are_told<B: Room + Send + Sync, R: Threads + Wait + Clock + Sync>(
    rt: &R,
    alloc: Global,
    bench: Bench<B>,
    seed: u64,
) -> Option<bool> {
    let mut pass = put_scripts(rt, alloc, &bench, bench.pass(), 2)?;
    let told = tell(rt, alloc, &bench, &mut pass, seed)?;
    let history = closed(bench, pass)?;
    Some(told.is_in(history.calls()) && replays(alloc, history.calls())?)
}
