//! A bench at its limit, and a pass of another bench.
ghost use Rattle.std.specs.Prelude.{◌≡◌};

use crate::benches::replies::{closed, of_file, put};
use crate::benches::twins::{Ran, judge};
use dg_bench::{Bench, BenchRefusal, Call, Opened, Pass, Room};
use dg_bytes::Bytes;
use dg_world::{Answer, Edit, Refusal};
use std::alloc::Global;
use std::sync::Wait;

/// A pass that has then seen so many reports more, all of which were made.
fn reports<B: Room, R: Wait>(
    rt: &R,
    alloc: Global,
    bench: &Bench<B>,
    mut pass: Pass<B>,
    count: u32,
) -> Option<Pass<B>> {
    for _ in 0..count {
        let (seen, _told, _reply) = bench.report(rt, alloc, pass).ok()?;
        pass = seen;
    }
    Some(pass)
}

/// The pass, where an edit that removes an absent file is refused for this cause.
fn refused<B: Room, R: Wait>(
    rt: &R,
    alloc: Global,
    bench: &Bench<B>,
    pass: Pass<B>,
    cause: BenchRefusal,
) -> Option<Pass<B>> {
    let absent = Edit::RemoveFile(Bytes::from_slice(alloc, b"t/b.exp").ok()?);
    let (pass, why) = bench.edit(rt, alloc, pass, absent).err()?;
    if why == cause { Some(pass) } else { None }
}

/// The pass, where a bench with room for two calls has then made two reports, and has refused an edit for its own cause before
/// it was full.
fn filled<B: Room, R: Wait>(rt: &R, alloc: Global, bench: &Bench<B>) -> Option<Pass<B>> {
    let why = BenchRefusal::Edit(Refusal::NoSuchFile);
    let pass = reports(rt, alloc, bench, bench.pass(), 1)?;
    let pass = refused(rt, alloc, bench, pass, why)?;
    reports(rt, alloc, bench, pass, 1)
}

/// The pass, where a full bench refuses a report.
fn reports_no_more<B: Room, R: Wait>(
    rt: &R,
    alloc: Global,
    bench: &Bench<B>,
    pass: Pass<B>,
) -> Option<Pass<B>> {
    match bench.report(rt, alloc, pass) {
        Err((pass, BenchRefusal::HistoryFull)) => Some(pass),
        _ => None,
    }
}

/// The pass, where a bench with two calls answers that there is no script.
fn answers_still<B: Room, R: Wait>(
    rt: &R,
    alloc: Global,
    bench: &Bench<B>,
    pass: Pass<B>,
) -> Option<Pass<B>> {
    let question = of_file(alloc, b"t/a.exp")?;
    let (pass, front, answer) = bench.ask(rt, alloc, pass, &question).ok()?;
    if answer == Answer::Absent && front.number() == 2 {
        Some(pass)
    } else {
        None
    }
}

/// The pass, where a full bench refuses a record, which comes back.
fn keeps_no_more<B: Room, R: Wait>(
    rt: &R,
    alloc: Global,
    bench: &Bench<B>,
    pass: Pass<B>,
) -> Option<Pass<B>> {
    let Ran { pass, record } = judge(rt, alloc, bench, pass)?;
    let (pass, record, why) = bench.commit(rt, alloc, pass, record).err()?;
    if why == BenchRefusal::HistoryFull && !record.reads().is_empty() {
        Some(pass)
    } else {
        None
    }
}

/// The pass, where a bench with room for two calls refuses a third, and answers questions still.
fn stays_full<B: Room, R: Wait>(rt: &R, alloc: Global, bench: &Bench<B>) -> Option<Pass<B>> {
    let pass = filled(rt, alloc, bench)?;
    let pass = refused(rt, alloc, bench, pass, BenchRefusal::HistoryFull)?;
    let pass = reports_no_more(rt, alloc, bench, pass)?;
    let pass = answers_still(rt, alloc, bench, pass)?;
    keeps_no_more(rt, alloc, bench, pass)
}

/// Whether a history has so many calls.
fn has_calls<B: Room>(bench: Bench<B>, pass: Pass<B>, count: usize) -> Option<bool> {
    let history = closed(bench, pass)?;
    Some(history.calls().len() == count)
}

/// Whether a bench with room for two calls takes no third, and answers questions still.
pub fn is_full<B: Room, R: Wait>(rt: &R, alloc: Global, bench: Bench<B>) -> Option<bool> {
    let pass = stays_full(rt, alloc, &bench)?;
    has_calls(bench, pass, 2)
}

/// The pass, where a file that is put is the call of this number, and its receipt tells it.
fn is_told<B: Room, R: Wait>(
    rt: &R,
    alloc: Global,
    bench: &Bench<B>,
    pass: Pass<B>,
    number: u32,
) -> Option<Pass<B>> {
    let text = number.to_be_bytes();
    let edit = put(alloc, b"t/a.exp", &text).ok()?;
    let (pass, mut receipt) = bench.edit(rt, alloc, pass, edit).ok()?;
    let Some(Call::Edit(Edit::PutFile(_, told))) = bench.call_at(&mut receipt) else {
        return None;
    };
    if told.as_slice() == text.as_slice() && receipt.number() == number as usize {
        Some(pass)
    } else {
        None
    }
}

/// How many calls fill two blocks of a history, and a part of the third.
pub const SOME_BLOCKS: usize = 1_100;

/// Whether a bench with room for so many calls takes each of them, whose receipt tells it, and no more.
pub fn fills_blocks<B: Room, R: Wait>(rt: &R, alloc: Global, bench: Bench<B>) -> Option<bool> {
    let mut pass = bench.pass();
    for number in 0..SOME_BLOCKS as u32 {
        pass = is_told(rt, alloc, &bench, pass, number)?;
    }
    let pass = refused(rt, alloc, &bench, pass, BenchRefusal::HistoryFull)?;
    has_calls(bench, pass, SOME_BLOCKS)
}

/// Whether a pass that has seen more calls than there are is refused, and comes back as it was.
pub fn is_shorter<A: Room, B: Room, R: Wait>(
    rt: &R,
    alloc: Global,
    one: Opened,
    other: Opened,
) -> Option<bool>
    requires one { one.cells.names ≡ A.names }
    requires other { other.cells.names ≡ B.names }
{
    let here = one.named::<A>(alloc).ok()?;
    let there = other.named::<B>(alloc).ok()?;
    let pass = reports(rt, alloc, &here, here.pass(), 3)?;
    let _theirs = reports(rt, alloc, &there, there.pass(), 1)?;
    let edit = put(alloc, b"t/a.exp", b"pass x\n").ok()?;
    let (foreign, why) = there.edit(rt, alloc, pass.for_other::<B>(), edit).err()?;
    Some(why == BenchRefusal::Shorter { seen: 3, found: 1 } && foreign.seen() == 3)
}
