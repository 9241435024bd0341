//! Two threads that edit at once.
use crate::benches::replies::{closed, put_on};
use dg_bench::{Bench, Call, Pass, Room};
use dg_world::Edit;
use std::alloc::Global;
use std::sync::Wait;
use std::thread::{Threads, join};

/// How often each thread edits.
const EDITS: usize = 100;

/// What a thread is given: a pass, and the name of the file that it puts again and again.
#[derive(Drop)]
struct Task<B: Room> {
    alloc: Global,
    pass: Pass<B>,
    name: &'static [u8],
}

/// Makes the edits of a task, one after another. Gives how many calls its pass has then seen.
fn edit_often<B: Room, R: Wait>(rt: &R, bench: &Bench<B>, task: Task<B>) -> Option<usize> {
    let Task {
        alloc,
        mut pass,
        name,
    } = task;
    for _ in 0..EDITS {
        pass = put_on(rt, alloc, bench, pass, name, b"pass x\n")?;
    }
    Some(pass.seen())
}

/// Two threads, which edit at once.
fn edit_both<B: Room + Send + Sync, R: Threads + Wait + Sync>(
    rt: &R,
    bench: &Bench<B>,
    one: Task<B>,
    other: Task<B>,
) -> (Option<usize>, Option<usize>) {
    join(
        rt,
        move || edit_often(rt, bench, one),
        move || edit_often(rt, bench, other),
    )
}

/// How many calls put the file of this name.
fn puts_of(calls: &[Call], wanted: &[u8]) -> usize {
    calls
        .iter()
        .filter(|call| matches!(call, Call::Edit(Edit::PutFile(name, _)) if name.is(wanted)))
        .count()
}

/// Whether the history has the edits of both threads, and no other call.
pub fn are_all_made<B: Room + Send + Sync, R: Threads + Wait + Sync>(
    rt: &R,
    alloc: Global,
    bench: Bench<B>,
) -> Option<bool> {
    let one = Task {
        alloc,
        pass: bench.pass(),
        name: b"t/a.exp",
    };
    let other = Task {
        alloc,
        pass: bench.pass(),
        name: b"t/b.exp",
    };
    let (one, other) = edit_both(rt, &bench, one, other);
    let most = one?.max(other?);
    let pass = bench.pass();
    let history = closed(bench, pass)?;
    let calls = history.calls();
    Some(
        most == 2 * EDITS
            && calls.len() == 2 * EDITS
            && puts_of(calls, b"t/a.exp") == EDITS
            && puts_of(calls, b"t/b.exp") == EDITS,
    )
}
