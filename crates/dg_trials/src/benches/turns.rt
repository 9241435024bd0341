//! Workers whose children wait for others.
use crate::benches::gates::{Signal, Waiting};
use crate::benches::replies::put_on;
use crate::benches::working::{passes, put_scripts};
use dg_bench::{Bench, Pass, Room, Work, run_workers};
use dg_core::Reply;
use std::alloc::Global;
use std::sync::Wait;
use std::thread::{Threads, join};
use std::time::Clock;

/// What a thread is given: a pass, and the gates.
#[derive(Drop)]
pub struct Share<'a, B: Room, R: Clock> {
    pub pass: Pass<B>,
    pub maker: &'a Waiting<'a, R>,
}

/// Runs all tests by two workers.
fn run_all<B: Room + Send + Sync, R: Threads + Wait + Clock + Sync>(
    bench: &Bench<B>,
    share: Share<'_, B, R>,
) -> Option<Reply> {
    let Share { pass, maker } = share;
    let ran = run_workers(maker.rt, maker.alloc, bench, pass, maker, 2, Work::Live);
    Some(ran.ok()?.1)
}

/// Edits once a child runs, and lets it go on.
fn edit_then<B: Room, R: Wait + Clock>(bench: &Bench<B>, share: Share<'_, B, R>) -> Option<usize> {
    let Share { pass, maker } = share;
    if !maker.started.wait(maker.rt, 1) {
        return None;
    }
    let pass = put_on(maker.rt, maker.alloc, bench, pass, b"t/notes", b"x")?;
    maker.awaited.raise();
    Some(pass.seen())
}

/// The two at once.
fn run_and_edit<B: Room + Send + Sync, R: Threads + Wait + Clock + Sync>(
    rt: &R,
    bench: &Bench<B>,
    run: Share<'_, B, R>,
    edit: Share<'_, B, R>,
) -> (Option<Reply>, Option<usize>) {
    join(
        rt,
        move || run_all(bench, run),
        move || edit_then(bench, edit),
    )
}

/// Whether an edit is answered while a worker waits for its child.
pub fn waits_for_an_edit<B: Room + Send + Sync, R: Threads + Wait + Clock + Sync>(
    rt: &R,
    alloc: Global,
    bench: Bench<B>,
) -> Option<bool> {
    let (started, edited) = (Signal::new(), Signal::new());
    let maker = Waiting {
        rt,
        alloc,
        started: &started,
        awaited: &edited,
        wanted: 1,
    };
    let mut pass = put_scripts(rt, alloc, &bench, bench.pass(), 1)?;
    let run = Share {
        pass: pass.twin(),
        maker: &maker,
    };
    let edit = Share {
        pass: pass.twin(),
        maker: &maker,
    };
    let (reply, seen) = run_and_edit(rt, &bench, run, edit);
    Some(passes(alloc, &reply?) == Some(1) && seen? == 2)
}

/// Whether so many workers run so many tests at once: each child waits until all of them run.
pub fn waits_for_all<B: Room + Send + Sync, R: Threads + Wait + Clock + Sync>(
    rt: &R,
    alloc: Global,
    bench: Bench<B>,
    workers: u32,
) -> Option<bool> {
    if workers < 1 || workers > 16 {
        return None;
    }
    let started = Signal::new();
    let maker = Waiting {
        rt,
        alloc,
        started: &started,
        awaited: &started,
        wanted: u64::from(workers),
    };
    let pass = put_scripts(rt, alloc, &bench, bench.pass(), workers)?;
    let count = workers as usize;
    let (_pass, reply) = run_workers(rt, alloc, &bench, pass, &maker, count, Work::Live).ok()?;
    Some(passes(alloc, &reply) == Some(count))
}
