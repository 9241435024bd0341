//! Many callers of one bench, and workers. Each line is a case, and whether it came out as it has to; none depends on how threads
//! run.
ghost use Rattle.std.specs.Prelude.{◌≡◌, ◌<◌, ◌≤◌};

mod callers;
mod edits;
mod gates;
mod limits;
mod pauses;
mod replies;
mod turns;
mod twins;
mod working;

use crate::benches::limits::SOME_BLOCKS;
use anyhow::Result;
use dg_bench::{Opened, Room};
use std::alloc::Global;
use std::marker::Brand;
use std::sync::Wait;
use std::thread::Threads;
use std::time::Clock;

/// What is tried on a bench of its own.
#[derive(Clone, Copy, Debug)]
enum Case {
    /// Two threads edit at once.
    Edits,
    /// A script is judged and reported in another thread than the one that edits it.
    Twin,
    /// Two callers edit, ask and report, while a third runs workers.
    Three,
    /// A bench is full.
    Full,
    /// A history fills several blocks of cells.
    Blocks,
    /// Workers judge what is pending, and then there is nothing to do.
    Rejudge,
    /// Workers run all tests over gates that answer from lists.
    Live,
    /// Workers run a test whose child can't be written to, and judge it again.
    Failing,
    /// A read of a child waits for another caller's edit.
    Edited,
    /// The first read of each worker waits for all workers, of which there are so many.
    All(u32),
}

/// The cases, each with its name.
const CASES: [(&str, Case); 11] = [
    ("edits", Case::Edits),
    ("twin", Case::Twin),
    ("callers and workers", Case::Three),
    ("full", Case::Full),
    ("blocks", Case::Blocks),
    ("rejudge", Case::Rejudge),
    ("live", Case::Live),
    ("a failed send", Case::Failing),
    ("a read waits for an edit", Case::Edited),
    ("2 workers at once", Case::All(2)),
    ("16 workers at once", Case::All(16)),
];

impl Case {
    /// How many calls the history may have.
    fn limit(self) -> usize
        ensures { (0 < result) × (result ≤ 262144) }
    {
        match self {
            Case::Edits => 200,
            Case::Full => 2,
            Case::Blocks => SOME_BLOCKS,
            _ => 64,
        }
    }

    /// How often it is tried, with pauses at other places each time.
    fn times(self) -> u64 {
        match self {
            Case::Three => 100,
            _ => 1,
        }
    }
}

/// Tries a case on the bench over these cells.
fn try_case<B: Room + Send + Sync, R: Threads + Wait + Clock + Sync>(
    rt: &R,
    alloc: Global,
    opened: Opened,
    case: Case,
    seed: u64,
) -> Option<bool>
    requires { opened.cells.names ≡ B.names }
{
    let bench = opened.named::<B>(alloc).ok()?;
    match case {
        Case::Edits => edits::are_all_made(rt, alloc, bench),
        Case::Twin => twins::is_reported(rt, alloc, bench),
        Case::Three => callers::are_told(rt, alloc, bench, seed),
        Case::Full => limits::is_full(rt, alloc, bench),
        Case::Blocks => limits::fills_blocks(rt, alloc, bench),
        Case::Rejudge => working::rejudges(rt, alloc, bench),
        Case::Live => working::runs_live(rt, alloc, bench),
        Case::Failing => working::keeps_failures(rt, alloc, bench),
        Case::Edited => turns::waits_for_an_edit(rt, alloc, bench),
        Case::All(workers) => turns::waits_for_all(rt, alloc, bench, workers),
    }
}

/// Tries a case on a new bench.
fn try_on_bench<R: AllocGlobal + Threads + Wait + Clock + Sync>(
    rt: &R,
    case: Case,
    seed: u64,
) -> Result<Option<bool>> {
    let opened = Opened::new(rt.alloc(), case.limit())?;
    Ok(try_case::<Brand, _>(rt, rt.alloc(), opened, case, seed))
}

/// Whether a case comes out as it has to each time.
fn try_often<R: AllocGlobal + Threads + Wait + Clock + Sync>(rt: &R, case: Case) -> Result<bool> {
    for turn in 0..case.times() {
        if try_on_bench(rt, case, turn)? != Some(true) {
            return Ok(false);
        }
    }
    Ok(true)
}

/// Tries a pass of one bench on another.
fn try_elsewhere<R: AllocGlobal + Wait>(rt: &R) -> Result<Option<bool>> {
    let one = Opened::new(rt.alloc(), 4)?;
    let other = Opened::new(rt.alloc(), 4)?;
    Ok(limits::is_shorter::<Brand, Brand, _>(rt, rt.alloc(), one, other))
}

/// Tries all cases.
pub(crate) fn try_cases<R: Print + AllocGlobal + Threads + Wait + Clock + Sync>(
    rt: &R,
) -> Result<()> {
    for (name, case) in CASES {
        println!(rt; "{name}: {}", try_often(rt, case)?)?;
    }
    let came_out = try_elsewhere(rt)?;
    println!(rt; "another bench: {}", came_out.unwrap_or(false))?;
    Ok(())
}
