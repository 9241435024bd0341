//! Cores that no row tries: one that goes to another thread, and growths that are refused.
pub mod growth;

use crate::lines::tell;
use anyhow::Result;
use dg_bytes::Bytes;
use dg_core::Core;
use dg_world::Edit;
use std::alloc::{AllocError, Global};
use std::thread;
use std::thread::Threads;

/// The report of a passing script t/a.exp, written out by hand.
const PASSED: &[u8] =
    b"\t\t=== t tests ===\n\nSchedule of variations:\n    unix\n\nRunning target unix\nRunning t/a.exp ...\nPASS: one\n\n\t\t=== t Summary ===\n\n# of expected passes\t\t1\n";

/// A core that was given this script.
fn core_with(alloc: Global, text: &[u8]) -> Result<Core, AllocError> {
    let name = Bytes::from_slice(alloc, b"t/a.exp")?;
    let script = Edit::PutFile(name, Bytes::from_slice(alloc, text)?);
    let mut core = Core::new(alloc)?;
    match core.edit(alloc, script) {
        Ok(()) => Ok(core),
        Err(_) => Err(AllocError),
    }
}

/// The core, if it gives its report.
fn once_settled(alloc: Global, mut core: Core) -> Option<Core> {
    match core.settle(alloc) {
        Ok(_) => Some(core),
        Err(_) => None,
    }
}

/// Whether a core gives the report of a passing script, of one evaluation.
fn settles_to_passed(alloc: Global, mut core: Core) -> bool {
    match core.settle(alloc) {
        Ok((text, status)) => text.is(PASSED) && status == 0 && core.evaluations() == 1,
        Err(_) => false,
    }
}

/// Whether a core settles in one thread, and reports in another.
fn goes_to_another_thread(rt: &impl Threads, alloc: Global) -> Result<bool, AllocError> {
    let core = core_with(alloc, b"pass \"one\"\n")?;
    let first = thread::spawn(rt, move || once_settled(alloc, core))?;
    let Some(settled) = first.join(rt) else {
        return Ok(false);
    };
    let second = thread::spawn(rt, move || settles_to_passed(alloc, settled))?;
    Ok(second.join(rt))
}

/// Tries a core that goes to another thread.
pub fn try_threads(rt: &(impl Print + Threads), alloc: Global) -> Result<()> {
    tell(
        rt,
        "a core goes to another thread",
        goes_to_another_thread(rt, alloc),
    )
}
