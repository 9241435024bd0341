//! Growths that are refused to a session.
use super::streams::{Front, Pieces};
use dg_core::Core;
use dg_session::{SessionFault, run_session};
use std::alloc::Global;

const INPUT: &[u8] = b"put t/a.exp 7061737320226f6e65220a\nreport\nput ../x -\nreport\n";

/// The report of the script, for which one test was judged.
const JUDGED: &[u8] =
    b"sum 0 149 1\n\t\t=== t tests ===\n\nSchedule of variations:\n    unix\n\nRunning target unix\nRunning t/a.exp ...\nPASS: one\n\n\t\t=== t Summary ===\n\n# of expected passes\t\t1\n";

/// The same, for which none was.
const HELD: &[u8] =
    b"sum 0 149 0\n\t\t=== t tests ===\n\nSchedule of variations:\n    unix\n\nRunning target unix\nRunning t/a.exp ...\nPASS: one\n\n\t\t=== t Summary ===\n\n# of expected passes\t\t1\n";

/// The report of no script.
const EMPTY: &[u8] =
    b"sum 0 95 0\n\t\t=== t tests ===\n\nSchedule of variations:\n    unix\n\nRunning target unix\n\n\t\t=== t Summary ===\n\n";

/// The bytes of all answers where there is memory enough.
const WHOLE: usize = 335;

/// The bytes of a buffer that has room for them.
const HELD_MOST: usize = 4096;

/// What is behind the one of these answers that comes first.
fn behind<'a>(held: &'a [u8], answers: &[&[u8]]) -> Option<&'a [u8]> {
    for answer in answers {
        if held.starts_with(answer) {
            return Some(&held[answer.len()..]);
        }
    }
    None
}

/// How many lines of the input were answered: an edit is done or refused with 8 for want of memory,
/// a report is of what was done or has the fault 2. Nothing where anything else was written.
fn answered(held: &[u8]) -> Option<usize> {
    let fault: &[u8] = b"fault 2\n";
    let is_put = held.starts_with(b"ok\n");
    let edits: [&[u8]; 2] = [b"ok\n", b"refused 8\n"];
    let first = if is_put {
        [JUDGED, fault, fault]
    } else {
        [EMPTY, fault, fault]
    };
    let bad: [&[u8]; 2] = [b"refused 1\n", b"refused 8\n"];
    let second = if is_put {
        [JUDGED, HELD, fault]
    } else {
        [EMPTY, fault, fault]
    };
    let each: [&[&[u8]]; 4] = [&edits, &first, &bad, &second];
    let mut rest = held;
    for (count, answers) in each.iter().enumerate() {
        if rest.is_empty() {
            return Some(count);
        }
        rest = behind(rest, answers)?;
    }
    if rest.is_empty() { Some(4) } else { None }
}

/// A new core answers the input into a buffer that has room for the answers; how it ended, or
/// nothing where there is no room for the core.
fn session(alloc: Global, held: Vec<u8>) -> (Vec<u8>, Option<Result<(), SessionFault>>) {
    let mut reader = Pieces {
        rest: INPUT,
        piece: 4096,
        reads: 100_000,
    };
    let mut writer = Front {
        held,
        piece: 4096,
        writes: 100_000,
    };
    let ended = match Core::new(alloc) {
        Ok(core) => Some(run_session(alloc, &mut reader, &mut writer, core)),
        Err(_) => None,
    };
    let Front { held, .. } = writer;
    (held, ended)
}

/// Whether all was answered as with enough memory, or some of it or nothing was; nothing where
/// anything else was.
fn is_whole(held: &[u8], ended: Option<Result<(), SessionFault>>) -> Option<bool> {
    let count = answered(held)?;
    match ended {
        Some(Ok(())) if count == 4 => Some(held.len() == WHOLE),
        Some(Err(SessionFault::Memory)) if count < 4 => Some(false),
        None if count == 0 => Some(false),
        _ => None,
    }
}

/// A session beside a buffer for its answers and a block, which take so many bytes together.
pub fn round(alloc: Global, pad: usize) -> Option<bool> {
    let Ok(held) = Vec::<u8>::with_capacity(alloc, HELD_MOST) else {
        return Some(false);
    };
    let _pad = Vec::<u8>::with_capacity(alloc, pad.saturating_sub(HELD_MOST));
    let (written, ended) = session(alloc, held);
    is_whole(written.as_slice(), ended)
}
