//! The steps of an evaluation that waits again at each piece of its child's output.
use crate::live::desk::{Desk, test};
use anyhow::Result;
use dg_bytes::Bytes;
use dg_eval::{Job, Turn};
use std::alloc::Global;
use std::io::Write;

/// Waits once more for each piece.
const SCRIPT: &[u8] = b"spawn cat\nexpect x exp_continue eof {pass p}\n";

/// The pieces.
const PIECES: u64 = 10_000;

/// `spawn`, `expect` and `pass` take a step each, and so does each `exp_continue`.
const STEPS: u64 = PIECES + 3;

/// More answers than the evaluation asks for.
const ANSWERS: u64 = 2 * PIECES;

/// The transcript of a child that writes the pieces and ends its output.
fn transcript(alloc: Global) -> Result<Bytes> {
    let mut text = Bytes::new(alloc);
    text.extend(b"dejagnu-transcript 1\nsession 1\nstarted 636174\n")?;
    for _piece in 0..PIECES {
        text.extend(b"chunk 0 78\n")?;
    }
    text.extend(b"end 0\ndone\n")?;
    Ok(text)
}

/// The steps that the evaluation has taken at its end, if it comes to one.
fn steps_of(alloc: Global, desk: &mut Desk) -> Result<Option<u64>> {
    let mut job = Job::start(alloc, test(alloc)?)?;
    for _answer in 0..ANSWERS {
        match job.advance(alloc)? {
            Turn::Done(_record) => return Ok(Some(job.steps())),
            Turn::Need(ask) => {
                let answer = desk.core.ask(alloc, &ask.question)?;
                job.answer(answer)?;
            }
        }
    }
    Ok(None)
}

/// Counts the steps, and tells how many pieces there were, or what was counted in place of the right number.
pub fn try_steps(alloc: Global, out: &mut impl Write) -> Result<()> {
    let mut desk = Desk::new(alloc, SCRIPT)?;
    desk.put(&transcript(alloc)?)?;
    match steps_of(alloc, &mut desk)? {
        Some(STEPS) => Ok(writeln!(out, "repeated output: {PIECES} pieces")?),
        Some(steps) => Ok(writeln!(out, "repeated output: {steps} steps")?),
        None => Ok(writeln!(out, "repeated output: no end")?),
    }
}
