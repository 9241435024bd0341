//! Growths that are refused in a live run, and where it is kept.
use crate::live::desk::Desk;
use dg_bytes::Bytes;
use dg_core::{Core, Reply as Told};
use dg_eval::JobFault;
use dg_gate::{AskFault, Ended, Piece, Reply, ScriptGate};
use dg_live::{LiveFault, run_live};
use dg_records::Record;
use dg_transcript::{Transcript, encode};
use dg_world::{Edit, Refusal, TestId};
use std::alloc::{AllocError, Global};
use std::collections::VecDeque;

/// Starts a child, talks to it, and ends it.
const SCRIPT: &[u8] =
    b"spawn cat\ncatch {send a}\nexpect x {pass x} eof {fail e} timeout {fail t}\ncatch close\nnote [lindex [wait] 2]\n";

/// What the child did.
const TRANSCRIPT: &[u8] =
    b"dejagnu-transcript 1\nsession 1\nstarted 636174\nsent 61\nchunk 0 78\nclosed\nexited 0\ndone\n";

/// The report of it.
const REPORT: &[u8] =
    b"\t\t=== t tests ===\n\nSchedule of variations:\n    unix\n\nRunning target unix\nRunning t/a.exp ...\nPASS: x\nNOTE: 0\n\n\t\t=== t Summary ===\n\n# of expected passes\t\t1\n";

/// Why a run was not kept: for want of memory, or for anything else.
#[derive(Drop)]
enum Short {
    Memory,
    Other,
}

impl From<AllocError> for Short {
    fn from(_e: AllocError) -> Short {
        Short::Memory
    }
}

/// A desk with the script.
fn desk_of(alloc: Global) -> Option<Desk> {
    let name = Bytes::from_slice(alloc, b"t/a.exp").ok()?;
    let text = Bytes::from_slice(alloc, SCRIPT).ok()?;
    let mut core = Core::new(alloc).ok()?;
    core.edit(alloc, Edit::PutFile(name, text)).ok()?;
    Some(Desk { alloc, core })
}

/// What a gate answers to a child that takes what it is sent, writes an `x`, and exits.
fn replies_of(alloc: Global) -> Result<VecDeque<Reply>, AllocError> {
    let bytes = Bytes::from_slice(alloc, b"x")?;
    let mut replies = VecDeque::new(alloc);
    replies.push_back(Reply::Piece(Piece::Chunk(0, bytes)))?;
    replies.push_back(Reply::Closed)?;
    replies.push_back(Reply::Ended(Ended::Exited(0)))?;
    replies.push_front(Reply::Sent)?;
    replies.push_front(Reply::Started)?;
    Ok(replies)
}

/// Why there is no run.
fn why(fault: LiveFault) -> Short {
    match fault {
        LiveFault::Memory | LiveFault::Asker(AskFault::Memory) | LiveFault::Job(JobFault::Memory) =>
            Short::Memory,
        _ => Short::Other,
    }
}

/// Runs the test.
fn run(
    alloc: Global,
    desk: &mut Desk,
    replies: VecDeque<Reply>,
) -> Result<(Record, Transcript), Short> {
    let Ok(test) = TestId::new(alloc, b"unix", b"t/a.exp") else {
        return Err(Short::Memory);
    };
    let mut gate = ScriptGate::new(replies);
    match run_live(alloc, test, &mut gate, desk) {
        Ok(run) => Ok(run),
        Err(fault) => Err(why(fault)),
    }
}

/// Why a transcript is not kept: for want of memory, if it is the one of the run.
fn why_not_kept(alloc: Global, refusal: Refusal, transcript: &Transcript) -> Short {
    match (refusal, encode(alloc, transcript)) {
        (Refusal::Memory, Ok(text)) if text.is(TRANSCRIPT) => Short::Memory,
        (Refusal::Memory, Err(_)) => Short::Memory,
        _ => Short::Other,
    }
}

/// Keeps a run. One that isn't kept comes back.
fn keep(
    alloc: Global,
    desk: &mut Desk,
    record: Record,
    transcript: Transcript,
) -> Result<(), Short> {
    match desk.core.commit_live(alloc, record, transcript) {
        Ok(()) => Ok(()),
        Err((refusal, _, back)) => Err(why_not_kept(alloc, refusal, &back)),
    }
}

/// Runs the test, and keeps the run.
fn run_and_keep(alloc: Global, desk: &mut Desk, replies: VecDeque<Reply>) -> Result<(), Short> {
    match run(alloc, desk, replies) {
        Ok((record, transcript)) => keep(alloc, desk, record, transcript),
        Err(short) => Err(short),
    }
}

/// Runs the test beside a block of so many bytes, and keeps the run.
fn attempt(alloc: Global, desk: &mut Desk, pad: usize) -> Result<(), Short> {
    let replies = replies_of(alloc)?;
    let Ok(_pad) = Vec::<u8>::with_capacity(alloc, pad) else {
        return Err(Short::Memory);
    };
    run_and_keep(alloc, desk, replies)
}

/// Whether the test was judged rightly, by its run alone.
fn is_kept(alloc: Global, desk: &Desk) -> bool {
    match desk.core.report(alloc) {
        Ok(Told::Sum(text, 0)) => text.is(REPORT) && desk.core.evaluations() == 0,
        _ => false,
    }
}

/// Whether the test is pending.
fn is_pending(alloc: Global, desk: &Desk) -> bool {
    match desk.core.report(alloc) {
        Ok(Told::Pending(tests)) => tests.len() == 1,
        _ => false,
    }
}

/// Whether the test is run and kept beside a block of so many bytes, or not for want of memory. The core is then as it was, and
/// keeps a run once the block is gone. Nothing where anything else comes of it.
pub fn round(alloc: Global, pad: usize) -> Option<bool> {
    let mut desk = desk_of(alloc)?;
    let is_first = match attempt(alloc, &mut desk, pad) {
        Ok(()) => true,
        Err(Short::Memory) => false,
        Err(Short::Other) => return None,
    };
    if !is_first && !(is_pending(alloc, &desk) && attempt(alloc, &mut desk, 0).is_ok()) {
        return None;
    }
    if is_kept(alloc, &desk) {
        Some(is_first)
    } else {
        None
    }
}
