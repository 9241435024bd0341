//! Whole sessions.
use super::streams::{Endless, Front, Pieces};
use dg_core::Core;
use dg_session::{SessionFault, run_session, serve};
use std::alloc::{AllocError, Global};

const INPUT: &[u8] = b"put t/a.exp 7061737320226f6e65220a\nreport\nput ../x -\nreport\n";

const ANSWER: &[u8] =
    b"ok\nsum 0 149 1\n\t\t=== t tests ===\n\nSchedule of variations:\n    unix\n\nRunning target unix\nRunning t/a.exp ...\nPASS: one\n\n\t\t=== t Summary ===\n\n# of expected passes\t\t1\nrefused 1\nsum 0 149 0\n\t\t=== t tests ===\n\nSchedule of variations:\n    unix\n\nRunning target unix\nRunning t/a.exp ...\nPASS: one\n\n\t\t=== t Summary ===\n\n# of expected passes\t\t1\n";

/// How many reads of three bytes the input takes, the last of which finds its end.
const READS: usize = 23;

/// How many writes of three bytes the answer takes, and flushes: one before each read, unless the line before leaves some of
/// its piece.
const WRITES: usize = 113 + 20;

/// What was written, and how the session ended.
type Outcome = (Vec<u8>, Result<(), SessionFault>);

fn talk(
    alloc: Global,
    input: &[u8],
    piece: usize,
    reads: usize,
    writes: usize,
) -> Result<Outcome, AllocError> {
    let mut reader = Pieces {
        rest: input,
        piece,
        reads,
    };
    let mut writer = Front {
        held: Vec::new(alloc),
        piece,
        writes,
    };
    let result = run_session(alloc, &mut reader, &mut writer, Core::new(alloc)?);
    let Front { held, .. } = writer;
    Ok((held, result))
}

/// What a session of a new core writes; nothing where it fails.
pub fn answered(alloc: Global, input: &[u8]) -> Result<Vec<u8>, AllocError> {
    let (held, result) = talk(alloc, input, 4096, 100_000, 100_000)?;
    if result.is_ok() {
        return Ok(held);
    }
    Ok(Vec::new(alloc))
}

/// Whether this is the whole answer.
fn is_whole(outcome: &Outcome) -> bool {
    let (held, result) = outcome;
    result.is_ok() && held.as_slice() == ANSWER
}

/// Whether this is the beginning of the answer, with this fault.
fn is_cut(outcome: &Outcome, fault: SessionFault) -> bool {
    let (held, result) = outcome;
    *result == Err(fault) && ANSWER.starts_with(held.as_slice())
}

/// How many bytes of the answer are written before a read of three bytes fails that has so many others before it: those of
/// the lines that were read.
fn written_before(reads: usize) -> usize {
    match reads {
        0..=11 => 0,
        12..=14 => 3,
        15..=18 => 164,
        19..=21 => 174,
        _ => ANSWER.len(),
    }
}

/// Whether a session answers all, however small the pieces are.
pub fn answers_all(alloc: Global) -> Result<bool, AllocError> {
    for piece in 1..200usize {
        if !is_whole(&talk(alloc, INPUT, piece, 100_000, 100_000)?) {
            return Ok(false);
        }
    }
    Ok(true)
}

/// Whether each read that fails is told, and each line before it is answered: none is read before the one ahead of it has its
/// answer.
pub fn each_read_fails(alloc: Global) -> Result<bool, AllocError> {
    for reads in 0..READS {
        let outcome = talk(alloc, INPUT, 3, reads, 100_000)?;
        if !is_cut(&outcome, SessionFault::ReadFault) || outcome.0.len() != written_before(reads) {
            return Ok(false);
        }
    }
    Ok(is_whole(&talk(alloc, INPUT, 3, READS, 100_000)?))
}

/// Whether each write that fails is told, and nothing is written behind it.
pub fn each_write_fails(alloc: Global) -> Result<bool, AllocError> {
    for writes in 0..WRITES {
        let outcome = talk(alloc, INPUT, 3, 100_000, writes)?;
        if !is_cut(&outcome, SessionFault::WriteFault) {
            return Ok(false);
        }
    }
    Ok(is_whole(&talk(alloc, INPUT, 3, 100_000, WRITES)?))
}

/// Serves an input with a limit, and gives what was written and how it ended.
fn serve_within(alloc: Global, input: &[u8], limit: usize) -> Result<Outcome, AllocError> {
    let mut reader = Pieces {
        rest: input,
        piece: 7,
        reads: 100_000,
    };
    let mut written = Vec::new(alloc);
    let mut core = Core::new(alloc)?;
    let result = serve(alloc, &mut reader, &mut written, &mut core, limit);
    Ok((written, result))
}

/// Whether these are the answers, and the end was this.
fn is_answer(outcome: &Outcome, answers: &[u8], end: &Result<(), SessionFault>) -> bool {
    let (held, result) = outcome;
    *result == *end && held.as_slice() == answers
}

/// Whether a line of 1,000 bytes is answered under a limit of as many, and one that is longer by a byte, with its end or without, is
/// none.
pub fn keeps_the_limit(alloc: Global) -> Result<bool, AllocError> {
    let mut input = Vec::from_slice(alloc, b"remove a\n")?;
    input.resize(1000, b'x')?;
    let at_limit = serve_within(alloc, input.as_slice(), 1000)?;
    let above = serve_within(alloc, input.as_slice(), 999)?;
    input.push(b'\n')?;
    let ended = serve_within(alloc, input.as_slice(), 1000)?;
    let too_long = Err(SessionFault::TooLong);
    Ok(
        is_answer(&at_limit, b"refused 4\nunknown\n", &Ok(()))
            && is_answer(&above, b"refused 4\n", &too_long)
            && is_answer(&ended, b"refused 4\n", &too_long),
    )
}

/// Whether a line with no end is none.
pub fn ends_an_endless_line(alloc: Global) -> Result<bool, AllocError> {
    let mut written = Vec::new(alloc);
    let mut core = Core::new(alloc)?;
    let result = serve(alloc, &mut Endless, &mut written, &mut core, 100_000);
    Ok(result == Err(SessionFault::TooLong) && written.is_empty())
}
