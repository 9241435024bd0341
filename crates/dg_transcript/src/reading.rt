//! What a line says, read on its own.
ghost use Rattle.std.specs.Prelude.{option_copied};
ghost use Rattle.dg_transcript.specs.Fields.{Parses, within, line_by, read_line};
ghost use Rattle.dg_transcript.specs.Spaced.{behind};

use crate::cause::Cause;
use crate::entry::Entry;
use crate::fields::{
    bytes_of, code_of, first_field, no_field, number_of, only_field, split, within, words_of,
};
use crate::limits::{MAX_CHUNK, MAX_SENT, MAX_WAIT};
use crate::line::{Kind, Line};
use std::alloc::Global;

fn wait_of(text: &[u8]) -> Result<u32, Cause>
    ensures { Parses (λ n. n) result (within 0 3600000 text.now) }
{
    within(0, MAX_WAIT, text)
}

// A session begins.
#[tactic(auto, unfolding(crate::specs::Fields::line_by))]
fn session(fields: Option<&[u8]>) -> Result<Line, Cause>
    ensures { Parses (λ l. l) result (line_by Kind.Session (behind (option_copied fields.entry))) }
{
    let number = number_of(only_field(fields)?)?;
    Ok(Line::Session(number))
}

// A start by the words behind it.
#[tactic(auto, unfolding(crate::specs::Fields::line_by))]
fn started(alloc: Global, fields: Option<&[u8]>) -> Result<Line, Cause>
    ensures { Parses (λ l. l) result (line_by Kind.Started (behind (option_copied fields.entry))) }
{
    let words = words_of(alloc, fields)?;
    Ok(Line::Said(Entry::Started(words)))
}

// A start that failed: a code, and the words.
#[tactic(auto, unfolding(crate::specs::Fields::line_by))]
fn no_start(alloc: Global, fields: Option<&[u8]>) -> Result<Line, Cause>
    ensures { Parses (λ l. l) result (line_by Kind.NoStart (behind (option_copied fields.entry))) }
{
    let (code, words) = first_field(fields)?;
    let code = code_of(code)?;
    let words = words_of(alloc, words)?;
    Ok(Line::Said(Entry::NoStart(code, words)))
}

// Bytes that were sent.
#[tactic(auto, unfolding(crate::specs::Fields::line_by))]
fn sent(alloc: Global, fields: Option<&[u8]>) -> Result<Line, Cause>
    ensures { Parses (λ l. l) result (line_by Kind.Sent (behind (option_copied fields.entry))) }
{
    let bytes = bytes_of(alloc, MAX_SENT, only_field(fields)?)?;
    Ok(Line::Said(Entry::Sent(bytes)))
}

// Bytes that could not be sent, behind a code.
#[tactic(auto, unfolding(crate::specs::Fields::line_by))]
fn no_send(alloc: Global, fields: Option<&[u8]>) -> Result<Line, Cause>
    ensures { Parses (λ l. l) result (line_by Kind.NoSend (behind (option_copied fields.entry))) }
{
    let (code, bytes) = first_field(fields)?;
    let code = code_of(code)?;
    let bytes = bytes_of(alloc, MAX_SENT, only_field(bytes)?)?;
    Ok(Line::Said(Entry::NoSend(code, bytes)))
}

// Bytes that came, behind the wait for them.
#[tactic(auto, unfolding(crate::specs::Fields::line_by))]
fn chunk(alloc: Global, fields: Option<&[u8]>) -> Result<Line, Cause>
    ensures { Parses (λ l. l) result (line_by Kind.Chunk (behind (option_copied fields.entry))) }
{
    let (wait, bytes) = first_field(fields)?;
    let wait = wait_of(wait)?;
    let bytes = bytes_of(alloc, MAX_CHUNK, only_field(bytes)?)?;
    Ok(Line::Said(Entry::Chunk(wait, bytes)))
}

// The end of the output, after a wait.
#[tactic(auto, unfolding(crate::specs::Fields::line_by))]
fn end(fields: Option<&[u8]>) -> Result<Line, Cause>
    ensures { Parses (λ l. l) result (line_by Kind.End (behind (option_copied fields.entry))) }
{
    let wait = wait_of(only_field(fields)?)?;
    Ok(Line::Said(Entry::End(wait)))
}

// A read that failed.
#[tactic(auto, unfolding(crate::specs::Fields::line_by))]
fn no_read(fields: Option<&[u8]>) -> Result<Line, Cause>
    ensures { Parses (λ l. l) result (line_by Kind.NoRead (behind (option_copied fields.entry))) }
{
    let code = code_of(only_field(fields)?)?;
    Ok(Line::Said(Entry::NoRead(code)))
}

// A wait in which nothing came.
#[tactic(auto, unfolding(crate::specs::Fields::line_by))]
fn silence(fields: Option<&[u8]>) -> Result<Line, Cause>
    ensures { Parses (λ l. l) result (line_by Kind.Silence (behind (option_copied fields.entry))) }
{
    let wait = wait_of(only_field(fields)?)?;
    Ok(Line::Said(Entry::Silence(wait)))
}

// A session that was closed.
#[tactic(auto, unfolding(crate::specs::Fields::line_by))]
fn closed(fields: Option<&[u8]>) -> Result<Line, Cause>
    ensures { Parses (λ l. l) result (line_by Kind.Closed (behind (option_copied fields.entry))) }
{
    no_field(fields)?;
    Ok(Line::Said(Entry::Closed))
}

// A session that could not be closed.
#[tactic(auto, unfolding(crate::specs::Fields::line_by))]
fn no_close(fields: Option<&[u8]>) -> Result<Line, Cause>
    ensures { Parses (λ l. l) result (line_by Kind.NoClose (behind (option_copied fields.entry))) }
{
    let code = code_of(only_field(fields)?)?;
    Ok(Line::Said(Entry::NoClose(code)))
}

// The status with which a child ended.
#[tactic(auto, unfolding(crate::specs::Fields::line_by))]
fn exited(fields: Option<&[u8]>) -> Result<Line, Cause>
    ensures { Parses (λ l. l) result (line_by Kind.Exited (behind (option_copied fields.entry))) }
{
    let status = status_of(only_field(fields)?)?;
    Ok(Line::Said(Entry::Exited(status)))
}

// The signal by which it was killed.
#[tactic(auto, unfolding(crate::specs::Fields::line_by))]
fn killed(fields: Option<&[u8]>) -> Result<Line, Cause>
    ensures { Parses (λ l. l) result (line_by Kind.Killed (behind (option_copied fields.entry))) }
{
    let signal = signal_of(only_field(fields)?)?;
    Ok(Line::Said(Entry::Killed(signal)))
}

// A child that could not be waited for.
#[tactic(auto, unfolding(crate::specs::Fields::line_by))]
fn no_wait(fields: Option<&[u8]>) -> Result<Line, Cause>
    ensures { Parses (λ l. l) result (line_by Kind.NoWait (behind (option_copied fields.entry))) }
{
    let code = code_of(only_field(fields)?)?;
    Ok(Line::Said(Entry::NoWait(code)))
}

// The last line.
#[tactic(auto, unfolding(crate::specs::Fields::line_by))]
fn done(fields: Option<&[u8]>) -> Result<Line, Cause>
    ensures { Parses (λ l. l) result (line_by Kind.Done (behind (option_copied fields.entry))) }
{
    no_field(fields)?;
    Ok(Line::Done)
}

// The line of a kind, from the fields behind its first word.
fn line_by(alloc: Global, kind: Kind, fields: Option<&[u8]>) -> Result<Line, Cause>
    ensures { Parses (λ l. l) result (line_by kind (behind (option_copied fields.entry))) }
{
    match kind {
        Kind::Session => session(fields),
        Kind::Started => started(alloc, fields),
        Kind::NoStart => no_start(alloc, fields),
        Kind::Sent => sent(alloc, fields),
        Kind::NoSend => no_send(alloc, fields),
        Kind::Chunk => chunk(alloc, fields),
        Kind::End => end(fields),
        Kind::NoRead => no_read(fields),
        Kind::Silence => silence(fields),
        Kind::Closed => closed(fields),
        Kind::NoClose => no_close(fields),
        Kind::Exited => exited(fields),
        Kind::Killed => killed(fields),
        Kind::NoWait => no_wait(fields),
        Kind::Done => done(fields),
    }
}

#[tactic(auto, unfolding(crate::specs::Fields::within))]
fn status_of(text: &[u8]) -> Result<u8, Cause>
    ensures { Parses (λ n. n) result (within 0 255 text.now) }
{
    let status = within(0, 255, text)?;
    Ok(status as u8)
}

#[tactic(auto, unfolding(crate::specs::Fields::within))]
fn signal_of(text: &[u8]) -> Result<u8, Cause>
    ensures { Parses (λ n. n) result (within 1 127 text.now) }
{
    let signal = within(1, 127, text)?;
    Ok(signal as u8)
}

/// What a line says, without its newline.
#[tactic(auto, unfolding(crate::specs::Fields::line_from))]
pub(crate) fn read_line(alloc: Global, line: &[u8]) -> Result<Line, Cause>
    ensures { Parses (λ l. l) result (read_line line.now) }
{
    let (word, fields) = split(line);
    match Kind::named(word) {
        Some(kind) => line_by(alloc, kind, fields),
        None => Err(Cause::Kind),
    }
}
