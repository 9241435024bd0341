//! Entries as rows spell them: as the lines of a transcript, with `; ` between them. Before an entry of another session than the first
//! stand its number and a colon.
use crate::parts::{cut, parts};
use anyhow::{Result, bail};
use dg_bytes::Bytes;
use dg_gate::{Ended, Piece, Reply};
use dg_transcript::ErrorCode;
use std::alloc::{AllocError, Global};
use std::collections::VecDeque;
use std::str;

/// The most sessions of a test.
const SESSIONS: u32 = 64;

/// The number that a field spells.
fn number(field: &[u8]) -> Result<u32> {
    Ok(str::from_utf8(field)?.parse::<u32>()?)
}

/// The status or the signal that a field spells.
fn small(field: &[u8]) -> Result<u8> {
    Ok(str::from_utf8(field)?.parse::<u8>()?)
}

/// The code of a number.
pub fn code(number: u32) -> ErrorCode {
    match number {
        1 => ErrorCode::NotFound,
        2 => ErrorCode::NotPermitted,
        3 => ErrorCode::BrokenPipe,
        _ => ErrorCode::Other,
    }
}

/// The answer of a gate that makes an entry.
pub fn reply(alloc: Global, entry: &[u8]) -> Result<Reply> {
    let (kind, fields) = cut(entry);
    let (first, second) = cut(fields);
    Ok(match kind {
        b"started" => Reply::Started,
        b"sent" => Reply::Sent,
        b"chunk" => {
            let bytes = Bytes::from_vec(hex::decode(alloc, second)?);
            Reply::Piece(Piece::Chunk(number(first)?, bytes))
        }
        b"end" => Reply::Piece(Piece::End(number(first)?)),
        b"silence" => Reply::Piece(Piece::Silence),
        b"closed" => Reply::Closed,
        b"exited" => Reply::Ended(Ended::Exited(small(first)?)),
        b"killed" => Reply::Ended(Ended::Killed(small(first)?)),
        b"nostart" | b"nosend" | b"noread" | b"noclose" | b"nowait" => {
            Reply::Failed(code(number(first)?))
        }
        _ => bail!("no such entry"),
    })
}

/// An entry, and the number of its session.
#[derive(Clone, Copy)]
pub struct Spelled<'a> {
    session: u32,
    line: &'a [u8],
}

/// The entry that is spelled here.
fn entry(spelled: &[u8]) -> Result<Spelled<'_>> {
    match spelled.split_at_checked(2) {
        Some(([digit, b':'], line)) => Ok(Spelled {
            session: number(&[*digit])?,
            line,
        }),
        _ => Ok(Spelled {
            session: 1,
            line: spelled,
        }),
    }
}

/// The entries of a row.
pub fn entries<'a>(alloc: Global, text: &'a [u8]) -> Result<Vec<Spelled<'a>>> {
    let mut entries = Vec::new(alloc);
    for piece in &parts(alloc, text, b';')? {
        entries.push(entry(piece.trim_ascii())?)?;
    }
    Ok(entries)
}

/// The answers that make these entries.
pub fn replies(alloc: Global, entries: &[Spelled<'_>]) -> Result<VecDeque<Reply>> {
    let mut replies = VecDeque::new(alloc);
    for entry in entries {
        replies.push_back(reply(alloc, entry.line)?)?;
    }
    Ok(replies)
}

/// Adds what a transcript tells of a session, if it has entries.
fn add_session(
    alloc: Global,
    text: &mut Vec<u8>,
    session: u32,
    entries: &[Spelled<'_>],
) -> Result<(), AllocError> {
    let mut begun = false;
    for entry in entries {
        if entry.session != session {
            continue;
        }
        if !begun {
            text.extend_from_slice(format!(in alloc; "session {session}\n")?.as_bytes())?;
            begun = true;
        }
        text.extend_from_slice(entry.line)?;
        text.push(b'\n')?;
    }
    Ok(())
}

/// The text of a transcript with these entries.
pub fn transcript(alloc: Global, entries: &[Spelled<'_>]) -> Result<Vec<u8>, AllocError> {
    let mut text = Vec::from_slice(alloc, b"dejagnu-transcript 1\n")?;
    for session in 1..=SESSIONS {
        add_session(alloc, &mut text, session, entries)?;
    }
    text.extend_from_slice(b"done\n")?;
    Ok(text)
}
