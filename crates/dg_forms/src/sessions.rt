//! The words and the messages of spawn, send, close, wait and match_max, by expect(1).
ghost use Rattle.std.specs.Prelude.{◌≡◌, ◌++◌, ◌≤◌, codes, decimal, length, IfOk, MatchResult, None, Ok, Err, false};
ghost use Rattle.std.specs.Option.{option_copied};
ghost use Rattle.dg_sessions.specs.Views.{id_of};
ghost use Rattle.dg_language.specs.SessionWords.{bad_flag, id_words, match_words, send_words, sent_text, spawn_words};
ghost use Rattle.dg_language.specs.Sessions.{cannot_execute, end_text, kept_limit, not_open};

use crate::arguments::{copied_text, split};
use crate::messages::{joined, with_number, with_quoted, wrong_count};
use crate::switch::{is, is_flag};
use dg_bytes::{Bytes, TryCopy};
use dg_expr::number;
use dg_transcript::Entry;
use std::alloc::{AllocError, Global};

/// The message of a flag that a command doesn't have.
pub(crate) fn bad_flag(alloc: Global, flag: &Bytes) -> Result<Bytes, AllocError>
    ensures { IfOk result (λ b. b ≡ bad_flag flag.now) }
{
    with_quoted(alloc, b"bad flag ", flag.as_slice())
}

/// The name of a session in scripts.
#[tactic(auto, using(dg_sessions::proofs::IdLemmas::id_short))]
pub fn session_id(alloc: Global, number: u32) -> Result<Bytes, AllocError>
    ensures value { IfOk result (λ id. id ≡ id_of number) }
    ensures short { IfOk result (λ id. length id ≤ 13) }
{
    let id = with_number(alloc, b"exp", number)?;
    Ok(id)
}

/// The message of a session that is not fit for a call.
pub fn not_open(alloc: Global, id: &[u8]) -> Result<Bytes, AllocError>
    ensures { IfOk result (λ b. b ≡ not_open id.now) }
{
    joined(alloc, b"spawn id ", id, b" not open")
}

/// The message of a program that could not be started.
pub fn cannot_execute(alloc: Global, program: &[u8]) -> Result<Bytes, AllocError>
    ensures { IfOk result (λ b. b ≡ cannot_execute program.now) }
{
    with_quoted(alloc, b"couldn't execute ", program)
}

/// The words that `spawn` starts a child by, or the message of a bad flag or of a wrong count.
#[tactic(auto, unfolding(dg_language::specs::SessionWords::spawn_words))]
pub fn spawn_words(alloc: Global, args: &[Bytes]) -> Result<Result<&[Bytes], Bytes>, AllocError>
    ensures { IfOk result
        (λ r. MatchResult r (λ words. spawn_words args.now ≡ Ok words.now) (λ why. spawn_words args.now ≡ Err why)) }
{
    let mut left = args;
    'flags: loop {
        let Some((word, others)) = split(left) else {
            return Ok(Err(wrong_count(alloc, b"spawn")?));
        };
        if !is_flag(word) {
            return Ok(Ok(left));
        }
        if !is(word, b"-noecho") {
            return Ok(Err(bad_flag(alloc, word)?));
        }
        left = others;
    }
}

/// The text that `send` sends, behind its flags.
fn sent_text(
    alloc: Global,
    id: Option<&Bytes>,
    left: &[Bytes],
) -> Result<Result<(Option<Bytes>, Bytes), Bytes>, AllocError>
    ensures { IfOk result (λ r. r ≡ sent_text (option_copied id.entry) left.now) }
{
    match left {
        [text] => Ok(Ok((copied_text(alloc, id)?, text.copy(alloc)?))),
        _ => Ok(Err(wrong_count(alloc, b"send")?)),
    }
}

/// The id that `send` is given, and the text that it sends, or the message of a bad flag or of a
/// wrong count.
#[tactic(auto, unfolding(dg_language::specs::SessionWords::send_words))]
pub fn send_words(
    alloc: Global,
    args: &[Bytes],
) -> Result<Result<(Option<Bytes>, Bytes), Bytes>, AllocError>
    ensures { IfOk result (λ r. r ≡ send_words None args.now) }
{
    let mut id = None;
    let mut left = args;
    'flags: loop {
        let Some((word, behind)) = split(left) else {
            return Ok(Err(wrong_count(alloc, b"send")?));
        };
        if !is_flag(word) {
            return sent_text(alloc, id, left);
        }
        if is(word, b"--") {
            return sent_text(alloc, id, behind);
        }
        if !is(word, b"-i") {
            return Ok(Err(bad_flag(alloc, word)?));
        }
        let Some((value, others)) = split(behind) else {
            return Ok(Err(wrong_count(alloc, b"send")?));
        };
        id = Some(value);
        left = others;
    }
}

/// The id that `close` or `wait` is given, if it is, or the message of a bad flag or of a wrong
/// count.
#[tactic(auto, unfolding(dg_language::specs::SessionWords::id_words))]
pub fn id_words(
    alloc: Global,
    name: &[u8],
    args: &[Bytes],
) -> Result<Result<Option<Bytes>, Bytes>, AllocError>
    ensures { IfOk result (λ r. r ≡ id_words name.now None args.now) }
{
    let mut id = None;
    let mut left = args;
    'flags: loop {
        let Some((word, behind)) = split(left) else {
            return Ok(Ok(copied_text(alloc, id)?));
        };
        if !is_flag(word) {
            return Ok(Err(wrong_count(alloc, name)?));
        }
        if !is(word, b"-i") {
            return Ok(Err(bad_flag(alloc, word)?));
        }
        let Some((value, others)) = split(behind) else {
            return Ok(Err(wrong_count(alloc, name)?));
        };
        id = Some(value);
        left = others;
    }
}

/// Whether `match_max` is about later sessions, and the number that it is given, if it is; or the
/// message of a bad flag or of a wrong count.
#[tactic(auto, unfolding(dg_language::specs::SessionWords::match_words))]
pub fn match_words(
    alloc: Global,
    args: &[Bytes],
) -> Result<Result<(bool, Option<Bytes>), Bytes>, AllocError>
    ensures { IfOk result (λ r. r ≡ match_words false args.now) }
{
    let mut later = false;
    let mut left = args;
    'flags: loop {
        let Some((word, others)) = split(left) else {
            return Ok(Ok((later, None)));
        };
        if !is_flag(word) {
            if !others.is_empty() {
                return Ok(Err(wrong_count(alloc, b"match_max")?));
            }
            return Ok(Ok((later, Some(word.copy(alloc)?))));
        }
        if !is(word, b"-d") {
            return Ok(Err(bad_flag(alloc, word)?));
        }
        later = true;
        left = others;
    }
}

/// How many bytes a session is to keep, from 1 to 65,536, if the text is such a number.
#[tactic(auto, unfolding(dg_language::specs::Sessions::kept_limit))]
pub fn kept_limit(text: &[u8]) -> Option<usize>
    ensures { result ≡ kept_limit text.now }
{
    let n = number(text)?;
    if n >= 1 && n <= 65_536 {
        Some(n as usize)
    } else {
        None
    }
}

/// How a child ended that a signal has killed.
#[tactic(auto, using(std::proofs::Common::append_assoc))]
fn killed_text(alloc: Global, signal: u32) -> Result<Bytes, AllocError>
    ensures { IfOk result (λ b. b ≡ codes " 0 0 CHILDKILLED SIG" ++ (decimal signal ++ codes " signal")) }
{
    let mut text = with_number(alloc, b" 0 0 CHILDKILLED SIG", signal)?;
    text.extend(b" signal")?;
    Ok(text)
}

/// How a child ended, as `wait` tells it behind its session's name.
fn end_text(alloc: Global, entry: &Entry) -> Result<Bytes, AllocError>
    ensures { IfOk result (λ b. b ≡ end_text entry.now) }
{
    match entry {
        Entry::Exited(status) => with_number(alloc, b" 0 ", u32::from(*status)),
        Entry::Killed(signal) => killed_text(alloc, u32::from(*signal)),
        Entry::NoWait(code) => with_number(alloc, b" -1 ", u32::from(code.number())),
        _ => Ok(Bytes::new(alloc)),
    }
}

/// The value of `wait`, of a session's name and the entry of its child's end.
pub fn wait_value(alloc: Global, id: &[u8], entry: &Entry) -> Result<Bytes, AllocError>
    ensures { IfOk result (λ b. b ≡ codes "0 " ++ (id.now ++ end_text entry.now)) }
{
    let end = end_text(alloc, entry)?;
    let value = joined(alloc, b"0 ", id, end.as_slice())?;
    Ok(value)
}
