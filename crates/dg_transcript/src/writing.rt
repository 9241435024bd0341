//! A transcript written as a text.
ghost use Rattle.std.specs.Prelude.{◌≡◌, ◌++◌, ◌∷◌, [], IfOk, OnOk, decimal, flat_map, map};
ghost use Rattle.std.specs.List.{join_with_byte};
ghost use Rattle.hex.specs.Hex.{encode_lower};
ghost use Rattle.dg_transcript.specs.Text.{code_number, word_field, entry_fields, line_text, text_of};
ghost use Rattle.dg_transcript.specs.declared.entry.Entry.TheVariants as entry;
ghost use Rattle.dg_transcript.specs.declared.line.Line.TheVariants as line;

use crate::code::ErrorCode;
use crate::entry::Entry;
use crate::transcript::Transcript;
use dg_bytes::{Bytes, Seq};
use std::alloc::{AllocError, Global};

fn push_field(out: &mut Bytes, field: &[u8]) -> Result<(), AllocError>
    ensures { OnOk result (out.new ≡ out.old ++ 32 ∷ field.now) }
{
    out.push(b' ')?;
    out.extend(field)
}

fn push_number(alloc: Global, out: &mut Bytes, number: u32) -> Result<(), AllocError>
    ensures { OnOk result (out.new ≡ out.old ++ 32 ∷ decimal number) }
{
    let digits = number.to_string(alloc)?;
    push_field(out, digits.as_bytes())
}

fn push_hex(alloc: Global, out: &mut Bytes, bytes: &Bytes) -> Result<(), AllocError>
    ensures { OnOk result (out.new ≡ out.old ++ 32 ∷ encode_lower bytes.now) }
{
    let digits = hex::encode(alloc, bytes.as_slice())?;
    push_field(out, digits.as_bytes())
}

fn push_word(alloc: Global, out: &mut Bytes, word: &Bytes) -> Result<(), AllocError>
    ensures { OnOk result (out.new ≡ out.old ++ 32 ∷ word_field word.now) }
{
    if word.is_empty() {
        push_field(out, b"-")
    } else {
        push_hex(alloc, out, word)
    }
}

fn push_words(alloc: Global, out: &mut Bytes, words: &Seq<Bytes>) -> Result<(), AllocError>
    ensures { OnOk result (out.new ≡ out.old ++ flat_map (λ w. 32 ∷ word_field w) words.now) }
{
    for word in words.as_slice() {
        push_word(alloc, out, word)?;
    }
    Ok(())
}

// The first word of a line, and a number.
fn push_numbered(alloc: Global, out: &mut Bytes, word: &[u8], number: u32) -> Result<(), AllocError>
    ensures { OnOk result (out.new ≡ out.old ++ join_with_byte 32 (word.now ∷ decimal number ∷ [])) }
{
    out.extend(word)?;
    push_number(alloc, out, number)
}

// The first word of a line, and a code.
fn push_coded(
    alloc: Global,
    out: &mut Bytes,
    word: &[u8],
    code: ErrorCode,
) -> Result<(), AllocError>
    ensures { OnOk result (out.new ≡ out.old ++ join_with_byte 32 (word.now ∷ decimal (code_number code) ∷ [])) }
{
    push_numbered(alloc, out, word, code.number().into())
}

// The first word of a line, a number, and bytes.
fn push_bytes(
    alloc: Global,
    out: &mut Bytes,
    word: &[u8],
    number: u32,
    bytes: &Bytes,
) -> Result<(), AllocError>
    ensures { OnOk result (out.new ≡ out.old ++ join_with_byte 32 (word.now ∷ decimal number ∷ encode_lower bytes.now ∷ [])) }
{
    push_numbered(alloc, out, word, number)?;
    push_hex(alloc, out, bytes)
}

// The line of bytes that were sent.
fn push_sent(alloc: Global, out: &mut Bytes, bytes: &Bytes) -> Result<(), AllocError>
    ensures { OnOk result (out.new ≡ out.old ++ join_with_byte 32 (entry_fields (entry.Sent bytes.now))) }
{
    out.extend(b"sent")?;
    push_hex(alloc, out, bytes)
}

// The line of a start.
fn push_started(alloc: Global, out: &mut Bytes, words: &Seq<Bytes>) -> Result<(), AllocError>
    ensures { OnOk result (out.new ≡ out.old ++ join_with_byte 32 (entry_fields (entry.Started words.now))) }
{
    out.extend(b"started")?;
    push_words(alloc, out, words)
}

// The line of a start that failed.
fn push_no_start(
    alloc: Global,
    out: &mut Bytes,
    code: ErrorCode,
    words: &Seq<Bytes>,
) -> Result<(), AllocError>
    ensures { OnOk result (out.new ≡ out.old ++ join_with_byte 32 (entry_fields (entry.NoStart code words.now))) }
{
    push_coded(alloc, out, b"nostart", code)?;
    push_words(alloc, out, words)
}

// The line of an entry, without its newline.
fn push_entry(alloc: Global, out: &mut Bytes, entry: &Entry) -> Result<(), AllocError>
    ensures { OnOk result (out.new ≡ out.old ++ join_with_byte 32 (entry_fields entry.now)) }
{
    match entry {
        Entry::Started(words) => push_started(alloc, out, words),
        Entry::NoStart(code, words) => push_no_start(alloc, out, *code, words),
        Entry::Sent(bytes) => push_sent(alloc, out, bytes),
        Entry::NoSend(code, bytes) => {
            push_bytes(alloc, out, b"nosend", code.number().into(), bytes)
        }
        Entry::Chunk(wait, bytes) => push_bytes(alloc, out, b"chunk", *wait, bytes),
        Entry::End(wait) => push_numbered(alloc, out, b"end", *wait),
        Entry::Silence(wait) => push_numbered(alloc, out, b"silence", *wait),
        Entry::Closed => out.extend(b"closed"),
        Entry::NoRead(code) => push_coded(alloc, out, b"noread", *code),
        Entry::NoClose(code) => push_coded(alloc, out, b"noclose", *code),
        Entry::NoWait(code) => push_coded(alloc, out, b"nowait", *code),
        Entry::Exited(status) => push_numbered(alloc, out, b"exited", (*status).into()),
        Entry::Killed(signal) => push_numbered(alloc, out, b"killed", (*signal).into()),
    }
}

fn push_session(
    alloc: Global,
    out: &mut Bytes,
    number: u32,
    entries: &[Entry],
) -> Result<(), AllocError>
    ensures { OnOk result (out.new ≡ out.old ++ (line_text (line.Session number) ++ flat_map line_text (map line.Said entries.now))) }
{
    out.extend(b"session")?;
    push_number(alloc, out, number)?;
    out.push(b'\n')?;
    for entry in entries {
        push_entry(alloc, out, entry)?;
        out.push(b'\n')?;
    }
    Ok(())
}

/// The text of a transcript, one line for each entry.
pub fn encode(alloc: Global, transcript: &Transcript) -> Result<Bytes, AllocError>
    ensures { IfOk result (λ text. text ≡ text_of transcript.now) }
{
    let mut out = Bytes::new(alloc);
    out.extend(b"dejagnu-transcript 1\n")?;
    let mut number = 0;
    for session in transcript.sessions() {
        number += 1;
        push_session(alloc, &mut out, number, session.as_slice())?;
    }
    out.extend(b"done\n")?;
    Ok(out)
}
