//! What a line of a session asks.
ghost use Rattle.std.specs.Prelude.{◌≡◌, ◌∷◌, [], map, IfOk, MatchOption};
ghost use Rattle.dg_session.specs.Request.{asked_by, fields_of, content_of, request_of};

use dg_bytes::{Bytes, Seq};
use hex::FromHexError;
use memchr::memchr;
use std::alloc::{AllocError, Global};
use std::fmt;

/// What a line of a session asks. A contract sees the bytes of a name and of a content as lists.
#[derive(Drop, PartialEq, Eq)]
pub enum Request {
    /// `put NAME HEX`: a file of this name holds these bytes.
    Put(Bytes, Bytes),
    /// `remove NAME`: there is no file of this name.
    Remove(Bytes),
    /// `transcript BOARD SCRIPT HEX`: these bytes are the transcript of this test.
    PutTranscript(Bytes, Bytes, Bytes),
    /// `drop BOARD SCRIPT`: there is no transcript of this test.
    DropTranscript(Bytes, Bytes),
    /// `select WORD..`: what these words of a command line select is run.
    Select(Seq<Bytes>),
    /// `report`: the report is asked for.
    Report,
    /// Any other line.
    Unknown,
}

impl fmt::Debug for Request {
    fn fmt<W: fmt::Write>(&self, f: &mut fmt::Formatter<W>) -> fmt::Result {
        match self {
            Request::Put(name, content) => write!(f, "put {name:?} {content:?}"),
            Request::Remove(name) => write!(f, "remove {name:?}"),
            Request::PutTranscript(board, script, text) => {
                write!(f, "transcript {board:?} {script:?} {text:?}")
            }
            Request::DropTranscript(board, script) => write!(f, "drop {board:?} {script:?}"),
            Request::Select(words) => {
                f.write_str("select")?;
                for word in words.as_slice() {
                    write!(f, " {word:?}")?;
                }
                Ok(())
            }
            Request::Report => f.write_str("report"),
            Request::Unknown => f.write_str("unknown"),
        }
    }
}

/// Cuts a text at its first space: what stands before it, and what stands behind it.
fn split_field(text: &[u8]) -> (&[u8], Option<&[u8]>)
    ensures { MatchOption result.1 (fields_of text.now ≡ result.0.now ∷ [])
        (λ rest. fields_of text.now ≡ result.0.now ∷ fields_of rest.now) }
{
    match memchr(b' ', text) {
        Some(at) => (&text[..at], Some(&text[at + 1..])),
        None => (text, None),
    }
}

/// The bytes that a field stands for: `-` for none, and else pairs of hexadecimal digits of either
/// case, one pair at least.
#[tactic(auto, unfolding(crate::specs::Request::content_of))]
fn read_content(alloc: Global, field: &[u8]) -> Result<Option<Bytes>, AllocError>
    ensures { IfOk result (λ content. content ≡ content_of field.now) }
{
    if field.is_empty() {
        return Ok(None);
    }
    if field == b"-".as_slice() {
        return Ok(Some(Bytes::new(alloc)));
    }
    match hex::decode(alloc, field) {
        Ok(bytes) => Ok(Some(Bytes::from_vec(bytes))),
        Err(FromHexError::OutOfMemory) => Err(AllocError),
        Err(_) => Ok(None),
    }
}

/// Reads a line of three fields: `put NAME HEX` or `drop BOARD SCRIPT`.
#[tactic(auto, unfolding(crate::specs::Request::asked_by))]
fn read_three(
    alloc: Global,
    word: &[u8],
    second: &[u8],
    third: &[u8],
) -> Result<Request, AllocError>
    ensures { IfOk result (λ request. request ≡ asked_by (word.now ∷ second.now ∷ third.now ∷ [])) }
{
    if word == b"put".as_slice() {
        return match read_content(alloc, third)? {
            Some(bytes) => Ok(Request::Put(Bytes::from_slice(alloc, second)?, bytes)),
            None => Ok(Request::Unknown),
        };
    }
    if word == b"drop".as_slice() {
        let board = Bytes::from_slice(alloc, second)?;
        return Ok(Request::DropTranscript(board, Bytes::from_slice(alloc, third)?));
    }
    Ok(Request::Unknown)
}

/// Reads a line of four fields: `transcript BOARD SCRIPT HEX`.
#[tactic(auto, unfolding(crate::specs::Request::asked_by))]
fn read_four(
    alloc: Global,
    word: &[u8],
    board: &[u8],
    script: &[u8],
    content: &[u8],
) -> Result<Request, AllocError>
    ensures { IfOk result (λ request. request ≡ asked_by (word.now ∷ board.now ∷ script.now ∷ content.now ∷ [])) }
{
    if word != b"transcript".as_slice() {
        return Ok(Request::Unknown);
    }
    match read_content(alloc, content)? {
        Some(text) => {
            let board = Bytes::from_slice(alloc, board)?;
            Ok(Request::PutTranscript(board, Bytes::from_slice(alloc, script)?, text))
        }
        None => Ok(Request::Unknown),
    }
}

/// What stands between the spaces of a text.
fn split_fields<'a>(alloc: Global, text: &'a [u8]) -> Result<Vec<&'a [u8]>, AllocError>
    ensures { IfOk result (λ fields. map (λ f. f.now) fields.items ≡ fields_of text.entry.now) }
{
    text.split(|b| *b == b' ').collect(alloc)
}

/// The words of a selection: what stands between the spaces of a text.
fn read_words(alloc: Global, text: &[u8]) -> Result<Seq<Bytes>, AllocError>
    ensures { IfOk result (λ words. words ≡ fields_of text.now) }
{
    let mut words = Seq::new(alloc);
    for field in &split_fields(alloc, text)? {
        words.push(Bytes::from_slice(alloc, field)?)?;
    }
    Ok(words)
}

/// Reads a line without its line feed: `put NAME HEX`, `remove NAME`, `transcript BOARD SCRIPT HEX`, `drop BOARD SCRIPT`,
/// `select WORD..` or `report`, whose fields are separated by single spaces. Any other line is unknown. A name is any bytes
/// but spaces, also none.
pub fn read_request(alloc: Global, line: &[u8]) -> Result<Request, AllocError>
    ensures { IfOk result (λ request. request ≡ request_of line.now) }
{
    let (word, rest) = split_field(line);
    if word != b"select".as_slice() {
        return read_known(alloc, line);
    }
    match rest {
        Some(words) => Ok(Request::Select(read_words(alloc, words)?)),
        None => Ok(Request::Select(Seq::new(alloc))),
    }
}

/// Reads a line without its line feed that doesn't select.
#[tactic(auto, unfolding(crate::specs::Request::asked_by))]
fn read_known(alloc: Global, line: &[u8]) -> Result<Request, AllocError>
    ensures { IfOk result (λ request. request ≡ asked_by (fields_of line.now)) }
{
    let (word, rest) = split_field(line);
    let Some(rest) = rest else {
        if word == b"report".as_slice() {
            return Ok(Request::Report);
        }
        return Ok(Request::Unknown);
    };
    let (name, rest) = split_field(rest);
    let Some(rest) = rest else {
        if word == b"remove".as_slice() {
            return Ok(Request::Remove(Bytes::from_slice(alloc, name)?));
        }
        return Ok(Request::Unknown);
    };
    let (third, rest) = split_field(rest);
    let Some(rest) = rest else {
        return read_three(alloc, word, name, third);
    };
    let (content, rest) = split_field(rest);
    if let Some(_more) = rest {
        return Ok(Request::Unknown);
    }
    read_four(alloc, word, name, third, content)
}
