//! Indices of bytes and elements: a number, `end`, or `end-N`.
ghost use Rattle.std.specs.Prelude.{◌≡◌, ◌≤◌};
ghost use Rattle.dg_cmds.specs.Answers.{Gives};
ghost use Rattle.dg_cmds.specs.Indices.{before, from_end, index_of, part_of, read_index, through};

use crate::answer::fail_about;
use crate::fault::CmdFault;
use dg_bytes::Bytes;
use dg_expr::number;
use std::alloc::Global;

/// An index, counted from the first element on or from the last one back.
#[derive(Clone, Copy)]
pub(crate) enum Index {
    FromStart(i64),
    FromEnd(i64),
}

impl Index {
    /// How many of so many elements stand before it.
    pub(crate) fn before(self, count: usize) -> usize
        ensures value { result ≡ before self count }
        ensures bound { result ≤ count }
    {
        match self {
            Index::FromStart(n) if n < 0 => 0,
            Index::FromStart(n) => (n as usize).min(count),
            Index::FromEnd(n) if n < 0 => count,
            Index::FromEnd(n) => count.saturating_sub(n as usize).saturating_sub(1),
        }
    }

    /// How many of so many elements stand up to it.
    pub(crate) fn through(self, count: usize) -> usize
        ensures value { result ≡ through self count }
        ensures bound { result ≤ count }
    {
        match self {
            Index::FromStart(n) if n < 0 => 0,
            Index::FromStart(n) => (n as usize + 1).min(count),
            Index::FromEnd(n) if n < 0 => count,
            Index::FromEnd(n) => count.saturating_sub(n as usize),
        }
    }
}

/// `end` or `end-N`.
fn from_end(text: &[u8]) -> Option<Index>
    ensures { result ≡ from_end text.now }
{
    match text {
        [b'e', b'n', b'd'] => Some(Index::FromEnd(0)),
        [b'e', b'n', b'd', b'-', rest @ ..] => number(rest).map(Index::FromEnd),
        _ => None,
    }
}

/// The index that a text is.
fn index_of(text: &[u8]) -> Option<Index>
    ensures { result ≡ index_of text.now }
{
    match number(text) {
        Some(n) => Some(Index::FromStart(n)),
        None => from_end(text),
    }
}

/// The index that a word is, or the script error of a word that is none.
pub(crate) fn read_index(alloc: Global, word: &Bytes) -> Result<Index, CmdFault>
    ensures { Gives result (read_index word.now) }
{
    match index_of(word.as_slice()) {
        Some(index) => Ok(index),
        None => fail_about(alloc, b"bad index ", word.as_slice()),
    }
}

/// The elements from one index to another, as far as there are any.
pub(crate) fn part<T>(items: &[T], first: Index, last: Index) -> &[T]
    ensures { result.now ≡ part_of first last items.now }
{
    let start = first.before(items.len());
    let end = last.through(items.len());
    if start < end { &items[start..end] } else { &[] }
}
