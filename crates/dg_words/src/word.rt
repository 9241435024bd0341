//! Words and their parts.
ghost use Rattle.std.specs.Prelude.{◌≡◌, ◌++◌, [], OnOk, OnErr};
ghost use Rattle.dg_words.specs.Parts.{pieces_of, pieces_of_part};

use dg_bytes::{Bytes, Seq};
use std::alloc::{AllocError, Global};
use std::marker::Model;

/// A part of a word: text, the value of a variable, the value of an element with the parts of its
/// index, or the value of a script.
#[cycle(parts)]
#[derive(Drop)]
pub enum Part {
    Text(Bytes),
    Variable(Bytes),
    Element(Bytes, Parts),
    Command(Bytes),
}

/// Parts in order. A contract sees the flat list of their pieces.
#[cycle(parts)]
#[derive(Drop)]
pub struct Parts {
    inner: Vec<Part>,
}

impl Model for Parts {
    ghost use Rattle.std.specs.Prelude.{List, length};
    ghost use Rattle.dg_words.specs.Piece.{Piece};

    ghost Value = { List Piece };

    ghost use Rattle.dg_words.specs.Parts.{pieces_of};

    ghost view = { λ p. pieces_of p.inner.items };

    ghost size = { length };

    ghost use Rattle.dg_words.specs.PartsFall.{deep_le-length-pieces_of};

    ghost size_decreases = { λ p h. deep_le-length-pieces_of p.inner.items };
}

/// A word of a command. Where `expand` holds its value is a list, whose elements become words
/// (the prefix `{*}` of Tcl(n)).
#[derive(Drop)]
pub struct Word {
    pub expand: bool,
    pub parts: Parts,
}

/// The words of one command, and the place behind it. There are no words at the end of the text.
#[derive(Drop)]
pub struct Parsed {
    pub words: Seq<Word>,
    pub next: usize,
}

impl Parts {
    /// No parts.
    pub fn new(alloc: Global) -> Parts
        ensures { result ≡ [] }
    {
        Parts {
            inner: Vec::new(alloc),
        }
    }

    /// The parts as a slice.
    pub fn as_slice(&self) -> &[Part]
        ensures { pieces_of result.now ≡ self.now }
    {
        self.inner.as_slice()
    }

    /// Adds a part at the end, or changes nothing.
    pub fn push(&mut self, part: Part) -> Result<(), AllocError>
        ensures ok { OnOk result (self.new ≡ self.old ++ pieces_of_part part) }
        ensures err { OnErr result (self.new ≡ self.old) }
    {
        self.inner.push(part)?;
        Ok(())
    }
}
