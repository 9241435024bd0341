//! A cache of lists that commands read again and again.
ghost use Rattle.std.specs.Prelude.{◌≡◌, IfOk};

use dg_bytes::{Bytes, Seq, TryCopy};
use dg_forms::elements_in;
use dg_shelf::{Reading, Shelf};
use std::alloc::{AllocError, Global};
use std::marker::Model;

/// From how many bytes on a list is kept with its elements: a shorter one is read as fast.
const LONG: usize = 64;

/// A text that was read as a list: the same text, with its elements beside it where it is the canonical text of a list. A
/// contract sees the text.
#[derive(Drop)]
pub struct Listing {
    text: Bytes,
}

impl Model for Listing {
    ghost use Rattle.std.specs.Prelude.{ℕ, List};

    ghost Value = { List ℕ };

    ghost view = { λ l. l.text };
}

impl Reading for Listing {
    ghost read_of = { λ text. text };

    fn read(alloc: Global, text: &[u8]) -> Result<Listing, AllocError> {
        if let Ok(elements) = elements_in(alloc, text)? {
            let list = Bytes::from_list(alloc, elements.as_slice())?;
            if list.is(text) {
                return Ok(Listing { text: list });
            }
        }
        let mut text = Bytes::from_slice(alloc, text)?;
        text.keep(alloc)?;
        Ok(Listing { text })
    }
}

/// The same text, with its elements beside it where these are kept.
pub fn with_elements(
    alloc: Global,
    lists: &mut Shelf<Listing>,
    text: Bytes,
) -> Result<Bytes, AllocError>
    ensures { IfOk result (λ b. b ≡ text) }
{
    if text.len() < LONG || text.elements().is_some() {
        return Ok(text);
    }
    let listing = lists.reading(alloc, &text)?;
    listing.text.copy(alloc)
}

/// Whether a command of this name reads a list.
fn reads_list(name: &Bytes) -> bool {
    name.is(b"lindex")
        || name.is(b"llength")
        || name.is(b"lrange")
        || name.is(b"lsearch")
        || name.is(b"join")
}

/// Whether one of the first words behind a name is long, and the command reads a list.
fn have_long_list(words: &[Bytes]) -> bool {
    match words {
        [name, first] => first.len() >= LONG && reads_list(name),
        [name, first, second, ..] => {
            (first.len() >= LONG || second.len() >= LONG) && reads_list(name)
        }
        _ => false,
    }
}

/// The words of a command. Where it reads a long list, that one has its elements beside it.
pub fn with_lists(
    alloc: Global,
    lists: &mut Shelf<Listing>,
    words: Seq<Bytes>,
) -> Result<Seq<Bytes>, AllocError>
    ensures { IfOk result (λ all. all ≡ words) }
{
    if !have_long_list(words.as_slice()) {
        return Ok(words);
    }
    let mut all = Seq::new(alloc);
    for word in words.into_vec() {
        all.push(with_elements(alloc, lists, word)?)?;
    }
    Ok(all)
}
