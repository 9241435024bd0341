//! The words of `regexp`, and the texts of what it has found, by regexp(n).
ghost use Rattle.std.specs.Prelude.{◌≡◌, ◌++◌, ◌∷◌, [], IfOk, OnOk};
ghost use Rattle.dg_match.specs.Hits.{LiesIn, hit_at};
ghost use Rattle.dg_language.specs.Expecting.{group_text};
ghost use Rattle.dg_language.specs.Matching.{parts_of, regexp_words, search_of};

use crate::arguments::split;
use crate::messages::wrong_count;
use crate::outputs::group_text;
use crate::sessions::bad_flag;
use crate::switch::{is, is_flag};
use dg_bytes::{Bytes, Seq, TryCopy};
use dg_language::Search;
use dg_match::Found;
use std::alloc::{AllocError, Global};

/// Adds a copy of a text.
fn push_copy(alloc: Global, list: &mut Seq<Bytes>, text: &[u8]) -> Result<(), AllocError>
    ensures { OnOk result (list.new ≡ list.old ++ text.now ∷ []) }
{
    list.push(Bytes::from_slice(alloc, text)?)?;
    Ok(())
}

/// Copies of words.
fn copied(alloc: Global, words: &[Bytes]) -> Result<Seq<Bytes>, AllocError>
    ensures { IfOk result (λ list. list ≡ words.now) }
{
    let mut list = Seq::new(alloc);
    for word in words {
        list.push(word.copy(alloc)?)?;
    }
    Ok(list)
}

/// The pattern, the text and the names behind the flags, or the message of a wrong count.
fn search_of(alloc: Global, words: &[Bytes]) -> Result<Result<Search, Bytes>, AllocError>
    ensures { IfOk result (λ r. r ≡ search_of words.now) }
{
    match words {
        [pattern, text, names @ ..] => Ok(Ok(Search {
            pattern: pattern.copy(alloc)?,
            text: text.copy(alloc)?,
            names: copied(alloc, names)?,
        })),
        _ => Ok(Err(wrong_count(alloc, b"regexp")?)),
    }
}

/// The words of `regexp`, or the message of a bad flag or of a wrong count.
pub fn regexp_words(alloc: Global, args: &[Bytes]) -> Result<Result<Search, Bytes>, AllocError>
    ensures { IfOk result (λ r. r ≡ regexp_words args.now) }
{
    let Some((word, others)) = split(args) else {
        return search_of(alloc, args);
    };
    if is(word, b"--") {
        return search_of(alloc, others);
    }
    if is_flag(word) {
        return Ok(Err(bad_flag(alloc, word)?));
    }
    search_of(alloc, args)
}

/// The texts of a match in a text: of all of it, and of each of its groups.
pub fn parts_of(alloc: Global, text: &[u8], found: &Found) -> Result<Seq<Bytes>, AllocError>
    requires { LiesIn text.now (hit_at 0 found.now) }
    ensures { IfOk result (λ parts. parts ≡ parts_of text.now found.now) }
{
    let mut parts = Seq::new(alloc);
    push_copy(alloc, &mut parts, &text[found.start..found.end])?;
    let groups = found.groups.as_slice();
    for group in groups {
        push_copy(alloc, &mut parts, group_text(text, group))?;
    }
    Ok(parts)
}
