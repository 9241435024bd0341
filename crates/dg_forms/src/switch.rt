//! The pairs of `switch`, and the body that it takes.
ghost use Rattle.std.specs.Prelude.{◌≡◌, IfOk, MatchOption, Some, None};
ghost use Rattle.dg_language.specs.Switching.{among, behind_kind, body_for, first_body, flag_in, is_flag, last_fault, matching_of, pairs_fault, switched, taken, takes};
ghost use Rattle.dg_bytes.specs.Same.{same_bytes};

use crate::arguments::split;
use crate::elements::Elements;
use crate::messages::{with_quoted, wrong_count};
use dg_bytes::{Bytes, TryCopy};
use dg_cmds::glob_matches;
use dg_language::Matching;
use dg_shelf::Shelf;
use std::alloc::{AllocError, Global};

/// Whether a word is this one.
pub(crate) fn is(text: &Bytes, word: &[u8]) -> bool
    ensures { result ≡ same_bytes text.now word.now }
{
    text.as_slice() == word
}

/// Whether a pattern takes a text: `default` takes each where no pair comes behind it.
fn takes(matching: Matching, text: &Bytes, pattern: &Bytes, others: &[Bytes]) -> bool
    ensures { result ≡ takes matching text.now pattern.now others.now }
{
    if others.is_empty() && is(pattern, b"default") {
        return true;
    }
    match matching {
        Matching::Exact => is(pattern, text.as_slice()),
        Matching::Glob => glob_matches(pattern.as_slice(), text.as_slice()),
    }
}

/// The first body in words of which every other is a pattern. `-` is none.
#[tactic(auto, unfolding(dg_language::specs::Switching::first_body))]
fn first_body(words: &[Bytes]) -> Option<&Bytes>
    ensures { MatchOption result (first_body words.now ≡ None) (λ b. first_body words.now ≡ Some b.now) }
{
    let mut left = words;
    'bodies: loop {
        let (body, behind) = split(left)?;
        let Some((_, others)) = split(behind) else {
            return Some(body);
        };
        if !is(body, b"-") {
            return Some(body);
        }
        left = others;
    }
}

/// The body of the first pattern that takes the text.
#[tactic(auto, unfolding(dg_language::specs::Switching::body_for))]
fn body_for<'a>(matching: Matching, text: &Bytes, pairs: &'a [Bytes]) -> Option<&'a Bytes>
    ensures { MatchOption result (body_for matching text.now pairs.now ≡ None)
        (λ b. body_for matching text.now pairs.now ≡ Some b.now) }
{
    let mut left = pairs;
    'pairs: loop {
        let (pattern, behind) = split(left)?;
        let (_, others) = split(behind)?;
        if takes(matching, text, pattern, others) {
            return first_body(behind);
        }
        left = others;
    }
}

/// Why the last pair is none.
fn last_fault(alloc: Global, pattern: &Bytes, body: &Bytes) -> Result<Option<Bytes>, AllocError>
    ensures { IfOk result (λ r. r ≡ last_fault pattern.now body.now) }
{
    if !is(body, b"-") {
        return Ok(None);
    }
    let message = with_quoted(alloc, b"no body specified for pattern ", pattern.as_slice())?;
    Ok(Some(message))
}

/// Why words are no pairs of a pattern and a body, if they are none.
#[tactic(auto, unfolding(dg_language::specs::Switching::pairs_fault))]
fn pairs_fault(alloc: Global, pairs: &[Bytes]) -> Result<Option<Bytes>, AllocError>
    ensures { IfOk result (λ r. r ≡ pairs_fault pairs.now) }
{
    let mut left = pairs;
    'pairs: loop {
        let Some((pattern, behind)) = split(left) else {
            return Ok(Some(wrong_count(alloc, b"switch")?));
        };
        let Some((body, others)) = split(behind) else {
            let message = Bytes::from_slice(alloc, b"extra switch pattern with no body")?;
            return Ok(Some(message));
        };
        if others.is_empty() {
            return last_fault(alloc, pattern, body);
        }
        left = others;
    }
}

/// The body that is taken of these pairs, if one is.
fn among(
    alloc: Global,
    matching: Matching,
    text: &Bytes,
    pairs: &[Bytes],
) -> Result<Result<Option<Bytes>, Bytes>, AllocError>
    ensures { IfOk result (λ r. r ≡ among matching text.now pairs.now) }
{
    if let Some(why) = pairs_fault(alloc, pairs)? {
        return Ok(Err(why));
    }
    match body_for(matching, text, pairs) {
        Some(body) => Ok(Ok(Some(body.copy(alloc)?))),
        None => Ok(Ok(None)),
    }
}

/// The body that is taken for a text, with the pairs as one list or as words behind it.
fn taken(
    alloc: Global,
    lists: &mut Shelf<Elements>,
    matching: Matching,
    args: &[Bytes],
) -> Result<Result<Option<Bytes>, Bytes>, AllocError>
    ensures { IfOk result (λ r. r ≡ taken matching args.now) }
{
    let Some((text, pairs)) = split(args) else {
        return Ok(Err(wrong_count(alloc, b"switch")?));
    };
    let Some((first, others)) = split(pairs) else {
        return Ok(Err(wrong_count(alloc, b"switch")?));
    };
    if !others.is_empty() {
        return among(alloc, matching, text, pairs);
    }
    let elements = lists.reading(alloc, first)?;
    match elements.get() {
        Ok(pairs) => among(alloc, matching, text, pairs),
        Err(message) => Ok(Err(message.copy(alloc)?)),
    }
}

/// Whether a word begins as a flag does.
pub(crate) fn is_flag(word: &Bytes) -> bool
    ensures { result ≡ is_flag word.now }
{
    match word.as_slice() {
        [first, ..] => *first == b'-',
        [] => false,
    }
}

/// The flag that words begin with, and the words behind it. The last two words are no flags.
fn flag_in(args: &[Bytes]) -> Option<(&Bytes, &[Bytes])>
    ensures { MatchOption result (flag_in args.now ≡ None) (λ f. flag_in args.now ≡ Some (f.0.now, f.1.now)) }
{
    let (flag, others) = split(args)?;
    if others.len() < 2 || !is_flag(flag) {
        return None;
    }
    Some((flag, others))
}

/// The kind of matching that a flag names.
fn matching_of(flag: &Bytes) -> Option<Matching>
    ensures { result ≡ matching_of flag.now }
{
    if is(flag, b"-exact") {
        Some(Matching::Exact)
    } else if is(flag, b"-glob") {
        Some(Matching::Glob)
    } else {
        None
    }
}

/// The body that is taken, once the kind of matching is known: only `--` may come before the text.
fn behind_kind(
    alloc: Global,
    lists: &mut Shelf<Elements>,
    matching: Matching,
    args: &[Bytes],
) -> Result<Result<Option<Bytes>, Bytes>, AllocError>
    ensures { IfOk result (λ r. r ≡ behind_kind matching args.now (flag_in args.now)) }
{
    let Some((flag, others)) = flag_in(args) else {
        return taken(alloc, lists, matching, args);
    };
    if is(flag, b"--") {
        return taken(alloc, lists, matching, others);
    }
    let message = with_quoted(alloc, b"bad flag ", flag.as_slice())?;
    Ok(Err(message))
}

/// The body that `switch` takes of these words, if it takes one, or the message of their fault: by switch(n), a wrong count of
/// words, a bad flag, a list that can't be read, a pattern without a body. A list that is kept isn't read again.
#[tactic(auto, unfolding(dg_language::specs::Switching::switched))]
pub fn switched(
    alloc: Global,
    lists: &mut Shelf<Elements>,
    args: &[Bytes],
) -> Result<Result<Option<Bytes>, Bytes>, AllocError>
    ensures { IfOk result (λ r. r ≡ switched args.now) }
{
    let Some((flag, others)) = flag_in(args) else {
        return taken(alloc, lists, Matching::Exact, args);
    };
    match matching_of(flag) {
        Some(matching) => behind_kind(alloc, lists, matching, others),
        None => behind_kind(alloc, lists, Matching::Exact, args),
    }
}
