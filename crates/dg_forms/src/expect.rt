//! The words of `expect`, and its pairs taken apart, by expect(1).
ghost use Rattle.std.specs.Prelude.{◌≡◌, ◌∷◌, ◌||◌, ◌==◌, ◌≤◌, length, IfOk, MatchResult, Err, None, Some, false, is_some, option_map};
ghost use Rattle.std.specs.Option.{option_copied};
ghost use Rattle.dg_expr.specs.Number.{number_of};
ghost use Rattle.dg_language.specs.ExpectWords.{awaited_as, awaited_by, expect_words, is_for_end, is_for_timeout, kind_named, leads_a_list, listed, one_word, only_pair, pair, pairs_of, pattern_in, regex_in, regexes_in, two_words, with_pair};
ghost use Rattle.dg_language.specs.Expecting.{action_at, first_action, milliseconds};

use crate::arguments::{copied_text, only, split};
use crate::messages::wrong_count;
use crate::sessions::bad_flag;
use crate::switch::{is, is_flag};
use dg_bytes::{Bytes, Seq, TryCopy};
use dg_expr::number;
use dg_language::{Awaited, Expectation, Pair, PatternKind};
use std::alloc::{AllocError, Global};

/// The kind that a flag gives to the pattern behind it.
fn kind_named(word: &Bytes) -> Option<PatternKind>
    ensures { result ≡ kind_named word.now }
{
    if is(word, b"-gl") {
        Some(PatternKind::Glob)
    } else if is(word, b"-ex") {
        Some(PatternKind::Exact)
    } else if is(word, b"-re") {
        Some(PatternKind::Regex)
    } else {
        None
    }
}

/// The wait of a pattern of this kind.
fn awaited_as(alloc: Global, kind: PatternKind, pattern: &Bytes) -> Result<Awaited, AllocError>
    ensures { IfOk result (λ a. a ≡ awaited_as kind pattern.now) }
{
    Ok(match kind {
        PatternKind::Glob => Awaited::Glob(pattern.copy(alloc)?),
        PatternKind::Exact => Awaited::Exact(pattern.copy(alloc)?),
        PatternKind::Regex => Awaited::Regex(pattern.copy(alloc)?),
    })
}

/// The wait of a word without a kind.
fn awaited_by(alloc: Global, word: &Bytes) -> Result<Awaited, AllocError>
    ensures { IfOk result (λ a. a ≡ awaited_by word.now) }
{
    if is(word, b"timeout") {
        return Ok(Awaited::Timeout);
    }
    if is(word, b"eof") {
        return Ok(Awaited::End);
    }
    if is(word, b"default") {
        return Ok(Awaited::Default);
    }
    Ok(Awaited::Glob(word.copy(alloc)?))
}

/// The last pair, where it is one word.
fn one_word(alloc: Global, word: &Bytes) -> Result<Result<Pair, Bytes>, AllocError>
    ensures { IfOk result (λ r. only_pair r ≡ one_word (kind_named word.now) word.now) }
{
    if kind_named(word).is_some() {
        return Ok(Err(wrong_count(alloc, b"expect")?));
    }
    if is_flag(word) {
        return Ok(Err(bad_flag(alloc, word)?));
    }
    Ok(Ok(Pair {
        awaited: awaited_by(alloc, word)?,
        action: None,
    }))
}

/// The last pair, where it is two words.
fn two_words(alloc: Global, word: &Bytes, next: &Bytes) -> Result<Result<Pair, Bytes>, AllocError>
    ensures { IfOk result (λ r. only_pair r ≡ two_words (kind_named word.now) word.now next.now) }
{
    if let Some(kind) = kind_named(word) {
        return Ok(Ok(Pair {
            awaited: awaited_as(alloc, kind, next)?,
            action: None,
        }));
    }
    if is_flag(word) {
        return Ok(Err(bad_flag(alloc, word)?));
    }
    Ok(Ok(Pair {
        awaited: awaited_by(alloc, word)?,
        action: Some(next.copy(alloc)?),
    }))
}

/// A pair of a pattern of a kind and an action.
fn pair_as(
    alloc: Global,
    kind: PatternKind,
    pattern: &Bytes,
    action: &Bytes,
) -> Result<Pair, AllocError>
    ensures { IfOk result (λ p. p ≡ pair (awaited_as kind pattern.now) (Some action.now)) }
{
    Ok(Pair {
        awaited: awaited_as(alloc, kind, pattern)?,
        action: Some(action.copy(alloc)?),
    })
}

/// A pair of a word without a kind and an action.
fn pair_by(alloc: Global, word: &Bytes, action: &Bytes) -> Result<Pair, AllocError>
    ensures { IfOk result (λ p. p ≡ pair (awaited_by word.now) (Some action.now)) }
{
    Ok(Pair {
        awaited: awaited_by(alloc, word)?,
        action: Some(action.copy(alloc)?),
    })
}

/// The first pair, of a word and those behind it, and the words behind the pair; or the message of a bad flag or of a kind
/// without a pattern.
#[tactic(auto, unfolding(dg_language::specs::ExpectWords::pairs_of))]
fn first_pair<'a>(
    alloc: Global,
    word: &Bytes,
    behind: &'a [Bytes],
) -> Result<Result<(Pair, &'a [Bytes]), Bytes>, AllocError>
    ensures pair { IfOk result (λ r. MatchResult r
        (λ p. pairs_of (word.now ∷ behind.now) ≡ with_pair p.0 (pairs_of p.1.now))
        (λ why. pairs_of (word.now ∷ behind.now) ≡ Err why)) }
    ensures fewer { IfOk result (λ r. IfOk r (λ p. length p.1.now ≤ length behind.now)) }
{
    let Some((next, rest)) = split(behind) else {
        match one_word(alloc, word)? {
            Ok(pair) => return Ok(Ok((pair, behind))),
            Err(why) => return Ok(Err(why)),
        }
    };
    let Some((third, others)) = split(rest) else {
        match two_words(alloc, word, next)? {
            Ok(pair) => return Ok(Ok((pair, rest))),
            Err(why) => return Ok(Err(why)),
        }
    };
    if let Some(kind) = kind_named(word) {
        return Ok(Ok((pair_as(alloc, kind, next, third)?, others)));
    }
    if is_flag(word) {
        return Ok(Err(bad_flag(alloc, word)?));
    }
    Ok(Ok((pair_by(alloc, word, next)?, rest)))
}

/// The pairs that these words are, or the message of a bad flag or of a kind without a pattern.
#[tactic(auto, unfolding(dg_language::specs::ExpectWords::pairs_of))]
fn pairs_of(alloc: Global, words: &[Bytes]) -> Result<Result<Seq<Pair>, Bytes>, AllocError>
    ensures { IfOk result (λ r. r ≡ pairs_of words.now) }
{
    let mut pairs = Seq::new(alloc);
    let mut left = words;
    'pairs: loop {
        let Some((word, behind)) = split(left) else {
            return Ok(Ok(pairs));
        };
        match first_pair(alloc, word, behind)? {
            Ok((pair, others)) => {
                pairs.push(pair)?;
                left = others;
            }
            Err(why) => return Ok(Err(why)),
        }
    }
}

/// The words of `expect`: of its flags the last of each name, and its pairs; or the message of a
/// bad flag, or of a flag or a kind with nothing behind it.
#[tactic(auto, unfolding(dg_language::specs::ExpectWords::expect_words))]
pub fn expect_words(
    alloc: Global,
    words: &[Bytes],
) -> Result<Result<Expectation, Bytes>, AllocError>
    ensures { IfOk result (λ r. r ≡ expect_words None None words.now) }
{
    let mut timeout = None;
    let mut id = None;
    let mut left = words;
    'flags: loop {
        let Some((word, behind)) = split(left) else {
            break;
        };
        if is(word, b"-timeout") {
            let Some((value, others)) = split(behind) else {
                return Ok(Err(wrong_count(alloc, b"expect")?));
            };
            timeout = Some(value);
            left = others;
        } else if is(word, b"-i") {
            let Some((value, others)) = split(behind) else {
                return Ok(Err(wrong_count(alloc, b"expect")?));
            };
            id = Some(value);
            left = others;
        } else {
            break;
        }
    }
    match pairs_of(alloc, left)? {
        Ok(pairs) => Ok(Ok(expectation(alloc, timeout, id, pairs)?)),
        Err(why) => Ok(Err(why)),
    }
}

/// The words of `expect`, of these flags' values and these pairs.
fn expectation(
    alloc: Global,
    timeout: Option<&Bytes>,
    id: Option<&Bytes>,
    pairs: Seq<Pair>,
) -> Result<Expectation, AllocError>
    ensures { IfOk result
        (λ e. e ≡ record { timeout = option_copied timeout.entry; id = option_copied id.entry; pairs = pairs }) }
{
    Ok(Expectation {
        timeout: copied_text(alloc, timeout)?,
        id: copied_text(alloc, id)?,
        pairs,
    })
}

/// Whether a text has a byte other than blanks and newlines, and a newline before the first such
/// byte.
#[tactic(auto, unfolding(dg_language::specs::ExpectWords::leads_a_list))]
fn leads_a_list(text: &[u8]) -> bool
    ensures { result ≡ leads_a_list false text.now }
{
    let mut below = false;
    let mut left = text;
    'bytes: loop {
        let Some((byte, others)) = split(left) else {
            return false;
        };
        if *byte == b'\n' {
            below = true;
        } else if *byte != b' ' && *byte != b'\t' && *byte != 11 && *byte != 12 && *byte != b'\r' {
            return below;
        }
        left = others;
    }
}

/// The only argument of `expect`, where it is a list of words.
pub fn listed(args: &[Bytes]) -> Option<&Bytes>
    ensures { option_copied result ≡ listed args.now }
{
    let text = only(args)?;
    if leads_a_list(text.as_slice()) {
        Some(text)
    } else {
        None
    }
}

/// The text of a `-re` pattern.
fn regex_in(awaited: &Awaited) -> Option<&Bytes>
    ensures { option_copied result ≡ regex_in awaited.now }
{
    match awaited {
        Awaited::Regex(text) => Some(text),
        Awaited::Glob(_) | Awaited::Exact(_) | Awaited::Timeout | Awaited::End | Awaited::Default =>
            None,
    }
}

/// The texts of the `-re` patterns of pairs, in order.
#[tactic(auto, unfolding(dg_language::specs::ExpectWords::regexes_in))]
pub fn regexes_in(alloc: Global, pairs: &[Pair]) -> Result<Seq<Bytes>, AllocError>
    ensures { IfOk result (λ texts. texts ≡ regexes_in pairs.now) }
{
    let mut texts = Seq::new(alloc);
    let mut left = pairs;
    'pairs: loop {
        let Some((pair, others)) = split(left) else {
            return Ok(texts);
        };
        if let Some(text) = regex_in(&pair.awaited) {
            texts.push(text.copy(alloc)?)?;
        }
        left = others;
    }
}

/// Whether a pair waits for output.
fn is_for_output(awaited: &Awaited) -> bool
    ensures { result ≡ is_some (pattern_in awaited.now) }
{
    matches!(
        awaited,
        Awaited::Glob(_) | Awaited::Exact(_) | Awaited::Regex(_)
    )
}

/// The action of the pair whose pattern has this index.
#[tactic(auto, unfolding(dg_language::specs::ExpectWords::output_pairs))]
pub fn action_at(pairs: &[Pair], index: usize) -> Option<&Bytes>
    ensures { option_copied result ≡ action_at index pairs.now }
{
    let mut before = index;
    let mut left = pairs;
    'pairs: loop {
        let (pair, others) = split(left)?;
        if is_for_output(&pair.awaited) {
            if before == 0 {
                return pair.action.as_ref();
            }
            before -= 1;
        }
        left = others;
    }
}

/// The action of the first pair that waits for a timeout.
#[tactic(auto, unfolding(dg_language::specs::Expecting::first_action))]
pub fn timeout_action(pairs: &[Pair]) -> Option<&Bytes>
    ensures { option_copied result ≡ first_action is_for_timeout pairs.now }
{
    let mut left = pairs;
    'pairs: loop {
        let (pair, others) = split(left)?;
        if matches!(pair.awaited, Awaited::Timeout | Awaited::Default) {
            return pair.action.as_ref();
        }
        left = others;
    }
}

/// The action of the first pair that waits for the end of the output.
#[tactic(auto, unfolding(dg_language::specs::Expecting::first_action))]
pub fn end_action(pairs: &[Pair]) -> Option<&Bytes>
    ensures { option_copied result ≡ first_action is_for_end pairs.now }
{
    let mut left = pairs;
    'pairs: loop {
        let (pair, others) = split(left)?;
        if matches!(pair.awaited, Awaited::End | Awaited::Default) {
            return pair.action.as_ref();
        }
        left = others;
    }
}

/// So many seconds in milliseconds: at most an hour, and less than none is an hour.
fn milliseconds(seconds: i64) -> u32
    ensures { result ≡ milliseconds seconds }
{
    if seconds < 0 || seconds > 3_600 {
        3_600_000
    } else {
        1_000 * seconds as u32
    }
}

/// The limit of an `expect` in milliseconds, if the text is a number.
pub fn limit_of(text: &[u8]) -> Option<u32>
    ensures { result ≡ option_map milliseconds (number_of text.now) }
{
    Some(milliseconds(number(text)?))
}
