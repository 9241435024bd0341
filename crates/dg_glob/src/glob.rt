//! Matches of a pattern with a whole text, and its spans in a text.
ghost use Rattle.std.specs.Prelude.{◌≡◌, ◌≤◌, ◌<◌, ◌-◌, ◌↔◌, IfSome, IfNone, IsTrue, List, ℕ, length, drop, None, option_map};
ghost use Rattle.dg_glob.specs.Glob as word;
ghost use Rattle.dg_glob.specs.Tests.{first_span, glob_matches};
ghost use Rattle.dg_glob.specs.Search.{Ends, IsAnswer, IsFirstReach, IsLongest};

use crate::search::{longest, skip_ahead};

/// Whether the pattern matches the whole text, as `string match` of Tcl(n) does. It takes no memory.
///
/// `*` stands for any bytes, `?` for one byte, `[..]` for one byte of its items, which are single
/// bytes and ranges in either order, and `\x` for the byte x. What follows a bracket begins behind
/// the first `]` past the item that took the byte.
pub fn string_match(pattern: &[u8], text: &[u8]) -> bool
    ensures value { result ≡ glob_matches pattern.now text.now }
    ensures relation { IsTrue result ↔ word.Matches pattern.now text.now }
{
    longest(pattern, text, true).left.is_some()
}

/// Bytes of a text: from the byte at `start` to the one before `end`.
#[derive(Clone, Copy, Debug, PartialEq, Eq)]
pub struct Span {
    pub start: usize,
    pub end: usize,
}

/// Whether a pattern is bound to the text's start, by a `^` at its front.
pub(crate) fn binds_start(pattern: &[u8]) -> bool
    ensures { result ≡ word.binds_start pattern.now }
{
    pattern.first() == Some(&b'^')
}

/// Whether a pattern is bound to the text's end, by a `$` at its end that no backslash makes a
/// plain byte.
fn binds_end(pattern: &[u8]) -> bool
    ensures { result ≡ word.binds_end pattern.now }
{
    let mut rest = pattern;
    while let Some((&first, after)) = rest.split_first() {
        match after.split_first() {
            None => return first == b'$',
            Some((_, behind)) => rest = if first == b'\\' { behind } else { after },
        }
    }
    false
}

/// The pattern without the `^` and `$` that bind it.
pub(crate) fn body(pattern: &[u8]) -> &[u8]
    ensures { result.now ≡ word.body pattern.now }
{
    let body = match pattern.split_first() {
        Some((&b'^', rest)) => rest,
        _ => pattern,
    };
    if binds_end(pattern) {
        &body[..body.len().saturating_sub(1)]
    } else {
        body
    }
}

/// The first place of the text at which a pattern that nothing binds to the start matches, with the
/// longest match there.
fn first_reach(body: &[u8], text: &[u8], whole: bool) -> Option<Span>
    ensures some { IfSome result (λ s. IsFirstReach whole body.now text.now s.start s.end) }
    ensures none { IfNone result ((s : ℕ) (r : List ℕ) → s ≤ length text.now → Ends whole body.now (drop s text.now) r → ⊥) }
{
    let mut rest = text;
    loop {
        rest = skip_ahead(body, rest);
        let here = longest(body, rest, whole);
        if let Some(left) = here.left {
            return Some(Span {
                start: text.len() - rest.len(),
                end: text.len() - left,
            });
        }
        if here.final_word {
            return None;
        }
        let (_, later) = rest.split_first()?;
        rest = later;
    }
}

/// The longest match of a pattern at the text's start.
fn reach_at_start(body: &[u8], text: &[u8], whole: bool) -> Option<Span>
    ensures some { IfSome result (λ s. (s.start ≡ 0) × (s.end ≤ length text.now) × IsLongest whole body.now text.now (length text.now - s.end)) }
    ensures none { IfNone result (IsAnswer whole body.now text.now None) }
{
    match longest(body, text, whole).left {
        Some(left) => Some(Span {
            start: 0,
            end: text.len() - left,
        }),
        None => None,
    }
}

/// The span of the pattern in the text with the least start, and of those the one with the greatest
/// end. It takes no memory.
///
/// The pattern is one of [`string_match`], but a `^` at its front binds it to the text's start, and a
/// `$` at its end, without a backslash, to the text's end.
pub fn find_glob(pattern: &[u8], text: &[u8]) -> Option<Span>
    ensures value { option_map (λ s. (s.start, s.end)) result ≡ first_span pattern.now text.now }
    ensures found { IfSome result (λ s. word.IsFirstSpan pattern.now text.now s.start s.end) }
    ensures none { IfNone result ((s e : ℕ) → word.IsSpan pattern.now text.now s e → ⊥) }
{
    let whole = binds_end(pattern);
    let body = body(pattern);
    if !binds_start(pattern) {
        return first_reach(body, text, whole);
    }
    reach_at_start(body, text, whole)
}
