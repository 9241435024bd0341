//! The search for the longest match at one place of a text.
ghost use Rattle.std.specs.Prelude.{◌≡◌, ◌≤◌, ◌∷◌, [], IfSome, IfNone, IsTrue, List, ℕ, length, drop, None};
ghost use Rattle.dg_glob.specs.Items as word;
ghost use Rattle.dg_glob.specs.Search.{Leaves, Ends, IsAtStar, IsRun, IsAnswer, IsAhead, fewest};

use crate::items::{after_item, is_plain, is_steady};
use crate::rows::{LONGEST, after_star_by_rows};
use memchr::memchr;

/// A part of a pattern and a part of a text, to which items that each took one byte have led.
#[derive(Clone, Copy)]
struct Run<'a> {
    pattern: &'a [u8],
    text: &'a [u8],
    /// Every match of the pattern comes by here, wherever in the text it begins.
    steady: bool,
}

/// Passes the items of a pattern up to its first `*` or its end, if each takes its byte.
fn pass_items<'a>(pattern: &'a [u8], text: &'a [u8]) -> Option<Run<'a>>
    ensures some { IfSome result
        (λ r. IsRun pattern.now text.now r.steady r.pattern.now r.text.now) }
    ensures stops { IfSome result (λ r. IsAtStar r.pattern.now) }
    ensures none { IfNone result ((rest : List ℕ) → Leaves pattern.now text.now rest → ⊥) }
{
    let mut pattern = pattern;
    let mut text = text;
    let mut steady = true;
    while let Some((&first, _)) = pattern.split_first() {
        if first == b'*' {
            break;
        }
        let (&byte, later) = text.split_first()?;
        let after = after_item(pattern, byte)?;
        steady &= is_steady(pattern);
        pattern = after;
        text = later;
    }
    Some(Run {
        pattern,
        text,
        steady,
    })
}

/// The text from a place on before which the pattern matches nowhere: where the pattern begins with
/// a byte that stands for itself, from the first such byte on.
pub(crate) fn skip_ahead<'a>(pattern: &[u8], text: &'a [u8]) -> &'a [u8]
    ensures { IsAhead pattern.now text.now result.now }
{
    match pattern.split_first() {
        Some((&first, _)) if is_plain(first) => {
            let place = memchr(first, text).unwrap_or(text.len());
            &text[place..]
        }
        _ => text,
    }
}

/// The fewer of two numbers of bytes that are left, where there is one.
fn fewest(one: Option<usize>, other: Option<usize>) -> Option<usize>
    ensures { result ≡ fewest one other }
{
    match (one, other) {
        (Some(n), Some(m)) => Some(n.min(m)),
        (Some(n), None) => Some(n),
        (None, _) => other,
    }
}

/// How many bytes the longest match leaves of a pattern that is at its end.
fn left_at_end(text: &[u8], whole: bool) -> Option<usize>
    ensures { IsAnswer whole [] text.now result }
{
    if !whole || text.is_empty() {
        Some(text.len())
    } else {
        None
    }
}

/// How many bytes the longest match leaves of a `*` and the pattern behind it.
///
/// Where steady items lead to the next `*`, the first place at which they do is enough: whatever
/// matches later is matched behind that `*` too. Where a bracket may lead to several places no such
/// place is enough, and the rest of the search marks places of the pattern instead. A pattern that
/// is too long for that is searched again behind each `*`.
fn after_star(pattern: &[u8], text: &[u8], whole: bool) -> Option<usize>
    ensures { IsAnswer whole (42 ∷ pattern.now) text.now result }
{
    let mut rest = pattern;
    let mut later = text;
    let mut best = None;
    loop {
        if rest.is_empty() {
            return Some(0);
        }
        later = skip_ahead(rest, later);
        let found = match pass_items(rest, later) {
            None => None,
            Some(run) => match run.pattern.split_first() {
                None => left_at_end(run.text, whole),
                Some((_, after)) => {
                    if run.steady {
                        rest = after;
                        later = run.text;
                        continue;
                    }
                    if rest.len() <= LONGEST {
                        return fewest(best, after_star_by_rows(rest, later, whole));
                    }
                    after_star(after, run.text, whole)
                }
            },
        };
        best = fewest(best, found);
        let Some((_, next)) = later.split_first() else {
            return best;
        };
        later = next;
    }
}

/// The longest match at a place.
#[derive(Clone, Copy)]
pub(crate) struct Reach {
    /// How many bytes it leaves, if there is a match.
    pub(crate) left: Option<usize>,
    /// Where there is no match, there is none later in the text either.
    pub(crate) final_word: bool,
}

/// The longest match of the pattern at the front of the text, or of the whole text.
pub(crate) fn longest(pattern: &[u8], text: &[u8], whole: bool) -> Reach
    ensures answer { IsAnswer whole pattern.now text.now result.left }
    ensures within { IfSome result.left (λ n. n ≤ length text.now) }
    ensures later { IsTrue result.final_word → result.left ≡ None →
        (k : ℕ) (rest : List ℕ) → Ends whole pattern.now (drop k text.now) rest → ⊥ }
{
    let Some(run) = pass_items(pattern, text) else {
        return Reach {
            left: None,
            final_word: false,
        };
    };
    match run.pattern.split_first() {
        None => Reach {
            left: left_at_end(run.text, whole),
            final_word: false,
        },
        Some((_, after)) => Reach {
            left: after_star(after, run.text, whole),
            final_word: run.steady,
        },
    }
}
