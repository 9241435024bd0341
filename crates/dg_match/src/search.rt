//! Searches of the buffer that skip the places where no match can begin.
ghost use Rattle.std.specs.Prelude.{◌≡◌, ◌≤◌, ◌<◌, ◌-◌, ◌*◌, ℕ, MatchOption, None, length, nat_lt, if◌then◌else◌};
ghost use Rattle.dg_glob.specs.Glob.{IsFirstSpan, IsSpan};
ghost use Rattle.dg_glob.specs.Parts.{IsTrail, followed, parts_of};
ghost use Rattle.dg_match.specs.Starts.{IsPassed};
ghost use Rattle.dg_match.specs.Literals.{IsNowhere, IsFirstPlace, least_place};
ghost use Rattle.dg_match.specs.Searches.{bytes_compared, glob_compared, left_by, places_passed};
ghost use Rattle.dg_match.specs.Places.{IsPlaceOf};

use dg_glob::{Parts, Span, Trail, find_glob};
use memchr::memmem::Finder;

/// The outcome of the search for a text.
#[derive(Clone, Copy)]
pub(crate) struct Search {
    /// The match, if there is one.
    pub(crate) found: Option<Span>,
    /// How many places of the buffer are passed, whatever comes behind it.
    pub(crate) passed: usize,
    /// How many bytes were compared.
    pub(crate) compared: usize,
}

/// Where a text stands first, and how many bytes were read to find that out.
enum Place {
    At { start: usize, compared: usize },
    Nowhere { compared: usize },
}

/// How long a text is.
fn length_of(text: &Finder<'_>) -> usize
    ensures { result ≡ length text.now }
{
    text.needle().len()
}

/// How many bytes of a rest a search for a text reads that isn't there: none where it doesn't fit.
fn read_in_vain(rest: &[u8], text: &Finder<'_>) -> usize
    ensures bound { result ≤ length rest.now }
    ensures value { result ≡ (if nat_lt (length rest.now) (length text.now) then 0 else length rest.now) }
{
    if rest.len() < length_of(text) {
        0
    } else {
        rest.len()
    }
}

/// The first place at which the text stands. Only the bytes behind the places that are passed are
/// read, and those that are read are counted.
fn first_place(bytes: &[u8], text: &Finder<'_>, passed: usize) -> Place
    requires { IsPassed text.now bytes.now passed }
    ensures { IsPlaceOf passed text.now bytes.now result }
{
    let from = passed.min(bytes.len());
    let rest = &bytes[from..];
    match text.find(rest) {
        None => Place::Nowhere {
            compared: read_in_vain(rest, text),
        },
        Some(place) => Place::At {
            start: from + place,
            compared: place + length_of(text),
        },
    }
}

/// How many places are passed where the text stands nowhere.
fn passed_by(bytes: &[u8], text: &Finder<'_>) -> usize
    requires { IsNowhere text.now bytes.now }
    ensures passed { IsPassed text.now bytes.now result }
    ensures value { result ≡ places_passed text.now bytes.now None }
{
    bytes
        .len()
        .saturating_add(1)
        .saturating_sub(length_of(text))
}

/// Searches the buffer for a text.
pub(crate) fn search_text(bytes: &[u8], text: &Finder<'_>, passed: usize) -> Search
    requires { IsPassed text.now bytes.now passed }
    ensures found { MatchOption result.found (IsNowhere text.now bytes.now)
        (λ s. IsFirstPlace text.now bytes.now s.start s.end) }
    ensures passed { IsPassed text.now bytes.now result.passed }
    ensures places { result.passed ≡ places_passed text.now bytes.now (least_place text.now bytes.now) }
    ensures at_most { result.compared ≤ 2 * length bytes.now }
    ensures counted { result.compared ≡ bytes_compared passed text.now bytes.now (least_place text.now bytes.now) }
{
    match first_place(bytes, text, passed) {
        Place::Nowhere { compared } => Search {
            found: None,
            passed: passed_by(bytes, text),
            compared,
        },
        Place::At { start, compared } => Search {
            found: Some(Span {
                start,
                end: start + length_of(text),
            }),
            passed: start,
            compared,
        },
    }
}

/// The outcome of the search for a glob.
#[derive(Clone, Copy)]
pub(crate) struct Followed {
    /// The match, if there is one.
    pub(crate) found: Option<Span>,
    /// What is known of the glob's parts, whatever comes behind.
    pub(crate) left: Trail,
    /// How many bytes were compared.
    pub(crate) compared: usize,
}

/// How far a glob's parts were found, and how many bytes were read for that.
#[derive(Clone, Copy)]
struct Trailed {
    left: Trail,
    read: usize,
}

/// Searches the buffer for the parts of a glob that are not found yet. Only the bytes behind those that
/// are passed are read, and these are counted.
fn follow_rest(bytes: &[u8], parts: &Parts, trail: Trail) -> Trailed
    requires { IsTrail parts.now trail.found bytes.now trail.passed }
    ensures value { (result.left.found, result.left.passed) ≡ followed parts.now trail.found bytes.now trail.passed }
    ensures known { IsTrail parts.now result.left.found bytes.now result.left.passed }
    ensures none { result.left.found < length (parts_of parts.now) → (s e : ℕ) → IsSpan parts.now bytes.now s e → ⊥ }
    ensures read { result.read ≡ length bytes.now - trail.passed }
{
    let Some(rest) = bytes.get(trail.passed..) else {
        return Trailed {
            left: trail,
            read: 0,
        };
    };
    let sought = Trail {
        found: trail.found,
        passed: 0,
    };
    let behind = parts.follow(rest, sought);
    Trailed {
        left: Trail {
            found: behind.found,
            passed: trail.passed + behind.passed,
        },
        read: rest.len(),
    }
}

/// Searches the buffer for a glob. Only where all its parts stand one behind the other the whole
/// buffer is searched.
pub(crate) fn search_glob(bytes: &[u8], parts: &Parts, trail: Trail) -> Followed
    requires { IsTrail parts.now trail.found bytes.now trail.passed }
    ensures found { MatchOption result.found ((s e : ℕ) → IsSpan parts.now bytes.now s e → ⊥)
        (λ s. IsFirstSpan parts.now bytes.now s.start s.end) }
    ensures known { IsTrail parts.now result.left.found bytes.now result.left.passed }
    ensures left { (result.left.found, result.left.passed) ≡ left_by parts.now (followed parts.now trail.found bytes.now trail.passed) }
    ensures at_most { result.compared ≤ 2 * length bytes.now }
    ensures counted { result.compared ≡ glob_compared parts.now trail.found trail.passed bytes.now }
{
    let Trailed { left, read } = follow_rest(bytes, parts, trail);
    let whole = parts.count() <= left.found;
    if whole {
        return Followed {
            found: find_glob(parts.glob(), bytes),
            left: Trail {
                found: 0,
                passed: 0,
            },
            compared: read.saturating_add(bytes.len()),
        };
    }
    Followed {
        found: None,
        left,
        compared: read,
    }
}
