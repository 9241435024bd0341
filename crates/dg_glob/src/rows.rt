//! A search that marks places of the pattern, for patterns whose brackets lead to several places.
ghost use Rattle.std.specs.Prelude.{◌≡◌, ◌<◌, ◌≤◌, ◌/◌, ◌↔◌, ◌∷◌, length, drop, IsTrue, IfSome, IfNone, if◌then◌else◌};
ghost use Rattle.dg_glob.specs.Rows as word;
ghost use Rattle.dg_glob.specs.Search.{IsAnswer};

use crate::items::after_item;
use crate::marks::{is_marked, mark};

/// Words of marks for a pattern of `LONGEST` bytes.
const WORDS: usize = 16_385;

/// How long a pattern the search takes.
pub(crate) const LONGEST: usize = 1_048_576;

/// The mark of a pattern for a text: `here` is that of the pattern without its first byte, and
/// `later` are the marks for the text without its first byte.
fn cell(pattern: &[u8], text: &[u8], later: &[u64], here: bool) -> bool
    requires { length pattern.now / 64 < length later.now }
    ensures { result ≡ word.cell pattern.now text.now later.now here }
{
    let starred = pattern.first() == Some(&b'*');
    match text.split_first() {
        None => starred && here,
        Some(_) if starred => here || is_marked(later, pattern.len()),
        Some((&byte, _)) => match after_item(pattern, byte) {
            Some(rest) => is_marked(later, rest.len()),
            None => false,
        },
    }
}

/// Makes the row of a text from that of the text without its first byte.
fn fill_row(pattern: &[u8], text: &[u8], limit: usize, later: &[u64], row: &mut [u64])
    requires later_room { length pattern.now / 64 < length later.now }
    requires room { length pattern.now / 64 < length row.old }
    requires later { 0 < length text.now → word.IsRow limit pattern.now (drop 1 text.now) later.now }
    ensures { word.IsRow limit pattern.now text.now row.new }
{
    mark(row, 0, text.len() <= limit);
    for place in 0..pattern.len() {
        let here = is_marked(row, place);
        let on = cell(&pattern[pattern.len() - 1 - place..], text, later, here);
        mark(row, place + 1, on);
    }
}

/// Whether a match of a `*` and the pattern behind it leaves at most so many bytes of the text.
fn matches_within(
    pattern: &[u8],
    text: &[u8],
    limit: usize,
    later: &mut [u64],
    row: &mut [u64],
) -> bool
    requires room { length pattern.now / 64 < length row.old }
    requires same_room { length later.old ≡ length row.old }
    ensures { IsTrue result ↔ word.FewLeft limit (42 ∷ pattern.now) text.now }
{
    let mut start = text.len();
    fill_row(pattern, &text[start..], limit, later, row);
    let mut found = is_marked(row, pattern.len());
    while start > 0 {
        start -= 1;
        later.copy_from_slice(row);
        fill_row(pattern, &text[start..], limit, later, row);
        found |= is_marked(row, pattern.len());
    }
    found
}

/// The fewest bytes that a match of a `*` and the pattern behind it leaves, if one leaves at most so
/// many. They are found by halving.
fn fewest_left(
    pattern: &[u8],
    text: &[u8],
    most: usize,
    later: &mut [u64],
    row: &mut [u64],
) -> Option<usize>
    requires room { length pattern.now / 64 < length row.old }
    requires same_room { length later.old ≡ length row.old }
    ensures some { IfSome result (word.AreFewest (42 ∷ pattern.now) text.now most) }
    ensures none { IfNone result (word.FewLeft most (42 ∷ pattern.now) text.now → ⊥) }
{
    if !matches_within(pattern, text, most, later, row) {
        return None;
    }
    let mut low = 0;
    let mut high = most;
    while low < high {
        let middle = low + (high - low) / 2;
        if matches_within(pattern, text, middle, later, row) {
            high = middle;
        } else {
            low = middle + 1;
        }
    }
    Some(high)
}

/// How many bytes of a text a match may leave.
fn most_left(text: &[u8], whole: bool) -> usize
    ensures { result ≡ (if whole then 0 else length text.now) }
{
    if whole { 0 } else { text.len() }
}

/// How many bytes the longest match leaves of a `*` and the pattern behind it, whatever its
/// brackets lead to: in steps as many as the pattern's length times the text's, for each of the
/// bounds that halving the text's length gives.
#[inline(never)]
pub(crate) fn after_star_by_rows(pattern: &[u8], text: &[u8], whole: bool) -> Option<usize>
    requires { length pattern.now ≤ LONGEST }
    ensures { IsAnswer whole (42 ∷ pattern.now) text.now result }
{
    let mut later_marks = [0u64; WORDS];
    let mut marks = [0u64; WORDS];
    let words = pattern.len() / 64 + 1;
    let later = &mut later_marks[..words];
    let row = &mut marks[..words];
    fewest_left(pattern, text, most_left(text, whole), later, row)
}
