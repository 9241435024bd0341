//! Decides whether the canonical text of a list fits, before it is built.
ghost use Rattle.std.specs.Prelude.{◌≡◌, ◌+◌, ◌<◌, MatchOption, length};
ghost use Rattle.dg_bytes.specs.Canonical.{element_text, escaped_text, further_text, text_of_list};

use crate::canonical::{begins_with_hash, is_plain, is_special, may_be_braced};
use crate::text::Text;

/// The room that is left behind an element with backslashes, if it fits.
fn behind_escaped(room: usize, element: &[u8]) -> Option<usize>
    ensures { MatchOption result (room < length (escaped_text element.now))
        (λ left. left + length (escaped_text element.now) ≡ room) }
{
    let mut left = room;
    for byte in element {
        left = left.checked_sub(if is_special(*byte) { 2 } else { 1 })?;
    }
    Some(left)
}

/// The room that is left behind the canonical text of an element, the list's first or not, if it fits.
pub fn behind_element(room: usize, first: bool, element: &[u8]) -> Option<usize>
    ensures { MatchOption result (room < length (element_text first element.now))
        (λ left. left + length (element_text first element.now) ≡ room) }
{
    let hash = first && begins_with_hash(element);
    if element.is_empty() {
        room.checked_sub(2)
    } else if !hash && is_plain(element) {
        room.checked_sub(element.len())
    } else if may_be_braced(element) {
        room.checked_sub(2)?.checked_sub(element.len())
    } else if hash {
        behind_escaped(room.checked_sub(1)?, element)
    } else {
        behind_escaped(room, element)
    }
}

/// The room that is left behind further elements, if they fit.
pub(crate) fn behind_further(room: usize, elements: &[Text]) -> Option<usize>
    ensures { MatchOption result (room < length (further_text elements.now))
        (λ left. left + length (further_text elements.now) ≡ room) }
{
    let mut left = room;
    for element in elements {
        left = behind_element(left.checked_sub(1)?, false, element.as_slice())?;
    }
    Some(left)
}

/// The room that is left behind the canonical text of a list, if it fits.
#[tactic(auto, unfolding(crate::specs::Canonical::text_of_list))]
pub(crate) fn behind_list(room: usize, elements: &[Text]) -> Option<usize>
    ensures { MatchOption result (room < length (text_of_list elements.now))
        (λ left. left + length (text_of_list elements.now) ≡ room) }
{
    match elements {
        [] => Some(room),
        [first, further @ ..] => {
            behind_further(behind_element(room, true, first.as_slice())?, further)
        }
    }
}
