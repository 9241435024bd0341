//! Decides whether the canonical text of a list fits, before it is built.
ghost use Rattle.std.specs.Prelude.{◌≡◌, ◌+◌, ◌<◌, MatchOption, length, nat_le};
ghost use Rattle.dg_lists.specs.Canonical.{further_text, text_of_list};

use dg_bytes::{Bytes, behind_element};

/// The room that is left behind further elements, if they fit.
fn behind_further(room: usize, elements: &[Bytes]) -> Option<usize>
    ensures { MatchOption result (room < length (further_text elements.now))
        (λ left. left + length (further_text elements.now) ≡ room) }
{
    let mut left = room;
    for element in elements {
        left = behind_element(left.checked_sub(1)?, false, element.as_slice())?;
    }
    Some(left)
}

/// Whether the canonical text of a list has at most so many bytes.
#[tactic(auto, unfolding(dg_bytes::specs::Canonical::text_of_list))]
pub fn list_fits(elements: &[Bytes], room: usize) -> bool
    ensures { result ≡ nat_le (length (text_of_list elements.now)) room }
{
    let Some((first, further)) = elements.split_first() else {
        return true;
    };
    match behind_element(room, true, first.as_slice()) {
        None => false,
        Some(left) => behind_further(left, further).is_some(),
    }
}
