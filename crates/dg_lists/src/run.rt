//! Runs of bytes that only add to the open element.
ghost use Rattle.std.specs.Prelude.{◌≡◌, ◌≤◌, ◌<◌, ◌-◌, ◌++◌, List, ℕ, false, length, slice_index};
ghost use Rattle.std.specs.List.{slice_range};
ghost use Rattle.dg_lists.specs.Braces.{EndsRun, IsBracedRun};
ghost use Rattle.dg_lists.specs.Classes.{class_of};
ghost use Rattle.dg_lists.specs.ListRuns.{Passes, in_list, is_element_text};

use crate::kinds::{Class, Context, Mode};
use crate::transition::class_of;

/// Where a run between braces ends, and how many braces are open there inside of the word.
#[derive(Clone, Copy)]
pub struct BracedRun {
    pub end: usize,
    pub depth: u64,
}

/// The run of a braced word from a place on: up to a backslash, or to the brace that closes the word.
pub fn braced_run(text: &[u8], from: usize, depth: u64) -> BracedRun
    requires within { from ≤ length text.now }
    requires deep { depth ≤ from }
    ensures onward { from ≤ result.end }
    ensures within { result.end ≤ length text.now }
    // It ends where the text does, at a backslash, or at the brace that closes the word.
    ensures stops { result.end < length text.now → EndsRun (class_of (slice_index text.now result.end)) result.depth }
    // Up to there each byte only adds to the word, and these braces are open behind it.
    ensures run { IsBracedRun text.now from depth (result.end - from) result.depth }
{
    let mut inside = depth;
    for place in from..text.len() {
        match class_of(text[place]) {
            Class::Open => inside += 1,
            Class::Close if inside == 0 => {
                return BracedRun {
                    end: place,
                    depth: inside,
                };
            }
            Class::Close => inside -= 1,
            Class::Backslash => {
                return BracedRun {
                    end: place,
                    depth: inside,
                };
            }
            _ => {}
        }
    }
    BracedRun {
        end: text.len(),
        depth: inside,
    }
}

impl Context {
    /// Whether a byte of this class is text of the element of a list that is open there.
    fn is_element_text(self, class: Class) -> bool
        ensures { result ≡ is_element_text self class }
    {
        match self {
            Context::Bare => !matches!(class, Class::Blank | Class::Newline | Class::Backslash),
            Context::Quoted => !matches!(class, Class::Quote | Class::Backslash),
            _ => false,
        }
    }

    /// Where a run of an element's text ends there that goes on from a place.
    pub fn element_run(self, text: &[u8], from: usize) -> usize
        requires { from ≤ length text.now }
        ensures onward { from ≤ result }
        ensures within { result ≤ length text.now }
        // It ends where the text does, or at a byte that is none of the element's own.
        ensures stops { result < length text.now → is_element_text self (class_of (slice_index text.now result)) ≡ false }
        ensures run { (depth : ℕ) (elements : List (List ℕ)) (element : List ℕ) → Passes text.now from (in_list (Mode.In self) depth elements element) result (in_list (Mode.In self) depth elements (element ++ slice_range text.now from result)) }
    {
        for place in from..text.len() {
            if !self.is_element_text(class_of(text[place])) {
                return place;
            }
        }
        text.len()
    }
}
