//! Runs of bytes that only add to the open word of a script.
ghost use Rattle.std.specs.Prelude.{◌≡◌, ◌≤◌, ◌<◌, ℕ, List, false, length, slice_index};
ghost use Rattle.std.specs.List.{slice_range};
ghost use Rattle.dg_lists.specs.Classes.{class_of};
ghost use Rattle.dg_words.specs.declared.kinds.Opener.{Opener};
ghost use Rattle.dg_words.specs.Machine.{Draft, add};
ghost use Rattle.dg_words.specs.Runs.{Reaches, commented, in_mode, is_comment, is_text};

use dg_lists::{Class, Context, Mode, class_of};

/// Whether a byte of this class is text there, whatever is read.
fn is_text(context: Context, class: Class) -> bool
    ensures { result ≡ is_text context class }
{
    match context {
        Context::Bare => !matches!(
            class,
            Class::Blank
                | Class::Newline
                | Class::Semicolon
                | Class::LeftBracket
                | Class::RightBracket
                | Class::Backslash
                | Class::Dollar
        ),
        Context::Quoted => !matches!(
            class,
            Class::Quote | Class::LeftBracket | Class::Backslash | Class::Dollar
        ),
        Context::Index => !matches!(
            class,
            Class::RightParen | Class::LeftBracket | Class::Backslash | Class::Dollar
        ),
        Context::Alone => false,
    }
}

/// Where a run of text ends there that goes on from a place.
pub fn text_run(context: Context, text: &[u8], from: usize) -> usize
    requires { from ≤ length text.now }
    ensures onward { from ≤ result }
    ensures within { result ≤ length text.now }
    // It ends where the text does, or at a byte that may be none of its own.
    ensures stops { result < length text.now → is_text context (class_of (slice_index text.now result)) ≡ false }
    ensures run { (depth : ℕ) (openers : List Opener) (draft : Draft) → Reaches text.now from (in_mode (Mode.In context) depth openers draft) result (in_mode (Mode.In context) depth openers (add (slice_range text.now from result) draft)) }
{
    for place in from..text.len() {
        if !is_text(context, class_of(text[place])) {
            return place;
        }
    }
    text.len()
}

/// Whether a byte of this class is one of a comment's.
fn is_comment(class: Class) -> bool
    ensures { result ≡ is_comment class }
{
    !matches!(class, Class::Newline | Class::Backslash)
}

/// Where a run of a comment ends that goes on from a place: at a newline or a backslash.
pub fn comment_run(text: &[u8], from: usize) -> usize
    requires { from ≤ length text.now }
    ensures onward { from ≤ result }
    ensures within { result ≤ length text.now }
    // It ends where the text does, or at a byte that is none of its own.
    ensures stops { result < length text.now → is_comment (class_of (slice_index text.now result)) ≡ false }
    ensures run { (depth : ℕ) (openers : List Opener) (draft : Draft) → Reaches text.now from (in_mode Mode.Comment depth openers draft) result (in_mode Mode.Comment depth openers (commented openers (slice_range text.now from result) draft)) }
{
    for place in from..text.len() {
        if !is_comment(class_of(text[place])) {
            return place;
        }
    }
    text.len()
}
