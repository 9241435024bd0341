//! Laws of the text and of the replay, each the contract of a function that does nothing.
ghost use Rattle.bstr.specs.Text.{lines_of};
ghost use Rattle.std.specs.Prelude.{◌≡◌, ◌+◌, ◌-◌, ◌≤◌, ℕ, List, length, slice_get, IsSome, IsSomeAnd, MatchResult};
ghost use Rattle.dg_transcript.specs.declared.cursor.Cursor.{Cursor};
ghost use Rattle.dg_transcript.specs.declared.cursor.Action.{Action};
ghost use Rattle.dg_transcript.specs.Replay.{steps, replay};
ghost use Rattle.dg_transcript.specs.declared.entry.Entry.{Entry};
ghost use Rattle.dg_transcript.specs.declared.limits.TheConstants.{MAX_ENTRIES};
ghost use Rattle.dg_transcript.specs.declared.cause.Cause.{Cause as Why};
ghost use Rattle.dg_transcript.specs.Limits.{IsTranscript};
ghost use Rattle.dg_transcript.specs.Lines.{IsFirstBad, kind_at};
ghost use Rattle.dg_transcript.specs.Text.{text_of};
ghost use Rattle.dg_transcript.specs.Decoded.{EachTextIsDecoded};

use crate::cause::Cause;
use crate::decoding::decode;
use crate::transcript::Transcript;
use crate::writing::encode;
use std::alloc::Global;

/// No two transcripts have one text.
pub fn one_text()
    ensures { (ss ts : List (List Entry)) → IsTranscript ss → IsTranscript ts → text_of ss ≡ text_of ts → ss ≡ ts }
{}

/// A text has at most one first bad line, with one cause, and the text of a transcript has none.
pub fn one_fault()
    ensures one { (text : List ℕ) (n m : ℕ) (why other : Why) →
        IsFirstBad text n why → IsFirstBad text m other → (n ≡ m) × (why ≡ other) }
    ensures none { (ss : List (List Entry)) (n : ℕ) (why : Why) → IsTranscript ss → ¬ IsFirstBad (text_of ss) n why }
{}

/// A line that is bad by a field begins with the word of a kind: a line of no kind is never told as that.
pub fn a_bad_field_is_of_a_known_kind()
    ensures { (text : List ℕ) (n : ℕ) →
        IsFirstBad text n Why.Field → IsSomeAnd (slice_get (lines_of text) (n - 1)) (λ line. IsSome (kind_at line)) }
{}

/// Each text spells just one transcript, or has just one first bad line, with one cause.
pub fn each_text_is_decoded()
    ensures { EachTextIsDecoded }
{}

/// Steps over the entries that are left are the replay of them, for each action and however a
/// chunk comes into the buffer.
pub fn steps_are_replay()
    ensures { (add : List ℕ → List ℕ → List ℕ) (c : Cursor) (a : Action) (buffer : List ℕ) (es : List Entry) →
        c.place + length es ≤ MAX_ENTRIES →
        steps add c a buffer es ≡ replay add a (record { entries = es; wait = c.wait; buffer = buffer }) }
{}

/// The transcript again from its text.
pub fn decode_encoded(alloc: Global, transcript: &Transcript) -> Result<Transcript, (u32, Cause)>
    ensures { MatchResult result (λ t. t ≡ transcript.now) (λ e. e.1 ≡ Cause.Memory) }
{
    let sessions = transcript.sessions();
    let _count = sessions.len();
    match encode(alloc, transcript) {
        Ok(text) => decode(alloc, text.as_slice()),
        Err(_) => Err((1, Cause::Memory)),
    }
}
