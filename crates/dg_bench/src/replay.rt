//! What the transcript of a test answers.
ghost use Rattle.std.specs.Prelude.{◌≡◌, option_and_then};
ghost use Rattle.std.specs.Option.{option_copied};
ghost use Rattle.dg_transcript.specs.Sessions.{entry_at};

use dg_bytes::TryCopy;
use dg_eval::Answers;
use dg_transcript::{Entry, Transcript};
use dg_world::{Answer, EntryPlace, Question, TestId};
use std::alloc::{AllocError, Global};

/// A test, and its transcript, if it has one: that answers what the judging of the test asks of its children, and so no lock is
/// taken for it.
#[derive(Drop)]
pub(crate) struct Replay {
    pub(crate) test: TestId,
    pub(crate) transcript: Option<Transcript>,
}

impl Replay {
    /// The entry at a place of the transcript, if there is one.
    fn entry(&self, place: &EntryPlace) -> Option<&Entry>
        ensures { option_copied result ≡ option_and_then (λ ss. entry_at ss place.now.session place.now.place)
            self.now.transcript }
    {
        match &self.transcript {
            Some(transcript) => transcript.entry(place.session, place.place),
            None => None,
        }
    }
}

impl Answers for Replay {
    ghost use Rattle.dg_bench.specs.Replays.{replayed};

    ghost source = { λ r. replayed r.test r.transcript };

    ghost holds = { λ q a. Unit {0} };

    fn answer_to(&self, alloc: Global, question: &Question) -> Result<Option<Answer>, AllocError> {
        match question {
            Question::Entry(place) if place.test == self.test => match self.entry(place) {
                Some(entry) => Ok(Some(Answer::Entry(entry.copy(alloc)?))),
                None => Ok(Some(Answer::Ended)),
            },
            _ => Ok(None),
        }
    }
}
