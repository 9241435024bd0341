//! Topics: what a question is about, and what an edit touches.
ghost use Rattle.std.specs.Prelude.{◌≡◌, ℕ, List, IfOk};
ghost use Rattle.dg_index.specs.Topic.{is_on, topic_of};

use dg_bytes::{Bytes, TryCopy, is_same};
use dg_world::{Question, TestId};
use std::alloc::{AllocError, Global};

/// What a question is about. An edit touches one topic, and leaves the answers to all questions of the others.
#[derive(Debug, PartialEq, Eq, Hash)]
pub enum Topic {
    /// The file of this name.
    File(Bytes),
    /// What is run: the tool, the triplets, and the variables of the line.
    Selection,
    /// The transcript of a test: its board and its script.
    Transcript(Bytes, Bytes),
    /// How the text of a pattern is read.
    Pattern(Bytes),
}

/// Written by hand, and so one call for whoever lets a topic go.
impl Drop for Topic {
    fn drop(self) {
        match self {
            Topic::File(_) => {}
            Topic::Selection => {}
            Topic::Transcript(_, _) => {}
            Topic::Pattern(_) => {}
        }
    }
}

impl Topic {
    /// The topic of a question, or want of memory.
    pub fn of(alloc: Global, question: &Question) -> Result<Topic, AllocError>
        ensures { IfOk result (λ t. t ≡ topic_of question.now) }
    {
        Ok(match question {
            Question::File(name) => Topic::File(Bytes::from_slice(alloc, name.as_slice())?),
            Question::Tool | Question::Triplet(_) | Question::Variable(_) => Topic::Selection,
            Question::Entry(place) => Topic::of_test(alloc, &place.test)?,
            Question::Pattern(text) => Topic::Pattern(text.copy(alloc)?),
        })
    }

    /// The transcript of a test as a topic, or want of memory.
    pub fn of_test(alloc: Global, test: &TestId) -> Result<Topic, AllocError>
        ensures { IfOk result (λ t. t ≡ Topic.Transcript test.now.board test.now.script) }
    {
        Ok(Topic::Transcript(
            Bytes::from_slice(alloc, test.board().as_slice())?,
            Bytes::from_slice(alloc, test.script().as_slice())?,
        ))
    }

    /// An equal topic, or want of memory.
    pub fn copy(&self, alloc: Global) -> Result<Topic, AllocError>
        ensures { IfOk result (λ t. t ≡ self.now) }
    {
        Ok(match self {
            Topic::File(name) => Topic::File(name.copy(alloc)?),
            Topic::Selection => Topic::Selection,
            Topic::Transcript(board, script) => {
                Topic::Transcript(board.copy(alloc)?, script.copy(alloc)?)
            }
            Topic::Pattern(text) => Topic::Pattern(text.copy(alloc)?),
        })
    }

    /// Whether a question is on this topic.
    pub fn covers(&self, question: &Question) -> bool
        ensures { result ≡ is_on self.now question.now }
    {
        match (self, question) {
            (Topic::File(name), Question::File(asked)) => is_same(
                name.as_slice(),
                asked.as_slice(),
            ),
            (Topic::Selection, Question::Tool | Question::Triplet(_) | Question::Variable(_)) =>
                true,
            (Topic::Transcript(board, script), Question::Entry(place)) => {
                is_same(board.as_slice(), place.test.board().as_slice())
                    && is_same(script.as_slice(), place.test.script().as_slice())
            }
            (Topic::Pattern(text), Question::Pattern(asked)) => *text == *asked,
            _ => false,
        }
    }

    /// The name of a file.
    pub fn into_name(self) -> Bytes
        requires { (name : List ℕ) × (self ≡ Topic.File name) }
        ensures { self ≡ Topic.File result }
    {
        match self {
            Topic::File(name) => name,
            Topic::Selection => unreachable!(),
            Topic::Transcript(_board, _script) => unreachable!(),
            Topic::Pattern(_text) => unreachable!(),
        }
    }

    /// The board and the script of a transcript's test.
    pub fn into_test(self) -> (Bytes, Bytes)
        requires { (board : List ℕ) × (script : List ℕ) × (self ≡ Topic.Transcript board script) }
        ensures { self ≡ Topic.Transcript result.0 result.1 }
    {
        match self {
            Topic::Transcript(board, script) => (board, script),
            Topic::Selection => unreachable!(),
            Topic::File(_name) => unreachable!(),
            Topic::Pattern(_text) => unreachable!(),
        }
    }
}
