//! What an evaluation may ask, and what it is told.
ghost use Rattle.std.specs.Prelude.{◌≡◌, IfOk, IsTrue, ◌↔◌};
ghost use Rattle.dg_world.specs.Question.{fits, same_answer, same_place, same_question, same_system};

use crate::name::Name;
use crate::test_id::TestId;
use dg_boards::Triplet;
use dg_bytes::{Bytes, TryCopy};
use dg_match::Reading;
use dg_transcript::Entry;
use std::alloc::{AllocError, Global};

/// A system of a run, as autoconf names them: the one that is tested for, the one that it is tested on, and the one that built it.
#[derive(Clone, Copy, Debug, PartialEq, Eq, Hash)]
pub enum System {
    Target,
    Host,
    Build,
}

/// A place in a test's transcript.
#[derive(Debug, PartialEq, Eq)]
#[derive_where(Hash)]
pub struct EntryPlace {
    /// Whoever keeps questions by their hashes keeps those of one test: its name would tell nothing.
    #[derive_where(skip(Hash))]
    pub test: TestId,
    /// The session, counted from 1.
    pub session: u32,
    /// The entry of the session, counted from 0.
    pub place: u32,
}

/// What an evaluation may ask of the world.
#[derive(Debug, Drop, PartialEq, Eq, Hash)]
pub enum Question {
    /// What the file of this name holds.
    File(Name),
    /// Which tool is tested.
    Tool,
    /// Which triplet a system has.
    Triplet(System),
    /// What the line of the run sets the global of this name to.
    Variable(Bytes),
    /// Which entry stands at a place of a transcript.
    Entry(EntryPlace),
    /// How the text of a `-re` pattern is read.
    Pattern(Bytes),
}

/// What the world may answer.
#[derive(Drop, PartialEq, Eq)]
pub enum Answer {
    /// There is no such file.
    Absent,
    /// The bytes of the file.
    Content(Bytes),
    /// The tool.
    Tool(Bytes),
    /// The triplet of the system.
    Triplet(Triplet),
    /// The line doesn't set the variable.
    Unset,
    /// The line sets the variable to this.
    Value(Bytes),
    /// No entry stands there: the transcript, its session or the session's entry is absent.
    Ended,
    /// The entry at the place.
    Entry(Entry),
    /// How the pattern is read.
    Reading(Reading),
}

/// A question, and the answer that it had.
#[derive(Drop, PartialEq, Eq)]
pub struct Read {
    pub question: Question,
    pub answer: Answer,
}

impl System {
    /// Whether these are the same system.
    fn is(self, other: System) -> bool
        ensures { result ≡ same_system self other }
    {
        self == other
    }
}

impl Drop for EntryPlace {
    fn drop(self) {
        let EntryPlace {
            test: _,
            session: _,
            place: _,
        } = self;
    }
}

impl EntryPlace {
    /// An equal place, or want of memory.
    pub fn copy(&self, alloc: Global) -> Result<EntryPlace, AllocError>
        ensures { IfOk result (λ p. p ≡ self.now) }
    {
        Ok(EntryPlace {
            test: self.test.copy(alloc)?,
            session: self.session,
            place: self.place,
        })
    }

    /// Whether these are the same place. Most differ in their places, and the names of tests take longest to compare.
    #[inline(always)]
    fn is(&self, other: &EntryPlace) -> bool
        ensures { result ≡ same_place self.now other.now }
    {
        self.place == other.place && self.session == other.session && self.test == other.test
    }
}

impl Question {
    /// An equal question, or want of memory.
    pub fn copy(&self, alloc: Global) -> Result<Question, AllocError>
        ensures { IfOk result (λ q. q ≡ self.now) }
    {
        Ok(match self {
            Question::File(name) => Question::File(name.copy(alloc)?),
            Question::Tool => Question::Tool,
            Question::Triplet(system) => Question::Triplet(*system),
            Question::Variable(name) => Question::Variable(name.copy(alloc)?),
            Question::Entry(place) => Question::Entry(place.copy(alloc)?),
            Question::Pattern(text) => Question::Pattern(text.copy(alloc)?),
        })
    }

    /// Whether these are the same question.
    pub fn is(&self, other: &Question) -> bool
        ensures { result ≡ same_question self.now other.now }
    {
        match (self, other) {
            (Question::File(one), Question::File(two)) => *one == *two,
            (Question::Tool, Question::Tool) => true,
            (Question::Triplet(one), Question::Triplet(two)) => one.is(*two),
            (Question::Variable(one), Question::Variable(two)) => *one == *two,
            (Question::Entry(one), Question::Entry(two)) => one.is(two),
            (Question::Pattern(one), Question::Pattern(two)) => *one == *two,
            _ => false,
        }
    }

    /// Whether this is the question for the entry at a place.
    #[inline(always)]
    pub fn is_for(&self, place: &EntryPlace) -> bool
        ensures { result ≡ same_question self.now (Question.Entry place.now) }
    {
        match self {
            Question::Entry(own) => own.is(place),
            _ => false,
        }
    }

    /// Whether an answer is of the kind that this question has.
    pub fn fits(&self, answer: &Answer) -> bool
        ensures { result ≡ fits self.now answer.now }
    {
        match (self, answer) {
            (Question::File(_), Answer::Absent | Answer::Content(_)) => true,
            (Question::Tool, Answer::Tool(_)) => true,
            (Question::Triplet(_), Answer::Triplet(_)) => true,
            (Question::Variable(_), Answer::Unset | Answer::Value(_)) => true,
            (Question::Entry(_), Answer::Ended | Answer::Entry(_)) => true,
            (Question::Pattern(_), Answer::Reading(_)) => true,
            _ => false,
        }
    }
}

/// Whether these are the same entry.
pub(crate) fn are_same_entry(one: &Entry, two: &Entry) -> bool
    ensures { IsTrue result ↔ (one.now ≡ two.now) }
{
    *one == *two
}

impl Answer {
    /// An equal answer, or want of memory.
    pub fn copy(&self, alloc: Global) -> Result<Answer, AllocError>
        ensures { IfOk result (λ a. a ≡ self.now) }
    {
        Ok(match self {
            Answer::Absent => Answer::Absent,
            Answer::Content(bytes) => Answer::Content(bytes.copy(alloc)?),
            Answer::Tool(tool) => Answer::Tool(tool.copy(alloc)?),
            Answer::Triplet(triplet) => Answer::Triplet(triplet.copy(alloc)?),
            Answer::Unset => Answer::Unset,
            Answer::Value(bytes) => Answer::Value(bytes.copy(alloc)?),
            Answer::Ended => Answer::Ended,
            Answer::Entry(entry) => Answer::Entry(entry.copy(alloc)?),
            Answer::Reading(reading) => Answer::Reading(*reading),
        })
    }

    /// Whether these are the same answer.
    pub fn is(&self, other: &Answer) -> bool
        ensures test { result ≡ same_answer self.now other.now }
        ensures equal { IsTrue result ↔ (self.now ≡ other.now) }
    {
        *self == *other
    }
}

impl Read {
    /// An equal read, or want of memory.
    pub fn copy(&self, alloc: Global) -> Result<Read, AllocError>
        ensures { IfOk result (λ r. r ≡ self.now) }
    {
        Ok(Read {
            question: self.question.copy(alloc)?,
            answer: self.answer.copy(alloc)?,
        })
    }
}

impl TryCopy for Read {
    fn copy(&self, alloc: Global) -> Result<Read, AllocError> {
        Read::copy(self, alloc)
    }
}
