//! Answers of which the last are those for the entries of one session, in a row.
ghost use Rattle.std.specs.Prelude.{◌≡◌, ◌++◌, ◌∷◌, [], None, Some, IfOk, IfSome, IfNone, IsTrue};
ghost use Rattle.std.specs.Option.{option_copied};
ghost use Rattle.dg_language.specs.Play.{lookup};
ghost use Rattle.dg_language.specs.Row.{are_in_row, are_new};

use crate::reads::answer_among;
use dg_world::{Answer, Question, Read};
use std::alloc::{AllocError, Global};
use std::marker::Model;

/// Reads of which the last ask for the entries of one session, each for the one behind the last: such a one is found by its
/// place. A contract sees the list of all.
pub(crate) struct Row {
    reads: Vec<Read>,
    /// How many come before those of the entries.
    before: usize,
    session: u32,
    /// The place of the first of these entries.
    first: u32,
}

impl Drop for Row {
    fn drop(self) {
        let Row {
            reads: _,
            before: _,
            session: _,
            first: _,
        } = self;
    }
}

impl Model for Row {
    ghost use Rattle.std.specs.Prelude.{List, [], ◌≤◌, length, drop, IsTrue};
    ghost use Rattle.dg_world.specs.declared.question.Read.{Read};
    ghost use Rattle.dg_language.specs.Row.{are_in_row, are_new};

    ghost Value = { List Read };

    ghost view = { λ r. r.reads.items };

    ghost invariant = { λ r. (r.before ≤ length r.reads.items) × IsTrue (are_in_row r.session r.first (drop r.before r.reads.items)) × IsTrue (are_new [] r.reads.items) };
}

/// The answer to a question among reads in a row.
fn answer_in_row<'a>(
    row: &'a [Read],
    session: u32,
    first: u32,
    question: &Question,
) -> Option<&'a Answer>
    requires { IsTrue (are_in_row session first row.now) }
    ensures { option_copied result ≡ lookup question.now row.now }
{
    let Question::Entry(entry) = question else {
        return None;
    };
    if entry.session != session {
        return None;
    }
    if entry.place < first {
        return None;
    }
    let place = (entry.place - first) as usize;
    if place >= row.len() {
        return None;
    }
    let read = &row[place];
    if read.question.is(question) {
        Some(&read.answer)
    } else {
        None
    }
}

impl Row {
    /// These reads, of which none asks what an earlier one asks, before a row that begins at this place of a session.
    pub(crate) fn after(reads: Vec<Read>, session: u32, first: u32) -> Row
        requires { IsTrue (are_new [] reads.items) }
        ensures { result ≡ reads.items }
    {
        let before = reads.len();
        Row {
            reads,
            before,
            session,
            first,
        }
    }

    /// Where memory for more is from.
    pub(crate) fn allocator(&self) -> Global {
        *self.reads.allocator()
    }

    /// The answer to a question, if it was answered.
    pub(crate) fn answer_to(&self, question: &Question) -> Option<&Answer>
        ensures { option_copied result ≡ lookup question.now self.now }
    {
        let (before, row) = self.reads.split_at(self.before);
        match answer_among(before, question) {
            Some(answer) => Some(answer),
            None => answer_in_row(row, self.session, self.first, question),
        }
    }

    /// All of them.
    pub(crate) fn as_slice(&self) -> &[Read]
        ensures reads { result.now ≡ self.now }
        ensures once { IsTrue (are_new [] self.now) }
    {
        self.reads.as_slice()
    }

    /// Notes the answer to a question that had none, where it asks for the entry behind the last; else gives both back.
    pub(crate) fn add(
        &mut self,
        question: Question,
        answer: Answer,
    ) -> Result<Option<Read>, AllocError>
        requires { lookup question self.old ≡ None }
        ensures added { IfOk result
            (λ back. IfNone back (self.new ≡ self.old ++ record { question = question; answer = answer } ∷ [])) }
        ensures back { IfOk result
            (λ back. IfSome back (λ read. (self.new ≡ self.old) × (read ≡ record { question = question; answer = answer }))) }
    {
        let Question::Entry(entry) = &question else {
            return Ok(Some(Read { question, answer }));
        };
        let next = self.first as usize + (self.reads.len() - self.before);
        if entry.session != self.session {
            return Ok(Some(Read { question, answer }));
        }
        if entry.place as usize != next {
            return Ok(Some(Read { question, answer }));
        }
        self.reads.push(Read { question, answer })?;
        Ok(None)
    }

    /// All of them, as a vector.
    pub(crate) fn into_reads(self) -> Vec<Read>
        ensures reads { result.items ≡ self }
        ensures once { IsTrue (are_new [] result.items) }
    {
        let Row {
            reads,
            before: _,
            session: _,
            first: _,
        } = self;
        reads
    }
}
