//! The calls that enter the history.
ghost use Rattle.std.specs.Prelude.{◌≡◌, List, IfOk};
ghost use Rattle.dg_bench.specs.declared.call.Call.TheVariants.{Edit as edited, Ask as asked, Commit as committed, Live as lived, Report as reported};
ghost use Rattle.dg_records.specs.Truth.{RecordView};
ghost use Rattle.dg_transcript.specs.declared.entry.Entry.{Entry};
ghost use Rattle.dg_world.specs.declared.question.Question.{Question as Questioned};
ghost use Rattle.dg_world.specs.declared.question.Answer.{Answer as Answered};
ghost use Rattle.dg_world.specs.declared.question.Answer.TheVariants.{Reading as read_as};

use dg_bytes::TryCopy;
use dg_core::Reply;
use dg_match::Reading;
use dg_records::Record;
use dg_transcript::Transcript;
use dg_world::{Answer, Edit, Question};
use std::alloc::{AllocError, Global};

/// A call that was accepted, with its reply.
#[derive(Drop)]
pub enum Call {
    /// An edit of the world.
    Edit(Edit),
    /// The first question for a pattern, and the answer.
    Ask(Question, Answer),
    /// A record that was kept.
    Commit(Record),
    /// A live run that was kept: its record, and its transcript.
    Live(Record, Transcript),
    /// A report, and what it answered.
    Report(Reply),
}

impl Call {
    /// An equal call, or want of memory.
    pub fn copy(&self, alloc: Global) -> Result<Call, AllocError>
        ensures { IfOk result (λ c. c ≡ self.now) }
    {
        match self {
            Call::Edit(edit) => Call::of_edit(alloc, edit),
            Call::Ask(question, answer) => Call::of_ask(alloc, question, answer),
            Call::Commit(record) => Call::of_commit(alloc, record),
            Call::Live(record, transcript) => Call::of_live(alloc, record, transcript),
            Call::Report(reply) => Call::of_report(alloc, reply),
        }
    }

    /// The call of an edit, of which it has a copy.
    pub(crate) fn of_edit(alloc: Global, edit: &Edit) -> Result<Call, AllocError>
        ensures { IfOk result (λ c. c ≡ edited edit.now) }
    {
        Ok(Call::Edit(edit.copy(alloc)?))
    }

    /// The call of a question with its answer, of which it has copies.
    pub(crate) fn of_ask(
        alloc: Global,
        question: &Question,
        answer: &Answer,
    ) -> Result<Call, AllocError>
        ensures { IfOk result (λ c. c ≡ asked question.now answer.now) }
    {
        let question = question.copy(alloc)?;
        Ok(Call::Ask(question, answer.copy(alloc)?))
    }

    /// The call that keeps a record, of which it has a copy.
    pub(crate) fn of_commit(alloc: Global, newest: &Record) -> Result<Call, AllocError>
        ensures { IfOk result (λ c. c ≡ committed newest.now) }
    {
        Ok(Call::Commit(newest.copy(alloc)?))
    }

    /// The call that keeps a live run, of whose record and transcript it has copies.
    pub(crate) fn of_live(
        alloc: Global,
        newest: &Record,
        transcript: &Transcript,
    ) -> Result<Call, AllocError>
        ensures { IfOk result (λ c. c ≡ lived newest.now transcript.now) }
    {
        let newest = newest.copy(alloc)?;
        Ok(Call::Live(newest, transcript.copy(alloc)?))
    }

    /// The call of a report that was answered so, of which it has a copy.
    pub(crate) fn of_report(alloc: Global, reply: &Reply) -> Result<Call, AllocError>
        ensures { IfOk result (λ c. c ≡ reported reply.now) }
    {
        Ok(Call::Report(reply.copy(alloc)?))
    }

    /// The record that a call keeps.
    pub(crate) fn into_commit(self) -> Record
        requires { (r : RecordView) × (self ≡ committed r) }
        ensures { self ≡ committed result }
    {
        match self {
            Call::Commit(record) => record,
            _ => unreachable!(),
        }
    }

    /// The record and the transcript of the live run that a call keeps.
    pub(crate) fn into_live(self) -> (Record, Transcript)
        requires { (r : RecordView) × (sessions : List (List Entry)) × (self ≡ lived r sessions) }
        ensures { self ≡ lived result.0 result.1 }
    {
        match self {
            Call::Live(record, transcript) => (record, transcript),
            _ => unreachable!(),
        }
    }

    /// Writes how a pattern is read into the call that asks for it.
    pub(crate) fn tell(&mut self, reading: Reading)
        requires { (question : Questioned) × (answer : Answered) × (self.old ≡ asked question answer) }
        ensures { (question : Questioned) (answer : Answered) → self.old ≡ asked question answer → self.new ≡ asked question
            (read_as reading) }
    {
        if let Call::Ask(_, answer) = self {
            *answer = Answer::Reading(reading);
        }
    }
}
