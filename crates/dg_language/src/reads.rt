//! The answers that an evaluation has had.
ghost use Rattle.std.specs.Prelude.{◌≡◌, ◌++◌, ◌∷◌, [], None, Some, OnErr, OnOk, IfOk, IfSome, IsTrue};
ghost use Rattle.std.specs.List.{find};
ghost use Rattle.std.specs.Option.{option_copied, option_map};
ghost use Rattle.dg_language.specs.Play.{lookup};
ghost use Rattle.dg_language.specs.Row.{are_new};
ghost use Rattle.dg_language.specs.Reads.{is_once, reads_held, reads_of};
ghost use Rattle.dg_world.specs.Question.{same_question};

use crate::row::Row;
use dg_bytes::Seq;
use dg_transcript::Entry;
use dg_world::{Answer, EntryPlace, Question, Read, TestId};
use indexmap::IndexMap;
use std::alloc::{AllocError, Global};
use std::marker::Model;
use std::mem;

/// How many answers are looked through one by one: most evaluations have no more.
const NEAR: usize = 16;

/// What is kept of the answers.
#[derive(Drop)]
enum Form {
    /// At most 16.
    Few(Vec<Read>),
    /// More, which end with the entries of a session in a row.
    Row(Row),
    /// More, found by the hashes of their questions.
    Many(IndexMap<Question, Answer>),
}

/// The questions that were answered, each once. A contract sees the list of them with their answers, in the order in which
/// they came.
pub struct Reads {
    form: Form,
}

impl Drop for Reads {
    fn drop(self) {
        let Reads { form: _ } = self;
    }
}

impl Model for Reads {
    ghost use Rattle.std.specs.Prelude.{List, IsTrue};
    ghost use Rattle.dg_world.specs.declared.question.Read.{Read};
    ghost use Rattle.dg_language.specs.Reads.{is_once, reads_held};

    ghost Value = { List Read };

    ghost view = { λ r. reads_held r.form };

    ghost invariant = { λ r. IsTrue (is_once r.form) };
}

/// The first answer to a question among reads.
pub(crate) fn answer_among<'a>(reads: &'a [Read], question: &Question) -> Option<&'a Answer>
    ensures { option_copied result ≡ option_map (λ read. read.answer)
        (find (λ read. same_question read.question question.now) reads.now) }
{
    match question {
        Question::Entry(place) => entry_among(reads, place),
        _ => {
            let read = reads.iter().find(|read| read.question.is(question))?;
            Some(&read.answer)
        }
    }
}

/// The same where the question is for an entry.
fn entry_among<'a>(reads: &'a [Read], place: &EntryPlace) -> Option<&'a Answer>
    ensures { option_copied result ≡ option_map (λ read. read.answer)
        (find (λ read. same_question read.question (Question.Entry place.now)) reads.now) }
{
    let read = reads.iter().find(|read| read.question.is_for(place))?;
    Some(&read.answer)
}

/// Adds a read behind a few others. The first makes room for as many as there may be.
fn push(reads: &mut Vec<Read>, read: Read) -> Result<(), AllocError>
    ensures ok { OnOk result (reads.new.items ≡ reads.old.items ++ read ∷ []) }
    ensures err { OnErr result (reads.new.items ≡ reads.old.items) }
{
    if reads.is_empty() {
        reads.reserve(NEAR)?;
    }
    reads.push(read)?;
    Ok(())
}

/// Notes the answer to a question that had none.
fn add(
    answers: &mut IndexMap<Question, Answer>,
    question: Question,
    answer: Answer,
) -> Result<(), AllocError>
    requires { lookup question (reads_of answers.old.entries) ≡ None }
    ensures { OnOk result (reads_of answers.new.entries ≡ reads_of answers.old.entries ++ record
        { question = question; answer = answer } ∷ []) }
{
    answers.insert(question, answer)?;
    Ok(())
}

/// The same reads, found by the hashes of their questions.
fn hashed(alloc: Global, reads: Vec<Read>) -> Result<IndexMap<Question, Answer>, AllocError>
    requires { IsTrue (are_new [] reads.items) }
    ensures { IfOk result (λ answers. reads_of answers.entries ≡ reads.items) }
{
    let mut answers = IndexMap::with_capacity(alloc, reads.len())?;
    for Read { question, answer } in reads {
        add(&mut answers, question, answer)?;
    }
    Ok(answers)
}

/// The same reads and one more, found by the hashes of their questions.
fn hashed_with(
    alloc: Global,
    reads: Vec<Read>,
    question: Question,
    answer: Answer,
) -> Result<IndexMap<Question, Answer>, AllocError>
    requires once { IsTrue (are_new [] reads.items) }
    requires new { lookup question reads.items ≡ None }
    ensures { IfOk result
        (λ answers. reads_of answers.entries ≡ reads.items ++ record { question = question; answer = answer } ∷ []) }
{
    let mut answers = hashed(alloc, reads)?;
    add(&mut answers, question, answer)?;
    Ok(answers)
}

/// Puts these reads behind others.
fn list(reads: &mut Vec<Read>, answers: IndexMap<Question, Answer>) -> Result<(), AllocError>
    ensures { OnOk result (reads.new.items ≡ reads.old.items ++ reads_of answers.entries) }
{
    for (question, answer) in answers {
        reads.push(Read { question, answer })?;
    }
    Ok(())
}

/// The same reads as a list.
fn listed(answers: IndexMap<Question, Answer>) -> Result<Seq<Read>, AllocError>
    ensures { IfOk result (λ reads. reads ≡ reads_of answers.entries) }
{
    let mut reads = Vec::with_capacity(*answers.allocator(), answers.len())?;
    list(&mut reads, answers)?;
    Ok(Seq::from_vec(reads))
}

/// As many reads as are looked through one by one, and one more: where that is of an entry, a row begins with it.
fn more_than_few(
    alloc: Global,
    reads: Vec<Read>,
    question: Question,
    answer: Answer,
) -> Result<Form, AllocError>
    requires once { IsTrue (are_new [] reads.items) }
    requires new { lookup question reads.items ≡ None }
    ensures reads { IfOk result (λ form. reads_held form ≡ reads.items ++ record { question = question; answer = answer } ∷ []) }
    ensures once { IfOk result (λ form. IsTrue (is_once form)) }
{
    match &question {
        Question::Entry(entry) => {
            let mut row = Row::after(reads, entry.session, entry.place);
            match row.add(question, answer)? {
                None => Ok(Form::Row(row)),
                Some(Read { question, answer }) => {
                    let answers = hashed_with(alloc, row.into_reads(), question, answer)?;
                    Ok(Form::Many(answers))
                }
            }
        }
        _ => Ok(Form::Many(hashed_with(alloc, reads, question, answer)?)),
    }
}

impl Reads {
    /// No questions.
    pub fn new(alloc: Global) -> Reads
        ensures { result ≡ [] }
    {
        Reads {
            form: Form::Few(Vec::new(alloc)),
        }
    }

    /// The answer to a question, if it was answered.
    pub fn answer_to(&self, question: &Question) -> Option<&Answer>
        ensures { option_copied result ≡ lookup question.now self.now }
    {
        match &self.form {
            Form::Few(reads) => answer_among(reads.as_slice(), question),
            Form::Row(row) => row.answer_to(question),
            Form::Many(answers) => answers.get(question),
        }
    }

    /// The question that was answered last, and its answer.
    fn last(&self) -> Option<(&Question, &Answer)>
        ensures { IfSome result (λ last. lookup last.0.now self.now ≡ Some last.1.now) }
    {
        match &self.form {
            Form::Few(reads) => {
                let last = reads.last()?;
                Some((&last.question, &last.answer))
            }
            Form::Row(row) => {
                let last = row.as_slice().last()?;
                Some((&last.question, &last.answer))
            }
            Form::Many(answers) => answers.get_index(answers.len().saturating_sub(1)),
        }
    }

    /// The entry at a place of a session of a test, where that was answered last.
    pub fn last_entry(&self, test: &TestId, session: u32, place: u32) -> Option<&Entry>
        ensures { IfSome result (λ e. lookup (Question.Entry (record { test = test.now; session = session; place = place }))
            self.now ≡ Some (Answer.Entry e.now)) }
    {
        let (question, answer) = self.last()?;
        let Question::Entry(at) = question else {
            return None;
        };
        let Answer::Entry(entry) = answer else {
            return None;
        };
        if at.session == session && at.place == place && at.test.is(test) {
            Some(entry)
        } else {
            None
        }
    }

    /// Notes the answer to a question that had none. `AllocError` if there is no room for it.
    pub fn learn(&mut self, question: Question, answer: Answer) -> Result<(), AllocError>
        requires { lookup question self.old ≡ None }
        ensures { OnOk result (self.new ≡ self.old ++ record { question = question; answer = answer } ∷ []) }
    {
        match &mut self.form {
            Form::Few(reads) if reads.len() < NEAR => {
                push(reads, Read { question, answer })?;
            }
            Form::Few(reads) => {
                let alloc = *reads.allocator();
                let few = mem::replace(reads, Vec::new(alloc));
                self.form = more_than_few(alloc, few, question, answer)?;
            }
            Form::Row(row) => {
                if let Some(Read { question, answer }) = row.add(question, answer)? {
                    let alloc = row.allocator();
                    let row = mem::replace(row, Row::after(Vec::new(alloc), 0, 0));
                    self.form = Form::Many(hashed_with(alloc, row.into_reads(), question, answer)?);
                }
            }
            Form::Many(answers) => add(answers, question, answer)?,
        }
        Ok(())
    }

    /// The questions with their answers, in order. `AllocError` if there is no room for the list.
    pub fn into_reads(self) -> Result<Seq<Read>, AllocError>
        ensures { IfOk result (λ reads. reads ≡ self) }
    {
        let Reads { form } = self;
        match form {
            Form::Few(reads) => Ok(Seq::from_vec(reads)),
            Form::Row(row) => Ok(Seq::from_vec(row.into_reads())),
            Form::Many(answers) => listed(answers),
        }
    }
}
