//! The world: files by name, what is run, transcripts by test, and the book of patterns.
ghost use Rattle.std.specs.Prelude.{◌≡◌, ◌≢◌, ◌++◌, Some, Ok, option_and_then, option_copied, false, Err, IfOk, IfErr, IfSome, OnOk, OnErr, IsTrue, ◌↔◌, ◌⊎◌, length};
ghost use Rattle.std.specs.List.Sorted.{IsStrictlySortedBy};
ghost use Rattle.std.specs.Ordering.{nat_cmp};
ghost use Rattle.std.specs.Cmp.Lexicographic.{slice_cmp};
ghost use Rattle.std.specs.Map.{keys_of};
ghost use Rattle.dg_world.specs.Name.{is_single_part};
ghost use Rattle.dg_world.specs.Tests.{tests_on};
ghost use Rattle.dg_transcript.specs.Sessions.{entry_at};
ghost use Rattle.dg_world.specs.Transcripts.{entry_answer, refusal_for, transcript_in};

use crate::edit::Edit;
use crate::name::{Name, is_name};
use crate::question::{Answer, EntryPlace, Question, are_same_entry};
use crate::refusal::Refusal;
use crate::selection::Selection;
use crate::test_id::TestId;
use dg_bytes::{Bytes, Seq, TryCopy};
use dg_match::PatternBook;
use dg_transcript::{Cause, Entry, Transcript, decode};
use std::alloc::{AllocError, Global};
use std::collections::BTreeMap;
use std::marker::Model;

const MAX_FILES: usize = 4096;

const MAX_FILE_LENGTH: usize = 1_048_576;

const MAX_TRANSCRIPTS: usize = 65_536;

/// What scripts are judged in: at most 4,096 files, each a name with at most 1,048,576 bytes, a selection, at most 65,536
/// transcripts of tests, and the book of patterns, whose answers stay for good.
pub struct World {
    files: BTreeMap<Name, Bytes>,
    selection: Selection,
    transcripts: BTreeMap<TestId, Transcript>,
    book: PatternBook,
}

impl Drop for World {
    fn drop(self) {
        let World {
            files: _,
            selection: _,
            transcripts: _,
            book: _,
        } = self;
    }
}

impl Model for World {
    ghost use Rattle.std.specs.Prelude.{IsTrue};
    ghost use Rattle.dg_world.specs.World.{WorldView, is_world};

    ghost Value = { WorldView };

    ghost view = { λ w. record { files = w.files.entries; selection = w.selection; transcripts = w.transcripts.entries; book = w.book } };

    ghost invariant = { λ w. IsTrue (is_world (record { files = w.files.entries; selection = w.selection; transcripts = w.transcripts.entries; book = w.book })) };
}

/// The entry at a place of a transcript.
fn entry_in<'a>(transcript: Option<&'a Transcript>, place: &EntryPlace) -> Option<&'a Entry>
    ensures { option_copied result ≡ option_and_then (λ ss. entry_at ss place.now.session place.now.place)
        (option_copied transcript.entry) }
{
    match transcript {
        Some(transcript) => transcript.entry(place.session, place.place),
        None => None,
    }
}

/// Whether this is the answer where this entry stands at a place, or none does.
fn is_entry_answer(held: Option<&Entry>, answer: &Answer) -> bool
    ensures { IsTrue result ↔ (entry_answer (option_copied held.entry) ≡ answer.now) }
{
    match (held, answer) {
        (Some(held), Answer::Entry(entry)) => are_same_entry(held, entry),
        (None, Answer::Ended) => true,
        _ => false,
    }
}

impl World {
    ghost use Rattle.dg_world.specs.World.{new_world, edited, takes_memory, look, selected, scripts, is_world, entry_of, lacks_room, recorded, transcript_of, with_transcript, FitsQuestion, IsAsked};

    /// A world with no files and no transcripts, the first selection, and an empty book.
    pub fn new(alloc: Global) -> Result<World, AllocError>
        ensures { IfOk result (λ w. w ≡ new_world) }
    {
        Ok(World {
            files: BTreeMap::new(alloc),
            selection: Selection::of_new_world(alloc)?,
            transcripts: BTreeMap::new(alloc),
            book: PatternBook::new(alloc),
        })
    }

    /// Makes an edit, or refuses it and changes nothing. `Memory` only where a file is added that nothing else refuses, or
    /// where a transcript is read: a file in the place of another one takes none, nor does a removal or a selection.
    pub fn edit(&mut self, alloc: Global, edit: Edit) -> Result<(), Refusal>
        ensures ok { OnOk result (edited self.old edit ≡ Ok self.new) }
        ensures which { IfErr result (λ r. (r ≡ Refusal.Memory) ⊎ (edited self.old edit ≡ Err r)) }
        ensures memory { (result ≡ Err Refusal.Memory) → IsTrue (takes_memory self.old edit) }
        ensures err { OnErr result (self.new ≡ self.old) }
    {
        match edit {
            Edit::PutFile(name, bytes) => self.put_file(shared(alloc, name), shared(alloc, bytes)),
            Edit::RemoveFile(name) => self.remove_file(name),
            Edit::Select(selection) => self.select(selection),
            Edit::PutTranscript(board, script, text) => {
                self.put_transcript_text(alloc, board, script, text)
            }
            Edit::DropTranscript(board, script) => self.drop_transcript(board, script),
        }
    }

    /// Puts a file. The bytes move in.
    fn put_file(&mut self, name: Bytes, bytes: Bytes) -> Result<(), Refusal>
        ensures ok { OnOk result (edited self.old (Edit.PutFile name bytes) ≡ Ok self.new) }
        ensures which { IfErr result (λ r. (r ≡ Refusal.Memory) ⊎ (edited self.old (Edit.PutFile name bytes) ≡ Err r)) }
        ensures memory { (result ≡ Err Refusal.Memory) → IsTrue (takes_memory self.old (Edit.PutFile name bytes)) }
        ensures err { OnErr result (self.new ≡ self.old) }
    {
        if !is_name(name.as_slice()) {
            return Err(Refusal::BadName);
        }
        if bytes.len() > MAX_FILE_LENGTH {
            return Err(Refusal::TooLong);
        }
        let name = Name::from_valid(name);
        if self.files.len() >= MAX_FILES && !self.files.contains_key(&name) {
            return Err(Refusal::TooMany);
        }
        if self.files.insert(name, bytes).is_err() {
            return Err(Refusal::Memory);
        }
        Ok(())
    }

    /// Removes a file.
    fn remove_file(&mut self, name: Bytes) -> Result<(), Refusal>
        ensures ok { OnOk result (edited self.old (Edit.RemoveFile name) ≡ Ok self.new) }
        ensures which { IfErr result (λ r. edited self.old (Edit.RemoveFile name) ≡ Err r) }
        ensures no_memory { result ≢ Err Refusal.Memory }
        ensures err { OnErr result (self.new ≡ self.old) }
    {
        if !is_name(name.as_slice()) {
            return Err(Refusal::BadName);
        }
        if self.files.remove(&Name::from_valid(name)).is_none() {
            return Err(Refusal::NoSuchFile);
        }
        Ok(())
    }

    /// Selects what is run.
    fn select(&mut self, selection: Selection) -> Result<(), Refusal>
        ensures ok { OnOk result (edited self.old (Edit.Select selection) ≡ Ok self.new) }
        ensures which { IfErr result (λ r. edited self.old (Edit.Select selection) ≡ Err r) }
        ensures no_memory { result ≢ Err Refusal.Memory }
        ensures err { OnErr result (self.new ≡ self.old) }
    {
        if !selection.is_valid() {
            return Err(Refusal::BadSelection);
        }
        self.selection = selection;
        Ok(())
    }

    /// Whether a transcript of this test would be one too many.
    fn lacks_room(&self, test: &TestId) -> bool
        ensures { result ≡ lacks_room self.now test.now }
    {
        self.transcripts.len() >= MAX_TRANSCRIPTS && !self.transcripts.contains_key(test)
    }

    /// Makes this the transcript of a test, for which there is room, or wants memory and changes nothing.
    fn insert_transcript(&mut self, test: TestId, transcript: Transcript) -> Result<(), AllocError>
        requires { lacks_room self.old test ≡ false }
        ensures ok { OnOk result (self.new ≡ with_transcript self.old test transcript) }
        ensures err { OnErr result (self.new ≡ self.old) }
    {
        if self.transcripts.insert(test, transcript).is_err() {
            return Err(AllocError);
        }
        Ok(())
    }

    /// Makes this the transcript of a test, in place of one that it has, or changes nothing. `TooMany` where it is a new
    /// test beside 65,536 transcripts, else `Memory` where there is no room for it.
    pub fn put_transcript(
        &mut self,
        alloc: Global,
        test: &TestId,
        transcript: Transcript,
    ) -> Result<(), Refusal>
        ensures ok { OnOk result (recorded self.old test.now transcript ≡ Ok self.new) }
        ensures which { IfErr result (λ r. (r ≡ Refusal.Memory) ⊎ (recorded self.old test.now transcript ≡ Err r)) }
        ensures memory { (result ≡ Err Refusal.Memory) → lacks_room self.old test.now ≡ false }
        ensures err { OnErr result (self.new ≡ self.old) }
    {
        if self.lacks_room(test) {
            return Err(Refusal::TooMany);
        }
        let test = test.copy(alloc)?;
        self.insert_transcript(test, transcript)?;
        Ok(())
    }

    /// Makes a text the transcript of a test.
    fn put_transcript_text(
        &mut self,
        alloc: Global,
        board: Bytes,
        script: Bytes,
        text: Bytes,
    ) -> Result<(), Refusal>
        ensures ok { OnOk result (edited self.old (Edit.PutTranscript board script text) ≡ Ok self.new) }
        ensures which { IfErr result
            (λ r. (r ≡ Refusal.Memory) ⊎ (edited self.old (Edit.PutTranscript board script text) ≡ Err r)) }
        ensures memory { (result ≡ Err Refusal.Memory) → IsTrue (takes_memory self.old (Edit.PutTranscript board script text)) }
        ensures err { OnErr result (self.new ≡ self.old) }
    {
        let Some(test) = TestId::from_bytes(board, script) else {
            return Err(Refusal::BadName);
        };
        if self.lacks_room(&test) {
            return Err(Refusal::TooMany);
        }
        let transcript = read_transcript(alloc, text.as_slice())?;
        self.insert_transcript(test, transcript)?;
        Ok(())
    }

    /// Removes the transcript of a test.
    fn drop_transcript(&mut self, board: Bytes, script: Bytes) -> Result<(), Refusal>
        ensures ok { OnOk result (edited self.old (Edit.DropTranscript board script) ≡ Ok self.new) }
        ensures which { IfErr result (λ r. edited self.old (Edit.DropTranscript board script) ≡ Err r) }
        ensures no_memory { result ≢ Err Refusal.Memory }
        ensures err { OnErr result (self.new ≡ self.old) }
    {
        let Some(test) = TestId::from_bytes(board, script) else {
            return Err(Refusal::BadName);
        };
        if self.transcripts.remove(&test).is_none() {
            return Err(Refusal::NoSuchTranscript);
        }
        Ok(())
    }

    /// The transcript of a test, if it has one.
    pub fn transcript(&self, test: &TestId) -> Option<&Transcript>
        ensures { option_copied result ≡ transcript_of self.now test.now }
    {
        self.transcripts.get(test)
    }

    /// The entry at a place of a test's transcript.
    fn entry(&self, place: &EntryPlace) -> Option<&Entry>
        ensures { option_copied result ≡ entry_of self.now place.now }
    {
        entry_in(self.transcript(&place.test), place)
    }

    /// What it answers to a question, if it has an answer: it has none only to a pattern that it was never asked for.
    pub fn answer(&self, alloc: Global, question: &Question) -> Result<Option<Answer>, AllocError>
        ensures looked { IfOk result (λ a. a ≡ look self.now question.now) }
        ensures fits { IfOk result (λ a. IfSome a (FitsQuestion question.now)) }
    {
        match question {
            Question::File(name) => match self.files.get(name) {
                Some(bytes) => Ok(Some(Answer::Content(bytes.copy(alloc)?))),
                None => Ok(Some(Answer::Absent)),
            },
            Question::Tool => Ok(Some(Answer::Tool(self.selection.tool.copy(alloc)?))),
            Question::Triplet(system) => {
                let triplet = self.selection.triplet(*system);
                Ok(Some(Answer::Triplet(triplet.copy(alloc)?)))
            }
            Question::Variable(name) => match self.selection.value_of(name) {
                Some(value) => Ok(Some(Answer::Value(value.copy(alloc)?))),
                None => Ok(Some(Answer::Unset)),
            },
            Question::Entry(place) => match self.entry(place) {
                Some(entry) => Ok(Some(Answer::Entry(entry.copy(alloc)?))),
                None => Ok(Some(Answer::Ended)),
            },
            Question::Pattern(text) => match self.book.get(text) {
                Some(reading) => Ok(Some(Answer::Reading(reading))),
                None => Ok(None),
            },
        }
    }

    /// Whether it answers this to a question.
    pub fn agrees(&self, question: &Question, answer: &Answer) -> bool
        ensures { IsTrue result ↔ (look self.now question.now ≡ Some answer.now) }
    {
        match question {
            Question::File(name) => match (self.files.get(name), answer) {
                (Some(held), Answer::Content(bytes)) => *held == *bytes,
                (None, Answer::Absent) => true,
                _ => false,
            },
            Question::Tool => match answer {
                Answer::Tool(tool) => *tool == self.selection.tool,
                _ => false,
            },
            Question::Triplet(system) => match answer {
                Answer::Triplet(triplet) => *triplet == *self.selection.triplet(*system),
                _ => false,
            },
            Question::Variable(name) => match (self.selection.value_of(name), answer) {
                (Some(held), Answer::Value(value)) => *held == *value,
                (None, Answer::Unset) => true,
                _ => false,
            },
            Question::Entry(place) => is_entry_answer(self.entry(place), answer),
            Question::Pattern(text) => match (self.book.get(text), answer) {
                (Some(held), Answer::Reading(reading)) => held == *reading,
                _ => false,
            },
        }
    }

    /// The same, with the transcript of a test, which was looked for before: its entries are not sought by their test.
    pub fn agrees_with(
        &self,
        test: &TestId,
        transcript: Option<&Transcript>,
        question: &Question,
        answer: &Answer,
    ) -> bool
        requires { option_copied transcript ≡ transcript_of self.now test.now }
        ensures { IsTrue result ↔ (look self.now question.now ≡ Some answer.now) }
    {
        match question {
            Question::Entry(place) if place.test.is(test) => {
                is_entry_answer(entry_in(transcript, place), answer)
            }
            _ => self.agrees(question, answer),
        }
    }

    /// The answer to a question. A pattern that is asked for the first time is read, and its answer goes into the book for
    /// good; no other question changes anything, nor does want of memory.
    pub fn ask(&mut self, alloc: Global, question: &Question) -> Result<Answer, AllocError>
        ensures ok { IfOk result (IsAsked self.old self.new question.now) }
        ensures err { OnErr result (self.new ≡ self.old) }
    {
        if let Question::Pattern(text) = question {
            let reading = self.book.ask(alloc, text)?;
            return Ok(Answer::Reading(reading));
        }
        match self.answer(alloc, question)? {
            Some(answer) => Ok(answer),
            None => unreachable!(),
        }
    }

    /// The selected tests: board by board in the selection's order, and on each board the scripts in byte order of their
    /// names. A script of the tool is a file whose name has two parts or more, whose first part begins with the tool's name
    /// and is none of `lib`, `boards` and `transcripts`, and which ends in `.exp`. It is selected if `only` is empty or has
    /// its name or the last part of it, and `ignore` has neither.
    pub fn selected(&self, alloc: Global) -> Result<Seq<TestId>, AllocError>
        ensures { IfOk result (λ l. l ≡ selected self.now) }
    {
        let scripts = self.scripts(alloc)?;
        let mut tests = Vec::new(alloc);
        for board in self.selection.boards.as_slice() {
            push_tests(alloc, &mut tests, board, scripts.as_slice())?;
        }
        Ok(Seq::from_vec(tests))
    }

    /// The selected scripts, in byte order.
    fn scripts(&self, alloc: Global) -> Result<Vec<Name>, AllocError>
        ensures { IfOk result (λ v. v.items ≡ scripts self.now) }
    {
        let mut scripts = Vec::new(alloc);
        for name in self.files.keys() {
            if self.selection.selects(name.as_slice()) {
                scripts.push(name.copy(alloc)?)?;
            }
        }
        Ok(scripts)
    }

    /// What is run.
    pub fn selection(&self) -> &Selection
        ensures { result.now ≡ self.now.selection }
    {
        &self.selection
    }

    /// How many transcripts there are: at most 65,536.
    pub fn transcript_count(&self) -> usize
        ensures { result ≡ length self.now.transcripts }
    {
        self.transcripts.len()
    }

    /// How many files there are: at most 4,096. Their names are in byte order, each once.
    pub fn file_count(&self) -> usize
        ensures count { result ≡ length self.now.files }
        ensures ordered { IsStrictlySortedBy (slice_cmp nat_cmp) (keys_of self.now.files) }
        ensures valid { IsTrue (is_world self.now) }
    {
        self.files.len()
    }
}

/// The same bytes, which are shared from then on if there is room for that: names by the tests that are listed, contents
/// by the records that have read them.
fn shared(alloc: Global, bytes: Bytes) -> Bytes
    ensures { result ≡ bytes }
{
    match bytes.to_text(alloc) {
        Ok(text) => Bytes::from_text(text),
        Err(_) => bytes,
    }
}

/// The transcript that a text spells, or its first bad line.
fn read_transcript(alloc: Global, text: &[u8]) -> Result<Transcript, Refusal>
    ensures ok { IfOk result (λ t. transcript_in text.now ≡ Ok t) }
    ensures which { IfErr result (λ r. (r ≡ Refusal.Memory) ⊎ (transcript_in text.now ≡ Err r)) }
{
    match decode(alloc, text) {
        Ok(transcript) => Ok(transcript),
        Err((line, cause)) => Err(refusal_for(line, cause)),
    }
}

/// The refusal for a fault of reading.
fn refusal_for(line: u32, cause: Cause) -> Refusal
    ensures { result ≡ refusal_for line cause }
{
    match cause {
        Cause::Memory => Refusal::Memory,
        _ => Refusal::BadTranscript(line, cause),
    }
}

/// Adds the tests of scripts on a board.
#[tactic(auto, using(crate::proofs::NameLemmas::name_from_single_part))]
fn push_tests(
    alloc: Global,
    tests: &mut Vec<TestId>,
    board: &Bytes,
    scripts: &[Name],
) -> Result<(), AllocError>
    requires { IsTrue (is_single_part board.now) }
    ensures { OnOk result (tests.new.items ≡ tests.old.items ++ tests_on scripts.now board.now) }
{
    let board = board.to_text(alloc)?;
    for script in scripts {
        let board = Name::from_valid(Bytes::from_text(board.share()?));
        tests.push(TestId::of(board, script.copy(alloc)?))?;
    }
    Ok(())
}
