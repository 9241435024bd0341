//! A world with its kept records, of which an edit compares only the reads that it touches.
ghost use Rattle.std.specs.Prelude.{◌≡◌, ◌⊎◌, Ok, Err, None, true, IfOk, IfErr, IfSome, OnOk, OnErr, IsTrue, length, option_map, slice_get};
ghost use Rattle.dg_index.specs.Index.{is_among};
ghost use Rattle.dg_index.specs.Kept.{committed, committed_live, edited_kept, holds_if_kept, new_kept, place_of, IsAskedOf};
ghost use Rattle.dg_index.specs.Marks.{judged_of};
ghost use Rattle.dg_index.specs.Topic.{touched};
ghost use Rattle.dg_index.specs.Touching.{OnlyTheseRead};
ghost use Rattle.dg_records.specs.Truth.{holds, IsTrueRecord};
ghost use Rattle.dg_world.specs.World.{look, takes_memory};

use crate::index::Index;
use crate::looking::{look_again, look_at_readers};
use crate::marked::Marked;
use crate::numbers::Now;
use crate::placing::{give_back, make_room, place, place_marked};
use crate::topic::Topic;
use crate::touching::places_touched;
use dg_bytes::TryCopy;
use dg_contents::Contents;
use dg_records::Record;
use dg_sum::Judged;
use dg_transcript::Transcript;
use dg_world::{Answer, Edit, Question, Refusal, TestId, World};
use indexmap::IndexMap;
use std::alloc::{AllocError, Global};
use std::marker::Model;

/// A world, one record for each test that had one, and the number of reads that were compared with the world. The contents of
/// files that records were given are known by numbers.
pub struct Kept {
    world: World,
    records: IndexMap<TestId, Marked>,
    index: Index,
    contents: Contents,
    compared: u64,
}

/// Written by hand, and so one call for whoever lets it go.
impl Drop for Kept {
    fn drop(self) {
        let Kept {
            world: _,
            records: _,
            index: _,
            contents: _,
            compared: _,
        } = self;
    }
}

impl Model for Kept {
    ghost use Rattle.dg_index.specs.Kept.{KeptView, IsKept};
    ghost use Rattle.dg_index.specs.Marks.{shelf_of};
    ghost use Rattle.dg_index.specs.Numbers.{IsNumbered};

    ghost Value = { KeptView };

    ghost view = { λ k. record { world = k.world; shelf = shelf_of k.records.entries; compared = k.compared } };

    ghost invariant = { λ k. IsKept k.world k.records.entries k.index × IsNumbered k.contents k.records.entries };
}

impl Kept {
    /// A new world, of which nothing is kept.
    pub fn new(alloc: Global) -> Result<Kept, AllocError>
        ensures { IfOk result (λ k. k ≡ new_kept) }
    {
        Ok(Kept {
            world: World::new(alloc)?,
            records: IndexMap::new(alloc),
            index: Index::new(alloc),
            contents: Contents::new(alloc),
            compared: 0,
        })
    }

    /// The world.
    pub fn world(&self) -> &World
        ensures { result.now ≡ self.now.world }
    {
        &self.world
    }

    /// How many reads were compared with the world; the count stays at its last value.
    pub fn compared(&self) -> u64
        ensures { result ≡ self.now.compared }
    {
        self.compared
    }

    /// The place of a test's record among those that are kept, which it keeps from then on.
    pub fn place_of(&self, test: &TestId) -> Option<usize>
        ensures { result ≡ place_of self.now.shelf test.now }
    {
        self.records.get_index_of(test)
    }

    /// The test of the record at a place with its lines, which are those that it has wherever the answers that were read are
    /// given.
    pub fn judged_at(&self, place: usize) -> Option<Judged<'_>>
        ensures judged { result ≡ option_map judged_of (slice_get self.now.shelf place) }
        ensures is_true { IfSome (slice_get self.now.shelf place) (λ r. IsTrueRecord r.test r.reads r.verdict) }
    {
        match self.records.get_index(place) {
            Some((_, marked)) => Some(marked.judged()),
            None => None,
        }
    }

    /// Whether the record at a place holds in the world. It compares nothing.
    pub fn is_held_at(&self, place: usize) -> bool
        ensures { result ≡ holds_if_kept self.now.world (slice_get self.now.shelf place) }
    {
        match self.records.get_index(place) {
            Some((_, marked)) => marked.is_clear(),
            None => false,
        }
    }

    /// How many records are kept.
    pub fn record_count(&self) -> usize
        ensures { result ≡ length self.now.shelf }
    {
        self.records.len()
    }

    /// The places of the records that may read what an edit touches, with the edit back. It takes no memory.
    pub fn places_touched(&self, edit: Edit) -> (&[usize], Edit)
        ensures only { OnlyTheseRead (is_among result.0.now) (touched edit) self.now.shelf }
        ensures back { result.1 ≡ edit }
    {
        places_touched(&self.index, edit)
    }

    /// Edits the world and compares each read of what the edit touches, or refuses the edit and changes nothing. `Memory`
    /// only where a file is added that nothing else refuses.
    pub fn edit(&mut self, alloc: Global, edit: Edit) -> Result<(), Refusal>
        ensures ok { OnOk result (edited_kept self.old edit ≡ Ok self.new) }
        ensures which { IfErr result (λ r. (r ≡ Refusal.Memory) ⊎ (edited_kept self.old edit ≡ Err r)) }
        ensures memory { (result ≡ Err Refusal.Memory) → IsTrue (takes_memory self.old.world edit) }
        ensures err { OnErr result (self.new ≡ self.old) }
    {
        let (found, edit) = self.index.find_touched(edit);
        let Some((topic, places)) = found else {
            self.world.edit(alloc, edit)?;
            return Ok(());
        };
        let now = Now::after(&self.contents, &edit);
        self.world.edit(alloc, edit)?;
        self.compared = look_again(
            &mut self.records,
            places,
            topic,
            &self.world,
            &self.contents,
            &now,
            self.compared,
        );
        Ok(())
    }

    /// The answer to a question. A pattern that is asked for the first time is read, its answer goes into the book for
    /// good, and each read of it is compared; no other question changes anything, nor does want of memory.
    pub fn ask(&mut self, alloc: Global, question: &Question) -> Result<Answer, AllocError>
        ensures ok { IfOk result (IsAskedOf self.old self.new question.now) }
        ensures err { OnErr result (self.new ≡ self.old) }
    {
        match self.world.answer(alloc, question)? {
            Some(answer) => Ok(answer),
            None => self.ask_first(alloc, question),
        }
    }

    /// The answer to the first question for a pattern.
    fn ask_first(&mut self, alloc: Global, question: &Question) -> Result<Answer, AllocError>
        requires { look self.old.world question.now ≡ None }
        ensures ok { IfOk result (IsAskedOf self.old self.new question.now) }
        ensures err { OnErr result (self.new ≡ self.old) }
    {
        let topic = Topic::of(alloc, question)?;
        let answer = self.world.ask(alloc, question)?;
        self.compared = look_at_readers(
            &mut self.records,
            &self.index,
            &topic,
            &self.world,
            &self.contents,
            self.compared,
        );
        Ok(answer)
    }

    /// Keeps a record in the place of the one that its test had and compares its reads, or gives it back and changes
    /// nothing where there is no room for it.
    pub fn commit(&mut self, alloc: Global, newest: Record) -> Result<(), Record>
        ensures ok { OnOk result (self.new ≡ committed self.old newest) }
        ensures err { OnErr result (self.new ≡ self.old) }
        ensures back { IfErr result (λ r. r ≡ newest) }
    {
        let (test, marked) = make_room(
            alloc,
            &mut self.records,
            &mut self.index,
            &mut self.contents,
            newest,
        )?;
        self.compared = place(
            &mut self.records,
            &mut self.contents,
            test,
            marked,
            &self.world,
            self.compared,
        );
        Ok(())
    }

    /// The same with a record that holds in the world, as one does whose reads the world has just answered: its reads count
    /// as compared, and none is.
    pub fn commit_held(&mut self, alloc: Global, newest: Record) -> Result<(), Record>
        requires { holds self.old.world newest ≡ true }
        ensures ok { OnOk result (self.new ≡ committed self.old newest) }
        ensures err { OnErr result (self.new ≡ self.old) }
        ensures back { IfErr result (λ r. r ≡ newest) }
    {
        let (test, marked) = make_room(
            alloc,
            &mut self.records,
            &mut self.index,
            &mut self.contents,
            newest,
        )?;
        self.compared = place_marked(
            &mut self.records,
            &mut self.contents,
            test,
            marked,
            self.compared,
        );
        Ok(())
    }

    /// Keeps the record of a live run, in the place of the one that its test had, and makes its transcript that of its
    /// test: both, or neither, and then both come back. `TooMany` only where it is a new test beside 65,536 transcripts,
    /// and `Memory` where a growth was refused, which comes first.
    pub fn commit_live(
        &mut self,
        alloc: Global,
        newest: Record,
        transcript: Transcript,
    ) -> Result<(), (Refusal, Record, Transcript)>
        ensures ok { OnOk result (committed_live self.old newest transcript ≡ Ok self.new) }
        ensures which { IfErr result (λ r. (r.0 ≡ Refusal.Memory) ⊎ (committed_live self.old newest transcript ≡ Err r.0)) }
        ensures err { OnErr result (self.new ≡ self.old) }
        ensures back { IfErr result (λ r. (r.1 ≡ newest) × (r.2 ≡ transcript)) }
    {
        let Ok((topic, copy)) = copies(alloc, &newest, &transcript) else {
            return Err((Refusal::Memory, newest, transcript));
        };
        let (test, marked) = match make_room(
            alloc,
            &mut self.records,
            &mut self.index,
            &mut self.contents,
            newest,
        ) {
            Ok(room) => room,
            Err(newest) => return Err((Refusal::Memory, newest, transcript)),
        };
        if let Err(refusal) = self.world.put_transcript(alloc, &test, copy) {
            let newest = give_back(&mut self.contents, marked);
            return Err((refusal, newest, transcript));
        }
        self.compared = look_at_readers(
            &mut self.records,
            &self.index,
            &topic,
            &self.world,
            &self.contents,
            self.compared,
        );
        self.compared = place(
            &mut self.records,
            &mut self.contents,
            test,
            marked,
            &self.world,
            self.compared,
        );
        Ok(())
    }
}

/// The topic of a live run's transcript, and a copy of it.
fn copies(
    alloc: Global,
    newest: &Record,
    transcript: &Transcript,
) -> Result<(Topic, Transcript), AllocError>
    ensures topic { IfOk result (λ r. r.0 ≡ Topic.Transcript newest.now.test.board newest.now.test.script) }
    ensures copy { IfOk result (λ r. r.1 ≡ transcript.now) }
{
    let topic = Topic::of_test(alloc, newest.test())?;
    Ok((topic, transcript.copy(alloc)?))
}
