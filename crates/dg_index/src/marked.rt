//! Records with their marks.
ghost use Rattle.std.specs.Prelude.{◌≡◌, false, length, replicate, IfOk, IfErr};
ghost use Rattle.dg_index.specs.Marks.{is_clear, judged_of, looked_again, marks_in, reads_on};
ghost use Rattle.dg_index.specs.Numbers.{numbers_in, AllHaveNumbers, TellsOn};
ghost use Rattle.dg_records.specs.Truth.{IsTrueRecord};

use crate::marks::Marks;
use crate::numbers::{Now, is_stale};
use crate::topic::Topic;
use dg_contents::Contents;
use dg_records::Record;
use dg_sum::{Block, Judged};
use dg_world::{Read, TestId, World};
use std::alloc::Global;
use std::marker::Model;

/// A record, and for each of its reads a mark, which is raised where the answer was another when it was last compared, and the
/// number of the content that it was given. Beside it stands what reports have of it.
pub struct Marked {
    kept: Record,
    marks: Marks,
    numbers: Vec<Option<u64>>,
    block: Block,
}

impl Drop for Marked {
    fn drop(self) {
        let Marked {
            kept: _,
            marks: _,
            numbers: _,
            block: _,
        } = self;
    }
}

impl Model for Marked {
    ghost use Rattle.std.specs.Prelude.{◌≡◌, length};
    ghost use Rattle.dg_sum.specs.Block.{block_of};
    ghost use Rattle.dg_index.specs.Marks.{MarkedView, judged_of};

    ghost Value = { MarkedView };

    ghost view = { λ m. record { record_of = m.kept; marks = m.marks; numbers = m.numbers.items } };

    ghost invariant = { λ m. (length m.marks ≡ length m.kept.reads) × (m.block ≡ block_of (judged_of m.kept)) };
}

impl Marked {
    /// A record with these numbers and no mark raised, or the record back where there is no room for what stands beside it.
    pub fn new(alloc: Global, kept: Record, numbers: Vec<Option<u64>>) -> Result<Marked, Record>
        ensures ok { IfOk result
            (λ m. m ≡ record { record_of = kept; marks = replicate (length kept.reads) false; numbers = numbers.items }) }
        ensures back { IfErr result (λ r. r ≡ kept) }
    {
        let Ok(block) = Block::of(alloc, kept.test(), kept.verdict()) else {
            return Err(kept);
        };
        match Marks::new(alloc, kept.reads().len()) {
            Ok(marks) => Ok(Marked {
                kept,
                marks,
                numbers,
                block,
            }),
            Err(_) => Err(kept),
        }
    }

    /// The record.
    pub fn kept(&self) -> &Record
        ensures { result.now ≡ self.now.record_of }
    {
        &self.kept
    }

    /// The record alone.
    pub fn into_kept(self) -> Record
        ensures { result ≡ self.record_of }
    {
        let Marked {
            kept,
            marks: _,
            numbers: _,
            block: _,
        } = self;
        kept
    }

    /// The test with its lines, which are those that it has wherever the answers that were read are given.
    pub fn judged(&self) -> Judged<'_>
        ensures judged { result ≡ judged_of self.now.record_of }
        ensures is_true { IsTrueRecord self.now.record_of.test self.now.record_of.reads self.now.record_of.verdict }
    {
        let verdict = self.kept.verdict();
        Judged::new(self.kept.test(), verdict, &self.block)
    }

    /// Whether no mark is raised.
    pub fn is_clear(&self) -> bool
        ensures { result ≡ is_clear self.now.marks }
    {
        self.marks.are_clear()
    }

    /// Compares each read with the world.
    pub fn look(&mut self, world: &World)
        ensures { self.new ≡ record self.old { marks = marks_in world.now self.old.record_of.reads } }
    {
        look(self.kept.test(), self.kept.reads(), &mut self.marks, world);
    }

    /// Compares each read of a topic with the world, and tells how many those are. What is known by a number is compared by
    /// numbers.
    pub fn look_again(
        &mut self,
        world: &World,
        topic: &Topic,
        contents: &Contents,
        now: &Now,
    ) -> usize
        requires numbers { self.old.numbers ≡ numbers_in contents.now self.old.record_of.reads }
        requires held { AllHaveNumbers contents.now self.old.record_of.reads }
        requires tells { TellsOn contents.now world.now topic.now now.now }
        ensures marks { self.new ≡ record self.old
            { marks = looked_again world.now topic.now self.old.record_of.reads self.old.marks } }
        ensures compared { result ≡ reads_on topic.now self.old.record_of.reads }
    {
        let numbers = self.numbers.as_slice();
        look_again(
            self.kept.reads(),
            numbers,
            &mut self.marks,
            world,
            topic,
            contents,
            now,
        )
    }
}

/// Marks each read as it compares with the world. Most are of the entries of one test.
fn look(test: &TestId, reads: &[Read], marks: &mut Marks, world: &World)
    requires { length marks.old ≡ length reads.now }
    ensures { marks.new ≡ marks_in world.now reads.now }
{
    let transcript = world.transcript(test);
    for (place, read) in reads.iter().enumerate() {
        let agrees = world.agrees_with(test, transcript, &read.question, &read.answer);
        marks.put(place, !agrees);
    }
}

/// Marks each read of a topic as it compares with the world, and counts them.
fn look_again(
    reads: &[Read],
    numbers: &[Option<u64>],
    marks: &mut Marks,
    world: &World,
    topic: &Topic,
    contents: &Contents,
    now: &Now,
) -> usize
    requires marks { length marks.old ≡ length reads.now }
    requires numbers { numbers.now ≡ numbers_in contents.now reads.now }
    requires held { AllHaveNumbers contents.now reads.now }
    requires tells { TellsOn contents.now world.now topic.now now.now }
    ensures marks { marks.new ≡ looked_again world.now topic.now reads.now marks.old }
    ensures compared { result ≡ reads_on topic.now reads.now }
{
    let mut compared = 0;
    for (place, read) in reads.iter().enumerate() {
        if topic.covers(&read.question) {
            marks.put(place, is_stale(read, numbers[place], world, contents, now));
            compared += 1;
        }
    }
    compared
}
