//! A record's place among the kept ones: all growths first, and then what can't fail.
ghost use Rattle.std.specs.Prelude.{◌≡◌, ◌<◌, ◌-◌, ℕ, List, false, length, replicate, unwrap_or, IfErr, IfOk, OnOk};
ghost use Rattle.indexmap.specs.IndexMap.{index_of_by, insert_entry, spare};
ghost use Rattle.dg_contents.specs.Contents.{holders_of, KeepsHeldNumbers};
ghost use Rattle.dg_index.specs.Index.{NamesMore, NamesReads};
ghost use Rattle.dg_index.specs.Marks.{counted, marks_in, MarkedView};
ghost use Rattle.dg_index.specs.Numbers.{given_at, given_by, numbers_in, HoldsMore, IsNumbered};
ghost use Rattle.dg_world.specs.Test.{same_test};
ghost use Rattle.dg_world.specs.declared.test_id.TestId.{TestId};

use crate::index::Index;
use crate::marked::Marked;
use crate::numbers::{hold_all, release_all};
use dg_contents::Contents;
use dg_records::Record;
use dg_world::{TestId, World};
use indexmap::IndexMap;
use std::alloc::{AllocError, Global};

/// Makes all the room that a record will take: its marks, an entry for its test, its reads named in the index, and the
/// contents that it was given held. Where memory is refused the record comes back.
pub fn make_room(
    alloc: Global,
    records: &mut IndexMap<TestId, Marked>,
    index: &mut Index,
    contents: &mut Contents,
    newest: Record,
) -> Result<(TestId, Marked), Record>
    ensures entries { records.new.entries ≡ records.old.entries }
    ensures room { OnOk result (0 < spare records.new) }
    ensures named { OnOk result (NamesReads index.new
        (unwrap_or (index_of_by (same_test newest.test) records.old) (length records.old.entries)) newest.reads) }
    ensures stays { NamesMore index.old index.new }
    ensures test { IfOk result (λ r. r.0 ≡ newest.test) }
    ensures marked { IfOk result (λ r. r.1 ≡ record
        { record_of = newest; marks = replicate (length newest.reads) false; numbers = numbers_in contents.new newest.reads }) }
    ensures numbered { IsNumbered contents.old records.old.entries → IsNumbered contents.new records.old.entries }
    ensures held { OnOk result
        (IsNumbered contents.old records.old.entries → HoldsMore contents.new records.old.entries newest.reads) }
    ensures back { IfErr result (λ r. r ≡ newest) }
{
    let Ok(test) = name(alloc, records, index, &newest) else {
        return Err(newest);
    };
    match number(alloc, contents, newest) {
        Ok(marked) => Ok((test, marked)),
        Err(newest) => Err(newest),
    }
}

/// Names the place that a record will have for its reads, makes room for it, and copies its test.
fn name(
    alloc: Global,
    records: &mut IndexMap<TestId, Marked>,
    index: &mut Index,
    newest: &Record,
) -> Result<TestId, AllocError>
    ensures entries { records.new.entries ≡ records.old.entries }
    ensures room { OnOk result (0 < spare records.new) }
    ensures named { OnOk result (NamesReads index.new
        (unwrap_or (index_of_by (same_test newest.now.test) records.old) (length records.old.entries)) newest.now.reads) }
    ensures stays { NamesMore index.old index.new }
    ensures test { IfOk result (λ t. t ≡ newest.now.test) }
{
    let at = match records.get_index_of(newest.test()) {
        Some(at) => at,
        None => records.len(),
    };
    index.name_reads(alloc, newest.reads(), at)?;
    records.reserve(1)?;
    newest.test().copy(alloc)
}

/// Holds the contents that a record was given, and puts their numbers beside it, or gives it back.
fn number(alloc: Global, contents: &mut Contents, newest: Record) -> Result<Marked, Record>
    ensures marked { IfOk result (λ m. m ≡ record
        { record_of = newest; marks = replicate (length newest.reads) false; numbers = numbers_in contents.new newest.reads }) }
    ensures numbered { (es : List (TestId × MarkedView)) → IsNumbered contents.old es → IsNumbered contents.new es }
    ensures held { OnOk result
        ((es : List (TestId × MarkedView)) → IsNumbered contents.old es → HoldsMore contents.new es newest.reads) }
    ensures back { IfErr result (λ r. r ≡ newest) }
{
    let Ok(numbers) = hold_all(alloc, contents, newest.reads()) else {
        return Err(newest);
    };
    let newest = match Marked::new(alloc, newest, numbers) {
        Ok(marked) => return Ok(marked),
        Err(newest) => newest,
    };
    release_all(contents, newest.reads());
    Err(newest)
}

/// Lets go the contents that a record was given, and gives it back.
pub fn give_back(contents: &mut Contents, marked: Marked) -> Record
    ensures back { result ≡ marked.record_of }
    ensures fewer { (text : List ℕ) → holders_of contents.new text ≡ holders_of contents.old text - given_by text
        marked.record_of.reads }
    ensures stays { KeepsHeldNumbers contents.old contents.new }
{
    let newest = marked.into_kept();
    release_all(contents, newest.reads());
    newest
}

/// Compares a record with the world and keeps it, where there is room for it and what it was given is held. What the record
/// was given that its test had before is let go. It adds to a count how many reads it has.
pub fn place(
    records: &mut IndexMap<TestId, Marked>,
    contents: &mut Contents,
    test: TestId,
    mut marked: Marked,
    world: &World,
    compared: u64,
) -> u64
    requires room { 0 < spare records.old }
    requires numbered { IsNumbered contents.old records.old.entries }
    requires numbers { marked.numbers ≡ numbers_in contents.old marked.record_of.reads }
    requires held { HoldsMore contents.old records.old.entries marked.record_of.reads }
    ensures entries { records.new.entries ≡ insert_entry same_test records.old.entries test
        (record marked { marks = marks_in world.now marked.record_of.reads }) }
    ensures numbered { IsNumbered contents.new records.new.entries }
    ensures count { result ≡ counted compared (length marked.record_of.reads) }
{
    marked.look(world);
    place_marked(records, contents, test, marked, compared)
}

/// Keeps a record as it is marked, where there is room for it and what it was given is held. What the record was given that
/// its test had before is let go. It adds to a count how many reads it has.
pub fn place_marked(
    records: &mut IndexMap<TestId, Marked>,
    contents: &mut Contents,
    test: TestId,
    marked: Marked,
    compared: u64,
) -> u64
    requires room { 0 < spare records.old }
    requires numbered { IsNumbered contents.old records.old.entries }
    requires numbers { marked.numbers ≡ numbers_in contents.old marked.record_of.reads }
    requires held { HoldsMore contents.old records.old.entries marked.record_of.reads }
    ensures entries { records.new.entries ≡ insert_entry same_test records.old.entries test marked }
    ensures numbered { IsNumbered contents.new records.new.entries }
    ensures count { result ≡ counted compared (length marked.record_of.reads) }
{
    let reads = marked.kept().reads().len() as u64;
    match records.insert(test, marked) {
        Ok(previous) => let_go(contents, previous),
        Err(_) => unreachable!(),
    }
    compared.saturating_add(reads)
}

/// Lets go the contents that a record was given which has lost its place, if there was one.
fn let_go(contents: &mut Contents, previous: Option<Marked>)
    ensures fewer { (text : List ℕ) → holders_of contents.new text ≡ holders_of contents.old text - given_at text previous }
    ensures stays { KeepsHeldNumbers contents.old contents.new }
{
    if let Some(previous) = previous {
        release_all(contents, previous.kept().reads());
    }
}
