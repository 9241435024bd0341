//! Looking again: the reads of a topic are compared with the world.
ghost use Rattle.std.specs.Prelude.{◌≡◌, nat_eq};
ghost use Rattle.std.specs.List.{IsDistinct};
ghost use Rattle.indexmap.specs.IndexMap.{spare};
ghost use Rattle.dg_index.specs.Index.{is_among, NamesAll, NoneElseReads};
ghost use Rattle.dg_index.specs.Marks.{all_looked, counted, reads_of, shelf_of};
ghost use Rattle.dg_index.specs.Numbers.{IsNumbered, TellsOn};

use crate::index::Index;
use crate::marked::Marked;
use crate::numbers::Now;
use crate::topic::Topic;
use dg_contents::Contents;
use dg_world::{TestId, World};
use indexmap::IndexMap;

/// Compares each read of a topic with the world, where only the records at these places read it. It adds to a count how
/// many reads those are.
pub fn look_again(
    records: &mut IndexMap<TestId, Marked>,
    places: &[usize],
    topic: &Topic,
    world: &World,
    contents: &Contents,
    now: &Now,
    mut compared: u64,
) -> u64
    requires once { IsDistinct nat_eq places.now }
    requires numbered { IsNumbered contents.now records.old.entries }
    requires tells { TellsOn contents.now world.now topic.now now.now }
    requires only { NoneElseReads (is_among places.now) topic.now records.old.entries }
    ensures entries { records.new.entries ≡ all_looked world.now topic.now records.old.entries }
    ensures room { spare records.new ≡ spare records.old }
    ensures count { result ≡ counted compared (reads_of topic.now (shelf_of records.old.entries)) }
{
    for place in places {
        if let Some(marked) = records.get_index_mut(*place) {
            let reads = marked.look_again(world, topic, contents, now);
            compared = compared.saturating_add(reads as u64);
        }
    }
    compared
}

/// Compares each read of a topic with the world, of all records that read it. It adds to a count how many reads those are.
pub fn look_at_readers(
    records: &mut IndexMap<TestId, Marked>,
    index: &Index,
    topic: &Topic,
    world: &World,
    contents: &Contents,
    compared: u64,
) -> u64
    requires named { NamesAll index.now 0 records.old.entries }
    requires numbered { IsNumbered contents.now records.old.entries }
    ensures entries { records.new.entries ≡ all_looked world.now topic.now records.old.entries }
    ensures room { spare records.new ≡ spare records.old }
    ensures count { result ≡ counted compared (reads_of topic.now (shelf_of records.old.entries)) }
{
    match index.find(topic) {
        Some((topic, places)) => look_again(
            records,
            places,
            topic,
            world,
            contents,
            &Now::Elsewhere,
            compared,
        ),
        None => compared,
    }
}
