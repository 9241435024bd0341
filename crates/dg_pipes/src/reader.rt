//! The reader thread.
ghost use Rattle.std.specs.Prelude.{◌≡◌, ◌≤◌, ◌++◌, [], ◌∷◌, List, length, take, true, false, MatchBool};
ghost use Rattle.rtrb.specs.Ring.{sent, SameProducer};
ghost use Rattle.dg_pipes.specs.declared.item.Item.{Item};
ghost use Rattle.dg_pipes.specs.Items.{IsAllowed, PumpedSome, PumpedAll};

use crate::bells::Bells;
use crate::item::{Item, Rule};
use dg_bytes::Bytes;
use dg_transcript::ErrorCode;
use rtrb::{Producer, PushError};
use std::alloc::Global;
use std::io::Read;
use std::sync::Wait;
use std::time::Duration;

/// The most bytes of a chunk: half of the bytes that a buffer keeps by itself, so that of what comes at once nothing is
/// forgotten before the patterns were tried on it.
const MOST: usize = 1000;

/// The longest sleep of the reader thread in milliseconds, where the ring is full.
const NAP: u64 = 50;

/// How long the reader thread sleeps behind each item in milliseconds, where less than half of the ring is free, so that what
/// comes meanwhile is one longer piece: the ring then holds more of an output that nobody takes yet, as while a long text is
/// sent.
const MOMENT: u64 = 1;

// Waits until the item is pushed, and wakes the judging thread. False where the other end is gone.
fn put(rt: &impl Wait, ring: &mut Producer<Item, Global, Rule>, bells: &Bells, item: Item) -> bool
    requires { IsAllowed item }
    ensures ring { SameProducer ring.old ring.new }
    ensures sent { MatchBool result (sent ring.new ≡ sent ring.old ++ item ∷ []) (sent ring.new ≡ sent ring.old) }
{
    let mut item = item;
    for _ in rt.forever() {
        if ring.is_abandoned() {
            return false;
        }
        match ring.push(item) {
            Ok(()) => {
                bells.came.unpark();
                let half = ring.capacity() / 2;
                if ring.cached_slots() < half && ring.slots() < half {
                    bells.room.park_timeout(rt, Duration::from_millis(MOMENT));
                }
                return true;
            }
            Err(PushError::Full(back)) => item = back,
        }
        bells.room.park_timeout(rt, Duration::from_millis(NAP));
    }
    unreachable!()
}

// The first bytes, in not much more memory than they need.
fn first(mut chunk: Vec<u8>, n: usize) -> Bytes
    requires { n ≤ length chunk.items }
    ensures bytes { result ≡ take n chunk.items }
    ensures length { length result ≡ n }
{
    chunk.truncate(n);
    if n < MOST / 2 {
        chunk.shrink_to_fit();
    }
    Bytes::from_vec(chunk)
}

/// Reads to the end, and pushes what it reads as chunks, then one end, or one fault. False where the
/// ring's other end is gone. The memory of a chunk is taken before it is read, so that no byte is
/// lost for want of it.
pub fn pump<R: Read>(
    rt: &impl Wait,
    alloc: Global,
    reader: &mut R,
    ring: &mut Producer<Item, Global, Rule>,
    bells: &Bells,
) -> bool
    ensures ring { SameProducer ring.old ring.new }
    ensures some { result ≡ false → (items : List Item) × (sent ring.new ≡ sent ring.old ++ items) × PumpedSome
        (R.remaining reader.old) (R.remaining reader.new) items }
    ensures all { result ≡ true → (items : List Item) × (sent ring.new ≡ sent ring.old ++ items) × PumpedAll
        (R.remaining reader.old) (R.remaining reader.new) items }
{
    for _ in rt.forever() {
        let Ok(mut chunk) = Vec::from_elem(alloc, 0u8, MOST) else {
            return put(rt, ring, bells, Item::Fault(ErrorCode::Other));
        };
        match reader.read(chunk.as_mut_slice()) {
            Ok(0) => return put(rt, ring, bells, Item::End),
            Ok(n) => {
                let bytes = first(chunk, n);
                if !put(rt, ring, bells, Item::Chunk(bytes)) {
                    return false;
                }
            }
            Err(_) => return put(rt, ring, bells, Item::Fault(ErrorCode::Other)),
        }
    }
    unreachable!()
}
