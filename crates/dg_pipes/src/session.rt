//! One child's output: its reader thread and its ring.
ghost use Rattle.std.specs.Prelude.{◌≡◌, ◌≤◌, ◌++◌, [], ◌∷◌, IfSome, IfNone, IfOk};
ghost use mathlib.Core.List.{IsPrefix};
ghost use Rattle.rtrb.specs.Ends.{SameRing};
ghost use Rattle.rtrb.specs.Ring.{received, all_sent, IsFinishedOf};
ghost use Rattle.dg_pipes.specs.Items.{IsAllowed, has_ended};
ghost use Rattle.dg_pipes.specs.Waits.{IsTold};

use crate::bells::Bells;
use crate::item::{Item, Rule};
use crate::reader::pump;
use crate::taker::{Rest, take};
use dg_gate::GateFault;
use dg_transcript::ErrorCode;
use rtrb::{Consumer, Finished, Producer, RingBuffer};
use std::alloc::Global;
use std::io::Read;
use std::snapshot::Snapshot;
use std::sync::{Arc, Wait};
use std::thread;
use std::thread::{Promise, PromisedHandle, Threads};
use std::time::Clock;

/// How many items a ring holds.
const SLOTS: usize = 65_536;
/// How long a stop waits for the next item of what is left of an output, in milliseconds.
const PATIENCE: u32 = 250;
/// How long it waits for all of it, in milliseconds.
const LONGEST: u32 = 2000;
/// The most items that a stop takes: more than a ring and a pipe hold.
const MOST_LEFT: usize = 131_072;

/// The ring that the thread was given.
#[derive(Drop)]
pub struct OfRing(pub Snapshot<Consumer<Item, Global, Rule>>);

impl Promise<Option<Finished<Item, Global, Rule>>> for OfRing {
    ghost use Rattle.std.specs.Prelude.{IfSome};
    ghost use Rattle.rtrb.specs.Ring.{IsFinishedOf};

    ghost kept_by = { λ p r. IfSome r (λ f. IsFinishedOf f p.0.value) };
}

/// A session whose reader runs, or has pushed its last item. It is done where that was taken.
#[derive(Drop)]
pub struct Session {
    pub ring: Consumer<Item, Global, Rule>,
    bells: Arc<Bells>,
    rest: Rest,
    reader: PromisedHandle<Option<Finished<Item, Global, Rule>>, OfRing>,
    is_done: bool,
    pub ghost same: { SameRing reader.promise.0.value.end ring.end },
    pub ghost done: { is_done ≡ has_ended (received ring) },
}

/// A session of whose output nothing was taken.
#[derive(Drop)]
pub struct Fresh {
    pub(crate) session: Session,
    pub ghost untouched: { received session.ring ≡ [] },
}

impl Fresh {
    /// Starts the thread that reads the source.
    pub fn open<R: Threads + Wait + Copy + Send + 'static, S: Read + Drop + Send + 'static>(
        rt: R,
        alloc: Global,
        source: S,
    ) -> Result<Fresh, GateFault> {
        let session = Session::open(rt, alloc, source)?;
        Ok(Fresh { session })
    }
}

// What the thread does.
fn run<S: Read + Drop>(
    rt: &impl Wait,
    alloc: Global,
    mut source: S,
    mut ring: Producer<Item, Global, Rule>,
    bells: &Bells,
) -> Option<Finished<Item, Global, Rule>>
    ensures { IfSome result (λ f. SameRing ring.end f.end) }
{
    let _whole = pump(rt, alloc, &mut source, &mut ring, bells);
    ring.finish()
}

impl Session {
    /// Starts the thread that reads the source.
    pub fn open<R: Threads + Wait + Copy + Send + 'static, S: Read + Drop + Send + 'static>(
        rt: R,
        alloc: Global,
        source: S,
    ) -> Result<Session, GateFault>
        ensures { IfOk result (λ s. received s.ring ≡ []) }
    {
        let (bells, theirs) = Bells::shared(alloc)?;
        let Ok((producer, ring)) = RingBuffer::with_protocol::<Global, Rule>(alloc, SLOTS) else {
            return Err(GateFault::Memory);
        };
        let promise = OfRing(Snapshot::of(&ring));
        match thread::spawn_with(
            &rt,
            promise,
            move || run(&rt, alloc, source, producer, &theirs),
        ) {
            Ok(reader) => Ok(Session {
                ring,
                bells,
                rest: Rest::default(),
                reader,
                is_done: false,
            }),
            Err(_) => Err(GateFault::Device(ErrorCode::Other)),
        }
    }

    /// The next piece within a limit.
    #[tactic(auto, using(crate::proofs::Prefixes::ended_by))]
    pub fn read(&mut self, rt: &(impl Wait + Clock), limit: u32) -> (u32, Option<Item>)
        ensures some { IfSome result.1 (λ x. (received self.new.ring ≡ received self.old.ring ++ x ∷ []) × IsAllowed x) }
        ensures none { IfNone result.1 ((received self.new.ring ≡ received self.old.ring) × (result.0 ≡ limit)) }
        ensures waited { result.0 ≤ limit }
        ensures told { IsTold limit result.0 }
    {
        let read = take(rt, &mut self.ring, &self.bells, &mut self.rest, limit);
        if let Some(item) = &read.1 {
            self.is_done = item.is_last();
        }
        read
    }

    /// Lets the ring go: the reader thread ends with its next piece, or with the output.
    pub fn let_go(self) {
        let Session {
            ring,
            bells,
            rest: _,
            reader: _,
            is_done: _,
        } = self;
        drop(ring);
        bells.room.unpark();
    }

    #[tactic(auto, using(crate::proofs::Prefixes::longer))]
    // Takes what is left, for some time. True where the reader's last item was taken, now or before.
    fn drain(&mut self, rt: &(impl Wait + Clock)) -> bool
        ensures more { IsPrefix (received self.old.ring) (received self.new.ring) }
        ensures done { result ≡ has_ended (received self.new.ring) }
    {
        let mut left = LONGEST;
        for _ in 0..MOST_LEFT {
            if self.is_done {
                return true;
            }
            let (waited, item) = self.read(rt, PATIENCE.min(left));
            if item.is_none() {
                return self.is_done;
            }
            left = left.saturating_sub(waited);
        }
        self.is_done
    }

    /// Takes what is left, once the child has ended, and waits for the reader. What was read is a
    /// prefix of what it pushed, where the ring tells it. Where somebody else, as a child's own
    /// child, keeps the output open, the ring is let go after some time.
    #[tactic(auto, using(crate::proofs::Prefixes::longer))]
    pub fn stop<R: Threads + Wait + Clock>(mut self, rt: &R) -> Option<Finished<Item, Global, Rule>>
        ensures { IfSome result (λ f. IsPrefix (received self.ring) (all_sent f)) }
    {
        if !self.drain(rt) {
            self.let_go();
            return None;
        }
        let Session {
            mut ring,
            bells: _,
            rest: _,
            reader,
            is_done: _,
        } = self;
        let mut finished = reader.join(rt)?;
        ring.slots_after(&mut finished);
        Some(finished)
    }
}
