//! What the judging thread takes from a ring.
ghost use Rattle.std.specs.Prelude.{◌≡◌, ◌<◌, ◌≤◌, ◌⊎◌, ◌++◌, [], ◌∷◌, IfSome, IfNone, MatchBool, length};
ghost use Rattle.rtrb.specs.Ring.{known_items, received, SameConsumer};
ghost use Rattle.dg_pipes.specs.Items.{IsAllowed};
ghost use Rattle.dg_pipes.specs.Waits.{IsTold};

use crate::bells::Bells;
use crate::item::{Item, Rule};
use rtrb::Consumer;
use std::alloc::Global;
use std::sync::Wait;
use std::thread;
use std::time::{Clock, Duration, Instant};

/// The longest sleep in milliseconds.
const TICK: u32 = 5;
/// What passed is told in steps of so many milliseconds, so that a child that does the same again mostly gets the same
/// transcript.
const STEP: u32 = 10;
/// With so few items left in the ring the reader thread is woken.
const FEW: usize = 32;
/// How often the ring is looked at before the first sleep, about a tenth of a millisecond: the answer of a child that talks
/// mostly comes by then, and nobody has to be woken for it.
const LOOKS: u32 = 300;

/// What was slept and not told yet, in microseconds: less than a step.
#[derive(Clone, Copy, Default, Drop)]
pub struct Rest {
    micros: u32,
}

impl Rest {
    // Looks so often whether something came, and then sleeps until it does, for a tick at most. The
    // milliseconds that passed, in whole steps, with what was left over before; or those of the limit
    // that are left.
    fn sleep(
        &mut self,
        rt: &(impl Wait + Clock),
        ring: &mut Consumer<Item, Global, Rule>,
        bells: &Bells,
        looks: u32,
        left: u32,
    ) -> u32
        ensures ring { SameConsumer ring.old ring.new × (received ring.new ≡ received ring.old) }
        ensures within { result ≤ left }
        ensures told { IsTold left result }
    {
        let tick = Duration::from_millis(u64::from(TICK.min(left)));
        let start = Instant::now(rt);
        if !comes(ring, looks) {
            bells.came.park_timeout(rt, tick);
        }
        let slept = match start.map(|s| s.elapsed(rt)) {
            Ok(Ok(slept)) => slept,
            Ok(Err(_)) | Err(_) => tick,
        };
        let micros = slept.as_micros().saturating_add(u128::from(self.micros));
        let millis = micros / 1000;
        if millis >= u128::from(left) {
            self.micros = 0;
            return left;
        }
        let past = millis % u128::from(STEP);
        self.micros = (past * 1000 + micros % 1000) as u32;
        (millis - past) as u32
    }
}

// Looks so often whether something came, and lets others run in between.
fn comes(ring: &mut Consumer<Item, Global, Rule>, looks: u32) -> bool
    ensures ring { SameConsumer ring.old ring.new × (received ring.new ≡ received ring.old) }
    ensures found { MatchBool result (0 < length (known_items ring.new)) ((looks ≡ 0) ⊎ (length (known_items ring.new) ≡ 0)) }
{
    for _ in 0..looks {
        if !ring.is_empty() {
            return true;
        }
        thread::yield_now();
    }
    false
}

/// The next item, as soon as it is there, within a limit in milliseconds, and how many of them
/// passed: whole steps of 10, or all of the limit. The sleep is in ticks of 5 ms, the last one
/// shorter, each of which the reader thread cuts short: what passed is counted, a tick that lasted
/// longer too, and not what might have. What is less than a step is counted with the next item.
pub fn take(
    rt: &(impl Wait + Clock),
    ring: &mut Consumer<Item, Global, Rule>,
    bells: &Bells,
    rest: &mut Rest,
    limit: u32,
) -> (u32, Option<Item>)
    ensures ring { SameConsumer ring.old ring.new }
    ensures waited { result.0 ≤ limit }
    ensures told { IsTold limit result.0 }
    ensures some { IfSome result.1 (λ x. (received ring.new ≡ received ring.old ++ x ∷ []) × IsAllowed x) }
    ensures none { IfNone result.1 ((received ring.new ≡ received ring.old) × (result.0 ≡ limit)) }
{
    let mut waited = 0;
    let mut looks = LOOKS;
    for _ in rt.forever() {
        if let Ok(item) = ring.pop() {
            if ring.slots() <= FEW {
                bells.room.unpark();
            }
            return (waited, Some(item));
        }
        if waited >= limit {
            return (limit, None);
        }
        waited += rest.sleep(rt, ring, bells, looks, limit - waited);
        looks = 0;
    }
    unreachable!()
}
