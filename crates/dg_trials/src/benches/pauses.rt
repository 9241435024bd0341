//! Pauses at random places, so that threads meet in other ways each time.
use std::thread;

/// The random numbers of a caller, by Marsaglia's xorshift.
#[derive(Clone, Copy)]
pub struct Pauses {
    state: u64,
}

impl Pauses {
    /// The numbers that begin with this seed.
    pub fn new(seed: u64) -> Pauses {
        Pauses {
            state: seed.wrapping_mul(0x9e37_79b9_7f4a_7c15) | 1,
        }
    }

    /// Yields up to three times.
    pub fn pause(&mut self) {
        let mut next = self.state;
        next ^= next << 13;
        next ^= next >> 7;
        next ^= next << 17;
        self.state = next;
        for _ in 0..next % 4 {
            thread::yield_now();
        }
    }
}
