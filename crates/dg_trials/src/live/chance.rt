//! Numbers that look like chance, and are the same ones each time.

/// A source of numbers.
#[derive(Drop)]
pub struct Chance {
    state: u64,
}

impl Chance {
    /// The source that begins at this number.
    pub fn new(seed: u64) -> Chance {
        Chance { state: seed }
    }

    /// A number below this one; 0 where there is none.
    pub fn below(&mut self, count: usize) -> usize {
        self.state = self
            .state
            .wrapping_mul(6_364_136_223_846_793_005)
            .wrapping_add(1_442_695_040_888_963_407);
        let high = (self.state >> 33) as usize;
        high.checked_rem(count).unwrap_or(0)
    }

    /// One of these, if there are any.
    pub fn pick<'a, T>(&mut self, from: &'a [T]) -> Option<&'a T> {
        from.get(self.below(from.len()))
    }
}
