//! At most sixteen bytes, held in the value itself.
ghost use Rattle.std.specs.Prelude.{◌≡◌, ◌++◌, IfSome};
ghost use Rattle.dg_bytes.specs.Few.{few_bytes};

/// How many bytes there may be.
const MOST: usize = 16;

/// A few bytes, held in the value itself: the first of an array.
#[derive(Clone, Copy, Drop)]
pub(crate) struct Few {
    bytes: [u8; MOST],
    count: usize,
}

impl Few {
    /// These bytes, if they are few.
    pub(crate) fn of(bytes: &[u8]) -> Option<Few>
        ensures { IfSome result (λ few. few_bytes few ≡ bytes.now) }
    {
        let count = bytes.len();
        if count > MOST {
            return None;
        }
        let mut held = [0; MOST];
        held[..count].copy_from_slice(bytes);
        Some(Few { bytes: held, count })
    }

    /// The bytes.
    #[inline(always)]
    pub(crate) fn as_slice(&self) -> &[u8]
        ensures { result.now ≡ few_bytes self.now }
    {
        &self.bytes[..self.count.min(MOST)]
    }

    /// These bytes with more behind them, if all are few.
    pub(crate) fn with(&self, more: &[u8]) -> Option<Few>
        ensures { IfSome result (λ few. few_bytes few ≡ few_bytes self.now ++ more.now) }
    {
        let before = self.as_slice();
        let at = before.len();
        let count = at.checked_add(more.len())?;
        if count > MOST {
            return None;
        }
        let mut held = [0; MOST];
        held[..at].copy_from_slice(before);
        held[at..count].copy_from_slice(more);
        Some(Few { bytes: held, count })
    }
}
