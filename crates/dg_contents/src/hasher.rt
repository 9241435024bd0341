//! The hash of a content, by its length and its ends: a long one takes no more steps than one of 256 bytes.
ghost use Rattle.std.specs.Prelude.{◌≡◌};
ghost use Rattle.std.specs.Hash.FoldHasher as folding;
ghost use Rattle.dg_contents.specs.Hashing.{after_ends};

use std::hash::{FoldHasher, Hasher};

/// How many bytes at each end of a content are hashed.
const END: usize = 128;

/// Reads the length of a content, its first and its last bytes. Contents of one length that differ only between these have
/// one hash, and the map tells them apart by comparing all their bytes.
#[derive(Clone, Copy)]
pub(crate) struct EndHasher {
    inner: FoldHasher,
}

impl Default for EndHasher {
    ghost is_default = { λ h. h.inner ≡ folding.initial };

    fn default() -> EndHasher {
        EndHasher {
            inner: FoldHasher::default(),
        }
    }
}

impl Hasher for EndHasher {
    ghost write = { λ h bytes. record h { inner = after_ends h.inner bytes } };

    ghost finish = { λ h. folding.finish h.inner };

    fn finish(&self) -> u64 {
        self.inner.finish()
    }

    fn write(&mut self, bytes: &[u8]) {
        let end = bytes.len().saturating_sub(END);
        self.inner.write_usize(bytes.len());
        self.inner.write(&bytes[..bytes.len().min(END)]);
        self.inner.write(&bytes[end..]);
    }
}
