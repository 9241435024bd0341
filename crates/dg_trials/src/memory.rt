//! Memory that ends.
use std::alloc::{AllocError, Global};

/// How many blocks are taken at most.
const BLOCKS: usize = 400_000;

/// Blocks of memory that are held and never written to.
#[derive(Drop)]
pub struct Taken {
    blocks: Vec<Vec<u8>>,
}

impl Taken {
    /// No blocks yet.
    pub fn new(alloc: Global) -> Result<Taken, AllocError> {
        // Once a block so large was freed, glibc takes smaller ones from where it takes the least.
        drop(Vec::<u8>::with_capacity(alloc, 16_000_000)?);
        Ok(Taken {
            blocks: Vec::with_capacity(alloc, BLOCKS.wrapping_add(1))?,
        })
    }

    /// Takes all memory that there is, down to the least pieces that were freed, and tells whether nothing is left.
    pub fn take_all(&mut self, alloc: Global) -> bool {
        let mut size = 1usize << 46;
        for _ in 0..BLOCKS {
            if size < 16 {
                break;
            }
            match Vec::<u8>::with_capacity(alloc, size) {
                Ok(block) => {
                    if self.blocks.push(block).is_err() {
                        break;
                    }
                }
                Err(_) if size > 1024 => size /= 2,
                Err(_) => size -= 16,
            }
        }
        Vec::<u8>::with_capacity(alloc, 16).is_err()
    }
}

/// How many rounds were whole, short of memory, or anything else.
#[derive(Drop)]
pub struct Rounds {
    pub whole: usize,
    pub short: usize,
    pub others: usize,
}

impl Rounds {
    /// None yet.
    pub fn new() -> Rounds {
        Rounds {
            whole: 0,
            short: 0,
            others: 0,
        }
    }

    /// Counts a round.
    pub fn count(&mut self, outcome: Option<bool>) {
        let counted = match outcome {
            Some(true) => &mut self.whole,
            Some(false) => &mut self.short,
            None => &mut self.others,
        };
        *counted = counted.wrapping_add(1);
    }

    /// Whether each was whole or short, and so many were whole. Where all memory was taken some were short too.
    pub fn are_right(&self, least: usize, is_full: bool) -> bool {
        self.others == 0 && self.whole >= least && (!is_full || self.short > 0)
    }
}
