//! Why a bench refuses a call.
use dg_world::Refusal;
use thiserror::Error;

/// Why a bench refuses a call. Where several could be given the first of this list is, but `Memory` wherever a growth was
/// refused.
#[derive(Clone, Copy, Debug, PartialEq, Eq, Error)]
pub enum BenchRefusal {
    /// The pass has seen more calls than there are: it is of another bench.
    #[error("the history is shorter than what the pass has seen")]
    Shorter { seen: usize, found: usize },
    /// The history has as many calls as it may have, or the bench has stopped.
    #[error("the history is full")]
    HistoryFull,
    /// The core refuses it, for another cause than want of memory.
    #[error("refused: {0}")]
    Edit(Refusal),
    /// Memory ran out.
    #[error("out of memory")]
    Memory,
}
