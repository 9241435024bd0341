//! The fault of a text that is no triplet.
use std::alloc::AllocError;
use std::fmt;
use thiserror::Error;

/// Why a text gave no triplet.
#[derive(Clone, Copy, Debug, PartialEq, Eq, Drop, Error)]
pub enum TripletFault {
    /// The text is no triplet.
    #[error("not a triplet")]
    Bad,
    /// A growth was refused.
    #[error("out of memory")]
    Memory,
}

impl From<AllocError> for TripletFault {
    ghost use Rattle.std.specs.Prelude.{◌≡◌};
    ghost use Rattle.dg_boards.specs.declared.fault.TripletFault.TheVariants.{Memory};

    ghost from_gives = { λ _ fault. fault ≡ Memory };

    fn from(_refused: AllocError) -> TripletFault {
        TripletFault::Memory
    }
}
