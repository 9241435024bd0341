//! Why a variable can't be read, written or unset.
ghost use Rattle.dg_scope.specs.declared.fault.ScopeFault.{ScopeFault};
ghost use Rattle.dg_scope.specs.declared.fault.ScopeFault.TheVariants.{Memory};
ghost use Rattle.std.specs.Prelude.{◌≡◌};

use std::alloc::AllocError;
use thiserror::Error;

/// Why a call on variables is refused. The first that applies is given, in this order.
#[derive(Debug, Drop, Error)]
pub enum ScopeFault {
    /// The variable isn't set.
    #[error("no such variable")]
    NoSuchVariable,
    /// The value has more than 1,048,576 bytes.
    #[error("value too long")]
    TooLong,
    /// A growth was refused.
    #[error("out of memory")]
    Memory,
}

impl From<AllocError> for ScopeFault {
    ghost from_gives = { λ _ fault. fault ≡ Memory };

    fn from(_error: AllocError) -> ScopeFault {
        ScopeFault::Memory
    }
}
