//! Why a command gives no value.
use dg_bytes::Bytes;
use std::alloc::{AllocError, AllocFailed};
use thiserror::Error;

/// Why a command gives no value.
#[derive(Debug, Drop, Error)]
pub enum CmdFault {
    /// The script error with this message.
    #[error("script error {0:?}")]
    Tcl(Bytes),
    /// The value has more than 1,048,576 bytes.
    #[error("value too long")]
    TooLong,
    /// A growth was refused.
    #[error("out of memory")]
    Memory,
}

impl From<AllocError> for CmdFault {
    ghost use Rattle.std.specs.Prelude.{◌≡◌};
    ghost use Rattle.dg_cmds.specs.declared.fault.CmdFault.TheVariants.{Memory};

    ghost from_gives = { λ _ fault. fault ≡ Memory };

    fn from(_refused: AllocError) -> CmdFault {
        CmdFault::Memory
    }
}

impl<T: Drop> From<AllocFailed<T>> for CmdFault {
    ghost use Rattle.std.specs.Prelude.{◌≡◌};
    ghost use Rattle.dg_cmds.specs.declared.fault.CmdFault.TheVariants.{Memory};

    ghost from_gives = { λ _ fault. fault ≡ Memory };

    fn from(_refused: AllocFailed<T>) -> CmdFault {
        CmdFault::Memory
    }
}
