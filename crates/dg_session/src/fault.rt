//! Why a session ended early.
ghost use Rattle.std.specs.Prelude.{◌≡◌};
ghost use Rattle.std.specs.IoError.{error_kind};
ghost use Rattle.dg_session.specs.Fault.{fault_of_kind};

use std::alloc::AllocError;
use std::io;
use thiserror::Error;

/// Why a session ended before its input.
#[derive(Clone, Copy, Debug, PartialEq, Eq, Error)]
pub enum SessionFault {
    /// A line could not be read.
    #[error("can't read stdin")]
    ReadFault,
    /// An answer could not be written.
    #[error("can't write stdout")]
    WriteFault,
    /// The input has more bytes than a session takes.
    #[error("input too long")]
    TooLong,
    /// A growth was refused.
    #[error("out of memory")]
    Memory,
}

/// The fault of a read that failed.
pub fn fault_of_read(error: &io::Error) -> SessionFault
    ensures { result ≡ fault_of_kind (error_kind error.now) }
{
    match error.kind() {
        io::ErrorKind::OutOfMemory => SessionFault::Memory,
        _ => SessionFault::ReadFault,
    }
}

impl From<AllocError> for SessionFault {
    ghost use Rattle.dg_session.specs.declared.fault.SessionFault.TheVariants.{Memory};

    ghost from_gives = { λ _ e. e ≡ Memory };

    fn from(_e: AllocError) -> SessionFault {
        SessionFault::Memory
    }
}
