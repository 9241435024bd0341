//! Why a text is not that of a transcript.
ghost use Rattle.std.specs.Prelude.{◌≡◌};
ghost use Rattle.dg_transcript.specs.declared.cause.Cause.TheVariants.{Memory};

use std::alloc::{AllocError, AllocFailed};
use thiserror::Error;

/// What is wrong with the first bad line of a text. Of several the first of Truncated, Header,
/// Kind, Field, SessionOrder and TooMany is given.
#[derive(Clone, Copy, Debug, PartialEq, Eq, Hash, Error)]
pub enum Cause {
    /// The first line is not `dejagnu-transcript 1`.
    #[error("bad header")]
    Header,
    /// The line's first word is unknown, or the line stands behind `done`.
    #[error("unknown kind of line")]
    Kind,
    /// A field is missing, too many or badly written, or past its limit.
    #[error("bad field")]
    Field,
    /// The line may not come here, or the session's number is not the next one.
    #[error("line out of order")]
    SessionOrder,
    /// It is the 65th session or the 65,537th entry.
    #[error("too many lines")]
    TooMany,
    /// The line has no newline, or the text ends before it.
    #[error("text cut short")]
    Truncated,
    /// Memory ran out.
    #[error("out of memory")]
    Memory,
}

impl From<AllocError> for Cause {
    ghost from_gives = { λ _ e. e ≡ Memory };

    fn from(_e: AllocError) -> Cause {
        Cause::Memory
    }
}

impl<T: Drop> From<AllocFailed<T>> for Cause {
    ghost from_gives = { λ _ e. e ≡ Memory };

    fn from(_e: AllocFailed<T>) -> Cause {
        Cause::Memory
    }
}
