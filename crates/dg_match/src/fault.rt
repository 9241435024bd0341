//! Why a pattern is not built.

use thiserror::Error;

/// Why a `-re` pattern is not built.
#[derive(Clone, Copy, Debug, PartialEq, Eq, Drop, Error)]
pub enum PatternFault {
    /// The text isn't UTF-8, the grammar of regular expressions doesn't read it, or it nests deeper
    /// than 250 levels.
    #[error("bad regular expression")]
    Syntax,
    /// The pattern takes more room than a built one may have.
    #[error("regular expression too large")]
    TooLarge,
    /// A growth was refused.
    #[error("out of memory")]
    Memory,
}
