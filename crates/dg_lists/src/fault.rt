//! Why a text is not read.
ghost use Rattle.std.specs.Prelude.{◌≡◌};
ghost use Rattle.dg_lists.specs.declared.fault.WordFault.TheVariants.{Memory};
ghost use Rattle.dg_lists.specs.declared.fault.ListFault.TheVariants.{Memory as NoMemory};
ghost use Rattle.dg_lists.specs.Faults.{fault_text};

use std::alloc::{AllocError, AllocFailed};
use thiserror::Error;

/// Why no words are read, by Tcl(n). Of all but `Memory` the one met first in the text is given.
#[derive(Clone, Copy, Debug, PartialEq, Eq, Drop, Error)]
pub enum WordFault {
    /// The text ends inside braces.
    #[error("missing close-brace")]
    MissingBrace,
    /// The text ends inside brackets, or too many brackets and indices stand inside each other.
    #[error("missing close-bracket")]
    MissingBracket,
    /// The text ends inside quotes.
    #[error("missing \"")]
    MissingQuote,
    /// A braced word is followed by more than a blank or its command's end.
    #[error("extra characters after close-brace")]
    AfterBrace,
    /// A quoted word is followed by more than a blank or its command's end.
    #[error("extra characters after close-quote")]
    AfterQuote,
    /// A list ends inside braces.
    #[error("unmatched open brace in list")]
    ListBrace,
    /// A list ends inside quotes.
    #[error("unmatched open quote in list")]
    ListQuote,
    /// A braced or quoted element of a list is followed by more than a blank.
    #[error("list element followed by more text")]
    ListAfter,
    /// A growth was refused.
    #[error("out of memory")]
    Memory,
    /// The text ends inside an index, or too many brackets and indices stand inside each other.
    #[error("missing )")]
    MissingParen,
    /// An escape writes no character of Unicode, as a surrogate.
    #[error("bad code point")]
    BadCodePoint,
}

impl From<AllocError> for WordFault {
    ghost from_gives = { λ _ e. e ≡ Memory };

    fn from(_e: AllocError) -> WordFault {
        WordFault::Memory
    }
}

impl<T: Drop> From<AllocFailed<T>> for WordFault {
    ghost from_gives = { λ _ e. e ≡ Memory };

    fn from(_e: AllocFailed<T>) -> WordFault {
        WordFault::Memory
    }
}

/// Why a text gets no further elements as a list.
#[derive(Clone, Copy, Debug, PartialEq, Eq, Drop, Error)]
pub enum ListFault {
    /// A growth was refused.
    #[error("out of memory")]
    Memory,
    /// The canonical text would have more bytes than it may have.
    #[error("list too long")]
    TooLong,
    /// The text is no list.
    #[error("{0}")]
    NoList(WordFault),
}

impl From<AllocError> for ListFault {
    ghost from_gives = { λ _ e. e ≡ NoMemory };

    fn from(_e: AllocError) -> ListFault {
        ListFault::Memory
    }
}

impl<T: Drop> From<AllocFailed<T>> for ListFault {
    ghost from_gives = { λ _ e. e ≡ NoMemory };

    fn from(_e: AllocFailed<T>) -> ListFault {
        ListFault::Memory
    }
}

/// The message of a script or a list that can't be read for this reason.
pub fn fault_text(fault: WordFault) -> &'static [u8]
    ensures { result.now ≡ fault_text fault }
{
    match fault {
        WordFault::MissingBrace => b"missing close-brace",
        WordFault::MissingBracket => b"missing close-bracket",
        WordFault::MissingQuote => b"missing \"",
        WordFault::AfterBrace => b"extra characters after close-brace",
        WordFault::AfterQuote => b"extra characters after close-quote",
        WordFault::ListBrace => b"unmatched open brace in list",
        WordFault::ListQuote => b"unmatched open quote in list",
        WordFault::ListAfter => b"list element followed by more text",
        WordFault::Memory => b"out of memory",
        WordFault::MissingParen => b"missing )",
        WordFault::BadCodePoint => b"bad code point",
    }
}
