//! Why the world refuses what it is asked.
ghost use Rattle.std.specs.Prelude.{◌≡◌};
ghost use Rattle.dg_world.specs.Refusal.{refusal_number};
ghost use Rattle.dg_world.specs.declared.refusal.Refusal.TheVariants.{Memory};

use dg_transcript::Cause;
use std::alloc::AllocError;
use thiserror::Error;

/// Why the world refuses what it is asked. Where several could be given, the first of this list is, and `Memory` wherever
/// a growth was refused.
#[derive(Clone, Copy, Debug, PartialEq, Eq, Error)]
pub enum Refusal {
    /// The bytes are no name.
    #[error("not a name")]
    BadName,
    /// A file of more than 1,048,576 bytes.
    #[error("a file is longer than 1,048,576 bytes")]
    TooLong,
    /// A new name beside 4,096 files, or a new test beside 65,536 transcripts.
    #[error("there are too many already")]
    TooMany,
    /// There is no file of this name.
    #[error("no such file")]
    NoSuchFile,
    /// There is no transcript of this test.
    #[error("no such transcript")]
    NoSuchTranscript,
    /// The selection is not valid.
    #[error("not a valid selection")]
    BadSelection,
    /// The text is no transcript: its first bad line, from 1, and what is wrong with it.
    #[error("line {0} is no line of a transcript: {1}")]
    BadTranscript(u32, Cause),
    /// Memory ran out.
    #[error("out of memory")]
    Memory,
}

impl Refusal {
    /// Its number: 1 to 8 in the order of the list.
    pub fn number(self) -> u8
        ensures { result ≡ refusal_number self }
    {
        match self {
            Refusal::BadName => 1,
            Refusal::TooLong => 2,
            Refusal::TooMany => 3,
            Refusal::NoSuchFile => 4,
            Refusal::NoSuchTranscript => 5,
            Refusal::BadSelection => 6,
            Refusal::BadTranscript(..) => 7,
            Refusal::Memory => 8,
        }
    }
}

impl From<AllocError> for Refusal {
    ghost from_gives = { λ _ r. r ≡ Memory };

    fn from(_e: AllocError) -> Refusal {
        Refusal::Memory
    }
}
