//! Why a line has no plan.
ghost use Rattle.std.specs.Prelude.{◌≡◌};
ghost use Rattle.dg_line.specs.Plan.{is_memory};
ghost use Rattle.dg_line.specs.declared.fault.LineFault.TheVariants.{Memory};

use std::alloc::AllocError;
use thiserror::Error;

/// Why a line has no plan. Where several could be given, the first of this list is, and `Memory` wherever a growth was
/// refused.
#[derive(Debug, Drop, Error)]
pub enum LineFault {
    /// The words are not those of the options: one is unknown, wants a value, has a wrong one, or stands twice. The text says
    /// which, and how the program is used.
    #[error("bad command line\n{0}")]
    Words(String),
    /// A word is neither a script nor a variable; the first such one, counted from 1 among the words that are no options.
    #[error("bad word {0}")]
    BadWord(usize),
    /// Both `--rejudge` and `--session` are there.
    #[error("two modes")]
    TwoModes,
    /// What the line selects is not a valid selection.
    #[error("bad selection")]
    BadSelection,
    /// A growth was refused.
    #[error("out of memory")]
    Memory,
    /// No fault: the line asks for the help or for the version, and this is it.
    #[error("{0}")]
    Shown(String),
}

impl LineFault {
    /// Whether it is want of memory.
    pub fn is_memory(&self) -> bool
        ensures { result ≡ is_memory self.now }
    {
        match self {
            LineFault::Memory => true,
            _ => false,
        }
    }
}

impl From<AllocError> for LineFault {
    ghost from_gives = { λ _ e. e ≡ Memory };

    fn from(_e: AllocError) -> LineFault {
        LineFault::Memory
    }
}
