//! Why a call of a child failed.
ghost use Rattle.std.specs.Prelude.{◌≡◌};
ghost use Rattle.dg_transcript.specs.Text.{code_number};

/// Why a call of a child failed.
#[derive(Clone, Copy, Debug, PartialEq, Eq, Hash)]
pub enum ErrorCode {
    NotFound = 1,
    NotPermitted = 2,
    BrokenPipe = 3,
    Other = 4,
}

impl ErrorCode {
    /// The number of the code, 1 to 4.
    pub fn number(self) -> u8
        ensures { result ≡ code_number self }
    {
        self as u8
    }
}
