//! The classes of result lines and the kinds of message lines.
ghost use Rattle.std.specs.Prelude.{◌≡◌};
ghost use Rattle.dg_results.specs.Classes.{class_name, is_unexpected};

/// What a line of a test tells: one of nine result classes (POSIX 1003.3 and the DejaGnu manual,
/// "Test results"), or one of three kinds of message.
#[derive(Clone, Copy, Debug, PartialEq, Eq)]
pub enum Class {
    Pass,
    Fail,
    XPass,
    XFail,
    KPass,
    KFail,
    Unresolved,
    Untested,
    Unsupported,
    Error,
    Warning,
    Note,
}

impl Class {
    /// The word before the colon of its lines.
    pub fn name(self) -> &'static [u8]
        ensures { result.now ≡ class_name self }
    {
        match self {
            Class::Pass => b"PASS",
            Class::Fail => b"FAIL",
            Class::XPass => b"XPASS",
            Class::XFail => b"XFAIL",
            Class::KPass => b"KPASS",
            Class::KFail => b"KFAIL",
            Class::Unresolved => b"UNRESOLVED",
            Class::Untested => b"UNTESTED",
            Class::Unsupported => b"UNSUPPORTED",
            Class::Error => b"ERROR",
            Class::Warning => b"WARNING",
            Class::Note => b"NOTE",
        }
    }

    /// Whether it is a result that makes the run's status 1.
    pub fn is_unexpected(self) -> bool
        ensures { result ≡ is_unexpected self }
    {
        matches!(
            self,
            Class::Fail | Class::XPass | Class::KPass | Class::Unresolved
        )
    }
}
