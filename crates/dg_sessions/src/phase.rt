//! How far a session has come.
ghost use Rattle.std.specs.Prelude.{◌≡◌};
ghost use Rattle.dg_sessions.specs.Phases.{can_wait, has_started, is_open, phase_behind};

use dg_transcript::Entry;

/// How far a session has come.
#[derive(Clone, Copy, Debug, PartialEq, Eq)]
pub enum Phase {
    /// Its start was not answered yet, or failed.
    Unstarted,
    /// It has started, and its output may go on.
    Open,
    /// Its output has ended, or could not be read.
    Ended,
    /// It was closed.
    Closed,
    /// Its child was waited for.
    Waited,
}

impl Phase {
    /// Whether `send`, `expect` and `close` can be called.
    pub fn is_open(self) -> bool
        ensures { result ≡ is_open self }
    {
        matches!(self, Phase::Open)
    }

    /// Whether `match_max` can be called.
    pub fn has_started(self) -> bool
        ensures { result ≡ has_started self }
    {
        !matches!(self, Phase::Unstarted)
    }

    /// Whether `wait` can be called.
    pub fn can_wait(self) -> bool
        ensures { result ≡ can_wait self }
    {
        matches!(self, Phase::Open | Phase::Ended | Phase::Closed)
    }

    /// The phase behind an entry that has answered an action.
    pub(crate) fn behind(self, entry: &Entry) -> Phase
        ensures { result ≡ phase_behind entry.now self }
    {
        match entry {
            Entry::Started(_) => Phase::Open,
            Entry::NoStart(..) => Phase::Unstarted,
            Entry::End(_) | Entry::NoRead(_) => Phase::Ended,
            Entry::Closed | Entry::NoClose(_) => Phase::Closed,
            Entry::Exited(_) | Entry::Killed(_) | Entry::NoWait(_) => Phase::Waited,
            Entry::Sent(_) | Entry::NoSend(..) | Entry::Chunk(..) | Entry::Silence(_) => self,
        }
    }
}
