//! The record of a test's sessions.
ghost use Rattle.std.specs.Prelude.{◌≡◌, ◌↔◌, IsOk, IfOk, IfErr, List, option_copied};
ghost use Rattle.dg_transcript.specs.Limits.{IsTranscript};
ghost use Rattle.dg_transcript.specs.Sessions.{entry_at};

use crate::entry::Entry;
use crate::limits::are_transcript;
use dg_bytes::{Seq, TryCopy};
use std::alloc::{AllocError, Global};
use std::marker::Model;

/// The sessions of a test, from session 1 on, each with its entries in order. It keeps the order
/// and the limits of the format: at most 64 sessions and 65,536 entries; each session is a failed
/// start alone, or a start, then what was sent and read, then at most one end of its output or of
/// the session, then at most one wait.
pub struct Transcript {
    sessions: Seq<Seq<Entry>>,
}

impl Drop for Transcript {
    fn drop(self) {
        let Transcript { sessions: _ } = self;
    }
}

impl Model for Transcript {
    ghost use Rattle.std.specs.Prelude.{List};
    ghost use Rattle.dg_transcript.specs.declared.entry.Entry.{Entry};

    ghost Value = { List (List Entry) };

    ghost use Rattle.dg_transcript.specs.Limits.{IsTranscript};

    ghost view = { λ t. t.sessions };

    ghost invariant = { λ t. IsTranscript t.sessions };
}

impl Transcript {
    /// The transcript of these sessions, or the sessions again where they don't keep the order or
    /// the limits.
    pub fn from_sessions(sessions: Seq<Seq<Entry>>) -> Result<Transcript, Seq<Seq<Entry>>>
        ensures when { IsOk result ↔ IsTranscript sessions }
        ensures ok { IfOk result (λ t. t ≡ sessions) }
        ensures back { IfErr result (λ s. s ≡ sessions) }
    {
        if are_transcript(sessions.as_slice()) {
            Ok(Transcript::keeping(sessions))
        } else {
            Err(sessions)
        }
    }

    /// The transcript of sessions that keep the order and the limits.
    pub(crate) fn keeping(sessions: Seq<Seq<Entry>>) -> Transcript
        requires { IsTranscript sessions }
        ensures { result ≡ sessions }
    {
        Transcript { sessions }
    }

    /// The sessions, each with its entries.
    pub fn sessions(&self) -> &[Seq<Entry>]
        ensures value { result.now ≡ self.now }
        ensures kept { IsTranscript self.now }
    {
        let _ = &self.sessions;
        self.sessions.as_slice()
    }

    /// The entry of a session, counted from 1, at a place, counted from 0, as a [`Cursor`] counts
    /// them; nothing where there is no such session or its record has ended.
    ///
    /// [`Cursor`]: crate::Cursor
    pub fn entry(&self, session: u32, place: u32) -> Option<&Entry>
        ensures { option_copied result ≡ entry_at self.now session place }
    {
        let index = session.checked_sub(1)?;
        let entries = self.sessions.as_slice().get(index as usize)?;
        entries.as_slice().get(place as usize)
    }
}

impl TryCopy for Transcript {
    fn copy(&self, alloc: Global) -> Result<Transcript, AllocError> {
        Ok(Transcript {
            sessions: self.sessions.copy(alloc)?,
        })
    }
}
