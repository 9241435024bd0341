//! What a child did, one step at a time.
ghost use Rattle.std.specs.Prelude.{◌≡◌, MatchOption, OnOk, Some, None};
ghost use Rattle.dg_transcript.specs.Output.{output_of, is_failure};
ghost use Rattle.dg_transcript.specs.Order.{role_of};

use crate::code::ErrorCode;
use crate::line::Role;
use dg_bytes::{Bytes, Seq, TryCopy};
use std::alloc::{AllocError, Global};

/// One entry of a session's record.
#[derive(PartialEq, Eq, Hash)]
pub enum Entry {
    /// The child was started by these words.
    Started(Seq<Bytes>),
    /// It could not be started by these words.
    NoStart(ErrorCode, Seq<Bytes>),
    /// The bytes were sent to it.
    Sent(Bytes),
    /// The bytes could not be sent.
    NoSend(ErrorCode, Bytes),
    /// After so many milliseconds these bytes came from it.
    Chunk(u32, Bytes),
    /// After so many milliseconds its output ended.
    End(u32),
    /// Its output could not be read.
    NoRead(ErrorCode),
    /// For so many milliseconds nothing came from it.
    Silence(u32),
    /// Its session was closed.
    Closed,
    /// Its session could not be closed.
    NoClose(ErrorCode),
    /// It ended with this status.
    Exited(u8),
    /// It was killed by this signal.
    Killed(u8),
    /// It could not be waited for.
    NoWait(ErrorCode),
}

impl Drop for Entry {
    fn drop(self) {
        match self {
            Entry::Started(_words) | Entry::NoStart(_, _words) => {}
            Entry::Sent(_bytes) | Entry::NoSend(_, _bytes) | Entry::Chunk(_, _bytes) => {}
            Entry::End(_) | Entry::Silence(_) | Entry::Closed | Entry::Exited(_) => {}
            Entry::NoRead(_) | Entry::NoClose(_) | Entry::NoWait(_) | Entry::Killed(_) => {}
        }
    }
}

impl Entry {
    /// What came from the child by this entry: after so many milliseconds, these bytes.
    pub fn output(&self) -> Option<(u32, &Bytes)>
        ensures { MatchOption result (output_of self.now ≡ None) (λ o. output_of self.now ≡ Some (o.0, o.1.now)) }
    {
        match self {
            Entry::Chunk(wait, bytes) => Some((*wait, bytes)),
            _ => None,
        }
    }

    /// From now on a copy costs no copy of what came from the child. Where a growth is refused that is lost.
    pub fn keep(&mut self, alloc: Global) -> Result<(), AllocError>
        ensures { OnOk result (self.new ≡ self.old) }
    {
        match self {
            Entry::Chunk(_, bytes) => bytes.keep(alloc),
            _ => Ok(()),
        }
    }

    /// Whether the entry tells of a call that failed.
    pub fn is_failure(&self) -> bool
        ensures { result ≡ is_failure self.now }
    {
        matches!(
            self,
            Entry::NoStart(..)
                | Entry::NoSend(..)
                | Entry::NoRead(_)
                | Entry::NoClose(_)
                | Entry::NoWait(_)
        )
    }

    /// What the entry does in its session.
    pub(crate) fn role(&self) -> Role
        ensures { result ≡ role_of self.now }
    {
        match self {
            Entry::Started(_) => Role::Start,
            Entry::NoStart(..) => Role::Failure,
            Entry::Sent(_) | Entry::NoSend(..) | Entry::Chunk(..) | Entry::Silence(_) => Role::Talk,
            Entry::End(_) | Entry::NoRead(_) | Entry::Closed | Entry::NoClose(_) => Role::End,
            Entry::Exited(_) | Entry::Killed(_) | Entry::NoWait(_) => Role::Wait,
        }
    }
}

impl TryCopy for Entry {
    fn copy(&self, alloc: Global) -> Result<Entry, AllocError> {
        Ok(match self {
            Entry::Started(words) => Entry::Started(words.copy(alloc)?),
            Entry::NoStart(code, words) => Entry::NoStart(*code, words.copy(alloc)?),
            Entry::Sent(bytes) => Entry::Sent(bytes.copy(alloc)?),
            Entry::NoSend(code, bytes) => Entry::NoSend(*code, bytes.copy(alloc)?),
            Entry::Chunk(wait, bytes) => Entry::Chunk(*wait, bytes.copy(alloc)?),
            Entry::End(wait) => Entry::End(*wait),
            Entry::NoRead(code) => Entry::NoRead(*code),
            Entry::Silence(wait) => Entry::Silence(*wait),
            Entry::Closed => Entry::Closed,
            Entry::NoClose(code) => Entry::NoClose(*code),
            Entry::Exited(status) => Entry::Exited(*status),
            Entry::Killed(signal) => Entry::Killed(*signal),
            Entry::NoWait(code) => Entry::NoWait(*code),
        })
    }
}
