//! What a gate answers.
ghost use Rattle.std.specs.Prelude.{◌≡◌};
ghost use Rattle.dg_transcript.specs.declared.cursor.Action.TheVariants as action;
ghost use Rattle.dg_gate.specs.declared.reply.Reply.TheVariants as reply;
ghost use Rattle.dg_gate.specs.Reply.{fits};

use dg_bytes::Bytes;
use dg_transcript::ErrorCode;

/// The most bytes of a chunk.
const MAX_CHUNK: usize = 4_096;
/// The greatest number of a signal.
const MAX_SIGNAL: u8 = 127;

/// What a read gives.
#[derive(Drop)]
pub enum Piece {
    /// After so many milliseconds, at most the limit, these bytes came: 1 to 4,096.
    Chunk(u32, Bytes),
    /// After so many milliseconds, at most the limit, the output ended.
    End(u32),
    /// Nothing came within the limit.
    Silence,
}

/// How a child ended.
#[derive(Clone, Copy, Debug, PartialEq, Eq)]
pub enum Ended {
    /// By itself, with this status.
    Exited(u8),
    /// By this signal, 1 to 127.
    Killed(u8),
}

/// An answer to any call of a gate.
#[derive(Drop)]
pub enum Reply {
    /// The child was started.
    Started,
    /// The bytes were sent.
    Sent,
    /// What a read gave.
    Piece(Piece),
    /// The session was closed.
    Closed,
    /// The child ended so.
    Ended(Ended),
    /// The call failed.
    Failed(ErrorCode),
}

impl Piece {
    /// Whether a read with this limit may give the piece.
    pub fn fits(&self, limit: u32) -> bool
        ensures { result ≡ fits (action.Read limit) (reply.Piece self.now) }
    {
        match self {
            Piece::Chunk(wait, bytes) => {
                let length = bytes.len();
                *wait <= limit && 1 <= length && length <= MAX_CHUNK
            }
            Piece::End(wait) => *wait <= limit,
            Piece::Silence => true,
        }
    }
}

impl Ended {
    /// Whether a child can end so.
    pub fn fits(self) -> bool
        ensures { result ≡ fits action.Wait (reply.Ended self) }
    {
        match self {
            Ended::Exited(_) => true,
            Ended::Killed(signal) => 1 <= signal && signal <= MAX_SIGNAL,
        }
    }
}
