//! The tests of a transcript's order and limits.
ghost use Rattle.std.specs.Prelude.{◌≡◌, ◌↔◌, IsTrue};
ghost use Rattle.hex.specs.Hex.{IsBytes};
ghost use Rattle.dg_transcript.specs.Limits.{BytesFit, WordsFit, EntryFits, IsSession, IsTranscript};

use crate::entry::Entry;
use crate::line::Place;
use dg_bytes::{Bytes, Seq};

/// The most sessions of a transcript.
pub(crate) const MAX_SESSIONS: usize = 64;
/// The most entries of a transcript.
pub const MAX_ENTRIES: usize = 65_536;
/// The most words of a start.
pub const MAX_WORDS: usize = 64;
/// The most bytes that are sent at once.
pub(crate) const MAX_SENT: usize = 1_048_576;
/// The most bytes of a chunk.
pub(crate) const MAX_CHUNK: usize = 4_096;
/// The longest wait in milliseconds.
pub const MAX_WAIT: u32 = 3_600_000;
/// The greatest number of a signal.
pub(crate) const MAX_SIGNAL: u8 = 127;

// What is known of each byte of a slice.
fn are_bytes(bytes: &[u8])
    ensures { IsBytes bytes.now }
{
    let _ = bytes.len();
}

// The bytes, each below 256.
fn told(bytes: &Bytes) -> &[u8]
    ensures value { result.now ≡ bytes.now }
    ensures below { IsBytes bytes.now }
{
    let told = bytes.as_slice();
    are_bytes(told);
    told
}

fn bytes_fit(bytes: &Bytes, most: usize) -> bool
    ensures { IsTrue result ↔ BytesFit most bytes.now }
{
    let bytes = told(bytes);
    !bytes.is_empty() && bytes.len() <= most
}

fn words_fit(words: &Seq<Bytes>) -> bool
    ensures { IsTrue result ↔ WordsFit words.now }
{
    let words = words.as_slice();
    for word in words {
        let _ = told(word);
    }
    !words.is_empty() && words.len() <= MAX_WORDS
}

fn entry_fits(entry: &Entry) -> bool
    ensures { IsTrue result ↔ EntryFits entry.now }
{
    match entry {
        Entry::Started(words) | Entry::NoStart(_, words) => words_fit(words),
        Entry::Sent(bytes) | Entry::NoSend(_, bytes) => bytes_fit(bytes, MAX_SENT),
        Entry::Chunk(wait, bytes) => *wait <= MAX_WAIT && bytes_fit(bytes, MAX_CHUNK),
        Entry::End(wait) | Entry::Silence(wait) => *wait <= MAX_WAIT,
        Entry::Killed(signal) => *signal >= 1 && *signal <= MAX_SIGNAL,
        Entry::Exited(status) => {
            let _status = *status;
            true
        }
        Entry::NoRead(_) | Entry::Closed | Entry::NoClose(_) | Entry::NoWait(_) => true,
    }
}

fn is_session(entries: &[Entry]) -> bool
    ensures { IsTrue result ↔ IsSession entries.now }
{
    let mut place = Place::Opened;
    for entry in entries {
        let role = entry.role();
        if !place.admits(role) {
            return false;
        }
        if !entry_fits(entry) {
            return false;
        }
        place = role.after();
    }
    !entries.is_empty()
}

/// Whether these sessions keep the order and the limits.
pub(crate) fn are_transcript(sessions: &[Seq<Entry>]) -> bool
    ensures { IsTrue result ↔ IsTranscript sessions.now }
{
    if sessions.len() > MAX_SESSIONS {
        return false;
    }
    let mut room = MAX_ENTRIES;
    for session in sessions {
        let entries = session.as_slice();
        if entries.len() > room {
            return false;
        }
        if !is_session(entries) {
            return false;
        }
        room -= entries.len();
    }
    true
}
