//! What is known of the bytes of an entry.
ghost use Rattle.std.specs.List.{AllByRecursion};
ghost use Rattle.hex.specs.Hex.{IsBytes};
ghost use Rattle.dg_living.specs.Living.{IsOfBytes};

use dg_bytes::{Bytes, Seq};
use dg_transcript::Entry;

// What is known of each byte of a slice.
fn are_bytes(bytes: &[u8])
    ensures { IsBytes bytes.now }
{
    // The call shows the proof that the length is a `usize`.
    let _ = bytes.len();
}

fn bytes_known(bytes: &Bytes)
    ensures { IsBytes bytes.now }
{
    are_bytes(bytes.as_slice());
}

fn words_known(words: &Seq<Bytes>)
    ensures { AllByRecursion IsBytes words.now }
{
    let words = words.as_slice();
    for word in words {
        bytes_known(word);
    }
}

/// The texts of an entry are bytes, as each value of the type is.
pub(crate) fn entry_known(entry: &Entry)
    ensures { IsOfBytes entry.now }
{
    match entry {
        Entry::Started(words) | Entry::NoStart(_, words) => words_known(words),
        Entry::Sent(bytes) | Entry::NoSend(_, bytes) | Entry::Chunk(_, bytes) => bytes_known(bytes),
        Entry::Exited(status) => {
            let _status = *status;
        }
        Entry::End(_)
        | Entry::NoRead(_)
        | Entry::Silence(_)
        | Entry::Closed
        | Entry::NoClose(_)
        | Entry::Killed(_)
        | Entry::NoWait(_) => {}
    }
}
