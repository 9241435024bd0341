//! What a child did, written as a text and replayed.
#![tactic(auto)]

mod cause;
mod code;
mod cursor;
mod decoding;
mod entry;
mod fields;
mod laws;
mod limits;
mod line;
mod reading;
mod transcript;
mod writing;

pub use crate::cause::Cause;
pub use crate::code::ErrorCode;
pub use crate::cursor::{Act, Action, Cursor};
pub use crate::decoding::decode;
pub use crate::entry::Entry;
pub use crate::laws::{
    a_bad_field_is_of_a_known_kind, decode_encoded, each_text_is_decoded, one_fault, one_text,
    steps_are_replay,
};
pub use crate::limits::{MAX_ENTRIES, MAX_WAIT, MAX_WORDS};
pub use crate::transcript::Transcript;
pub use crate::writing::encode;
