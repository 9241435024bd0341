//! What the words of `regexp` say.
use dg_bytes::{Bytes, Seq};

/// The words of `regexp`: a `-re` pattern, the text in which it is looked for, and the names that get what was found
/// (regexp(n)).
#[derive(Drop)]
pub struct Search {
    pub pattern: Bytes,
    pub text: Bytes,
    pub names: Seq<Bytes>,
}
