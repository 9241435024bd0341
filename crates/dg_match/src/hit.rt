//! Where a pattern has matched.
use dg_bytes::Seq;
use dg_glob::Span;

/// A match of one of the patterns that were tried: the pattern's index in their list, the part of
/// the buffer that matched, from the byte at `start` to the one before `end`, and for a `-re`
/// pattern the part of each group from the first, where the group took part.
#[derive(Drop)]
pub struct Hit {
    pub index: usize,
    pub start: usize,
    pub end: usize,
    pub groups: Seq<Option<Span>>,
}
