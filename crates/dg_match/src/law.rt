//! Laws of buffers and hits, which need no code.
ghost use Rattle.dg_match.specs.Laws.{ChunksAreHeardTogether, HitsAreOne};

/// Chunks that are added one after the other leave the last bytes of what was there and of all chunks, without nulls.
pub fn chunks_are_heard_together()
    ensures { ChunksAreHeardTogether }
{}

/// A list of patterns has one hit in bytes, if any, and it is that of the function.
pub fn hits_are_one()
    ensures { HitsAreOne }
{}
