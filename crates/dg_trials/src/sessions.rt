//! Sessions: readers and writers that fail in mid-stream, limits, refused growths, and what a live run keeps.
pub mod growth;
mod hostile;
pub mod live;
mod streams;
mod whole;

use crate::lines::tell;
use anyhow::Result;
use std::alloc::Global;

/// Tries all cases.
pub fn try_cases(rt: &impl Print, alloc: Global) -> Result<()> {
    tell(rt, "a session in pieces", whole::answers_all(alloc))?;
    tell(rt, "each read fails", whole::each_read_fails(alloc))?;
    tell(rt, "each write fails", whole::each_write_fails(alloc))?;
    tell(rt, "a line's limit", whole::keeps_the_limit(alloc))?;
    tell(rt, "an endless line", whole::ends_an_endless_line(alloc))?;
    tell(rt, "nested brackets", hostile::brackets(alloc))?;
    tell(rt, "nested braces", hostile::braces(alloc))?;
    tell(rt, "nested ifs", hostile::ifs(alloc))
}
