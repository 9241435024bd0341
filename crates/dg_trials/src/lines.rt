//! The lines of cases.
use anyhow::Result;
use std::alloc::AllocError;

/// Tells whether a case came out as it has to. One that memory is not enough for did not.
pub fn tell(rt: &impl Print, name: &str, came_out: Result<bool, AllocError>) -> Result<()> {
    println!(rt; "{name}: {}", came_out.unwrap_or(false))?;
    Ok(())
}
