//! The files of data.
use anyhow::Result;
use std::fs;
use std::rt::Files;

/// The bytes of a file, which stands in this folder.
pub fn bytes_of<R: Files + AllocGlobal>(rt: &R, folder: &str, file: &str) -> Result<Vec<u8>> {
    let path = format!(in rt.alloc(); "{folder}/{file}")?;
    Ok(fs::read(rt, path.as_str())?)
}
