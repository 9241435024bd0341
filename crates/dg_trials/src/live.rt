//! Live runs over gates that answer from lists: rows of scripts, with what their gates answer and what comes of it, and scripts that
//! are drawn from pieces. Both stand in data/, where a person can read them and add to them.
mod chance;
pub mod desk;
mod drawing;
mod entries;
mod rows;
mod runs;
mod steps;

use crate::files::bytes_of;
use crate::live::drawing::try_drawn;
use crate::live::rows::try_rows;
use crate::live::steps::try_steps;
use anyhow::Result;
use std::io;
use std::io::{BufWriter, Write};
use std::rt::Files;

/// The rows of runs.
const ROWS: &str = "live.rows";

/// The pieces that scripts are drawn from.
const PIECES: &str = "random.pieces";

/// Tries the files of this folder. For each it tells how many runs there are, and before that each one that gives something else.
pub fn try_files<R: Print + Files + AllocGlobal>(rt: &R, folder: &str) -> Result<()> {
    let alloc = rt.alloc();
    let mut out = BufWriter::new(alloc, io::writer(rt))?;
    let rows = bytes_of(rt, folder, ROWS)?;
    try_rows(alloc, &mut out, ROWS, rows.as_slice())?;
    let pieces = bytes_of(rt, folder, PIECES)?;
    try_drawn(alloc, &mut out, PIECES, pieces.as_slice())?;
    try_steps(alloc, &mut out)?;
    Ok(out.flush()?)
}
