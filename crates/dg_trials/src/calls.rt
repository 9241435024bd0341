//! Cases of calls, of which data/cores.rows has the rows: a line `case NAME`, and behind it a call in each row, a bar, and what the
//! call has to come to. Each case is on a core and a job of its own.
mod scene;
mod spelling;

use crate::calls::scene::Scene;
use crate::files::bytes_of;
use anyhow::Result;
use std::alloc::Global;
use std::rt::Files;
use std::str;

/// The rows of cases.
const ROWS: &str = "cores.rows";

/// Tries a case: its name, and its rows behind that. Each row that comes to something else is told, and then whether there was none.
fn try_case(rt: &impl Print, alloc: Global, case: &str) -> Result<()> {
    let (name, rows) = case.split_once('\n').unwrap_or((case, ""));
    let mut scene = Scene::new(alloc)?;
    let mut came_out = true;
    for row in rows.lines() {
        if row.is_empty() || row.starts_with('#') {
            continue;
        }
        if let Some(given) = scene.other_answer(row)? {
            println!(rt; "{name}: {row}: gives {given:?}")?;
            came_out = false;
        }
    }
    println!(rt; "{name}: {came_out}")?;
    Ok(())
}

/// Tries the cases of this folder, and tells of each whether it came out as it has to.
pub fn try_file<R: Print + Files + AllocGlobal>(rt: &R, folder: &str) -> Result<()> {
    let text = bytes_of(rt, folder, ROWS)?;
    for case in str::from_utf8(text.as_slice())?.split("\ncase ").skip(1) {
        try_case(rt, rt.alloc(), case)?;
    }
    Ok(())
}
