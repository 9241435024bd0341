//! The program that tries what no clause says, and what no script or request can be a row of. Each line that it writes is a case, and
//! whether it came out as it has to, or a file of data, and how much of it was tried. No line depends on how threads run.
#![tactic(auto)]

mod benches;
mod calls;
mod files;
mod growths;
mod jobs;
mod lines;
mod live;
mod memory;
mod parts;
mod pipes;
mod reports;
mod sessions;

use anyhow::{Result, bail};
use std::env;
use std::process::{Processes, SystemProcess};
use std::rt::Files;
use std::sync::Wait;
use std::thread::Threads;
use std::time::Clock;

/// The parts that are tried in turn.
const PARTS: [&str; 6] = ["cores", "threads", "sessions", "live", "pipes", "benches"];

/// Tries a part, with the data of this folder.
fn try_part<R>(rt: R, folder: &str, part: &str) -> Result<()>
where
    R: Print
        + Files
        + AllocGlobal
        + Processes<Started = SystemProcess>
        + Threads
        + Wait
        + Clock
        + Copy
        + Drop
        + Send
        + Sync
        + 'static,
{
    match part {
        "growths" => growths::try_all(&rt, folder),
        "cores" => calls::try_file(&rt, folder),
        "threads" => reports::try_threads(&rt, rt.alloc()),
        "sessions" => sessions::try_cases(&rt, rt.alloc()),
        "live" => live::try_files(&rt, folder),
        "pipes" => pipes::try_file(rt, folder),
        "benches" => benches::try_cases(&rt),
        _ => bail!("there is no part of this name"),
    }
}

/// Tries all parts, with the data of this folder.
fn try_parts<R>(rt: R, folder: &str) -> Result<()>
where
    R: Print
        + Files
        + AllocGlobal
        + Processes<Started = SystemProcess>
        + Threads
        + Wait
        + Clock
        + Copy
        + Drop
        + Send
        + Sync
        + 'static,
{
    for part in PARTS {
        try_part(rt, folder, part)?;
    }
    Ok(())
}

/// Tries all with the data of the folder where the program runs. Growths come first, where the heap is as at the start. Where a folder
/// is named its data are taken, and growths are left out, since under `rt try` memory can't be taken whole; a word behind it names the
/// one part that is tried.
fn main(rt: HostRuntime) -> Result<()> {
    let mut words = env::args(&rt)?;
    let folder = words.nth(1);
    let part = words.next();
    match (folder, part) {
        (Some(folder), Some(part)) => try_part(rt, folder.as_str(), part.as_str()),
        (Some(folder), None) => try_parts(rt, folder.as_str()),
        (None, _) => {
            try_part(rt, ".", "growths")?;
            try_parts(rt, ".")
        }
    }
}
