//! Files that are there whole or as they were.
use crate::fault::RunFault;
use crate::paths::beside;
use crate::reading::read_as_long;
use std::fs::{FileTimes, OpenFile, OpenOptions};
use std::io::{ErrorKind, Write};
use std::path::Path;
use std::rt::Files;
use std::time::{Clock, SystemTime};
use std::{fs, io};

/// How many runs may write one file at once.
const MOST: u32 = 10_000;

/// A new file beside a path, where no other run writes, and its own path.
fn create_beside<R: Files + AllocGlobal>(rt: &R, path: &str) -> io::Result<(String, R::File)> {
    for number in 0..MOST {
        let other = beside(rt.alloc(), path, number)?;
        let created = OpenOptions::new()
            .write(true)
            .create_new(true)
            .open(rt, other.as_str());
        match created {
            Ok(file) => return Ok((other, file)),
            Err(error) if error.kind() == ErrorKind::AlreadyExists => {}
            Err(error) => return Err(error),
        }
    }
    Err(io::Error::from(ErrorKind::AlreadyExists))
}

/// Writes a new file beside a path and then puts it in its place. Where that fails no new file is left.
fn replace<R: Files + AllocGlobal>(rt: &R, path: &str, bytes: &[u8]) -> io::Result<()> {
    let (other, mut file) = create_beside(rt, path)?;
    let written = file.write_all(bytes);
    drop(file);
    let moved = match written {
        Ok(()) => fs::rename(rt, other.as_str(), path),
        Err(error) => Err(error),
    };
    if moved.is_err() {
        let _ = fs::remove_file(rt, other.as_str());
    }
    moved
}

/// Writes a file beside another and then puts it in its place, so that whoever reads the path, at any moment, after a kill,
/// and where several runs write it at once, finds the old bytes or the new ones. Where that fails the old file stands.
pub fn write_in_place<R: Files + AllocGlobal>(
    rt: &R,
    path: &str,
    bytes: &[u8],
) -> Result<(), RunFault> {
    match replace(rt, path, bytes) {
        Ok(()) => Ok(()),
        Err(error) => Err(RunFault::of_write(rt.alloc(), path, &error)),
    }
}

/// Whether a file has just these bytes. One that is longer or shorter is not read.
fn has_bytes<R: Files + AllocGlobal>(rt: &R, path: &str, bytes: &[u8]) -> bool {
    match read_as_long(rt, path, bytes.len() as u64) {
        Ok(Some(found)) => found.as_slice() == bytes,
        Ok(None) | Err(_) => false,
    }
}

/// Whether a file, and no link to one, has just these bytes.
fn is_file_of<R: Files + AllocGlobal>(rt: &R, path: &str, bytes: &[u8]) -> bool {
    match fs::symlink_metadata(rt, path) {
        Ok(found) => found.is_file() && has_bytes(rt, path, bytes),
        Err(_) => false,
    }
}

/// Gives a file the time of now, as writing it does.
fn set_time<R: Files + Clock>(rt: &R, path: &str) -> io::Result<()> {
    let now = SystemTime::now(rt)?;
    let file = OpenOptions::new().write(true).open(rt, path)?;
    file.set_times(FileTimes::new().set_modified(now))
}

/// Whether a file has just these bytes already, and now the time of now too: whoever goes by times, as `make` does, sees it
/// written. That is done at once, where some file systems take milliseconds to put a new file in the place of an old one.
pub fn renew<R: Files + AllocGlobal + Clock>(rt: &R, path: &str, bytes: &[u8]) -> bool {
    is_file_of(rt, path, bytes) && set_time(rt, path).is_ok()
}

/// Writes a file in a folder that may not be there yet. The folders are made once the file could not be.
fn replace_in_folder<R: Files + AllocGlobal>(rt: &R, path: &str, bytes: &[u8]) -> io::Result<()> {
    match replace(rt, path, bytes) {
        Err(error) if error.kind() == ErrorKind::NotFound => {}
        written => return written,
    }
    if let Some(folder) = Path::new(path).parent() {
        fs::create_dir_all(rt, folder)?;
    }
    replace(rt, path, bytes)
}

/// Writes a file as `write_in_place` does, and makes the folders that it stands in.
pub fn write_with_folders<R: Files + AllocGlobal>(
    rt: &R,
    path: &str,
    bytes: &[u8],
) -> Result<(), RunFault> {
    match replace_in_folder(rt, path, bytes) {
        Ok(()) => Ok(()),
        Err(error) => Err(RunFault::of_write(rt.alloc(), path, &error)),
    }
}

/// Writes a transcript, and makes the folders that it stands in. A file that has this text already is left as it is.
pub fn write_transcript<R: Files + AllocGlobal>(
    rt: &R,
    path: &str,
    text: &[u8],
) -> Result<(), RunFault> {
    if has_bytes(rt, path, text) {
        return Ok(());
    }
    write_with_folders(rt, path, text)
}
