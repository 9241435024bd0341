//! A suite's files, read in order.
use crate::fault::RunFault;
use crate::listing::{list_files, names_in};
use crate::paths::{in_folder, is_tool_folder};
use crate::reading::read_file;
use dg_bytes::Bytes;
use dg_world::{Edit, Refusal};
use std::alloc::Global;
use std::io;
use std::rt::Files;

/// One byte more than a suite's file may have.
const FILE_READ: u64 = 1_048_577;

/// One byte more than a transcript may have: what 65,536 entries can say is under this.
const TRANSCRIPT_READ: u64 = 1_073_741_825;

/// What takes the files of a suite, as a world does.
pub trait Intake {
    /// Makes an edit, or changes nothing.
    fn take(&mut self, edit: Edit) -> Result<(), Refusal>;
}

/// Reads a file of a suite and hands it on.
fn put_file<R: Files + AllocGlobal, I: Intake>(
    rt: &R,
    srcdir: &str,
    name: &str,
    intake: &mut I,
) -> Result<(), RunFault> {
    let alloc = rt.alloc();
    let path = in_folder(alloc, srcdir, name)?;
    let bytes = match read_file(rt, path.as_str(), FILE_READ) {
        Ok(bytes) => bytes,
        Err(error) => return Err(RunFault::of_read(alloc, path.as_str(), &error)),
    };
    let name = Bytes::from_slice(alloc, name.as_bytes())?;
    match intake.take(Edit::PutFile(name, bytes)) {
        Ok(()) => Ok(()),
        Err(Refusal::Memory) => Err(RunFault::Memory),
        Err(_) => Err(RunFault::of_file(alloc, path.as_str())),
    }
}

/// Reads the files of these folders of a suite, all listed first, in byte order of their names.
fn read_group<R: Files + AllocGlobal + Clone + Drop, I: Intake>(
    rt: &R,
    srcdir: &str,
    folders: Vec<String>,
    intake: &mut I,
) -> Result<(), RunFault> {
    let mut files = Vec::new(rt.alloc());
    for folder in folders {
        list_files(rt, srcdir, folder, &mut files)?;
    }
    files.sort()?;
    for name in &files {
        put_file(rt, srcdir, name.as_str(), intake)?;
    }
    Ok(())
}

/// A group of one folder.
fn only(alloc: Global, folder: &str) -> Result<Vec<String>, RunFault> {
    let mut folders = Vec::new(alloc);
    folders.push(String::from_str(alloc, folder)?)?;
    Ok(folders)
}

/// The folders of the tool, in byte order.
fn tool_folders<R: Files + AllocGlobal + Clone + Drop>(
    rt: &R,
    srcdir: &str,
    tool: &[u8],
) -> Result<Vec<String>, RunFault> {
    let alloc = rt.alloc();
    let Some(names) = names_in(rt, srcdir)? else {
        let none = io::Error::from(io::ErrorKind::NotFound);
        return Err(RunFault::of_read(alloc, srcdir, &none));
    };
    let mut folders = Vec::new(alloc);
    for name in &names.folders {
        if is_tool_folder(tool, name.as_str()) {
            folders.push(String::from_str(alloc, name.as_str())?)?;
        }
    }
    Ok(folders)
}

/// Reads the files of a suite that end in `.exp`: those of `lib`, then those of `boards`, then those of the folders whose
/// names begin with the tool's, each of the three in byte order of the names. A folder that isn't there has none, but the
/// suite's own has to be there. The first file that can't be read or isn't taken ends it.
pub fn read_suite<R: Files + AllocGlobal + Clone + Drop, I: Intake>(
    rt: &R,
    srcdir: &str,
    tool: &[u8],
    intake: &mut I,
) -> Result<(), RunFault> {
    let alloc = rt.alloc();
    let folders = tool_folders(rt, srcdir, tool)?;
    read_group(rt, srcdir, only(alloc, "lib")?, intake)?;
    read_group(rt, srcdir, only(alloc, "boards")?, intake)?;
    read_group(rt, srcdir, folders, intake)
}

/// The text of a transcript, or nothing where there is none.
pub fn read_transcript<R: Files + AllocGlobal>(
    rt: &R,
    path: &str,
) -> Result<Option<Bytes>, RunFault> {
    match read_file(rt, path, TRANSCRIPT_READ) {
        Ok(bytes) => Ok(Some(bytes)),
        Err(error) => match error.kind() {
            io::ErrorKind::NotFound => Ok(None),
            _ => Err(RunFault::of_read(rt.alloc(), path, &error)),
        },
    }
}
