//! The files of folders, by name.
use crate::fault::RunFault;
use crate::paths::in_folder;
use std::alloc::Global;
use std::fs::{self, DirEntry};
use std::io;
use std::rt::Files;

/// What a suite's scripts, libraries and boards are called.
const SUFFIX: &str = ".exp";

/// What stands in a folder: the names of its folders, and of its files that end in `.exp`.
#[derive(Drop)]
pub struct Names {
    pub folders: Vec<String>,
    pub files: Vec<String>,
}

impl Names {
    fn new(alloc: Global) -> Names {
        Names {
            folders: Vec::new(alloc),
            files: Vec::new(alloc),
        }
    }

    /// Adds a name. A link is what it leads to; one that leads nowhere is a file.
    fn add<R: Files>(
        &mut self,
        alloc: Global,
        rt: &R,
        entry: &DirEntry<R, Global>,
    ) -> Result<(), RunFault> {
        let name = String::from_str(alloc, entry.file_name())?;
        match fs::metadata(rt, entry.path()) {
            Ok(metadata) if metadata.is_dir() => self.folders.push(name)?,
            _ => {
                if entry.file_name().ends_with(SUFFIX) {
                    self.files.push(name)?;
                }
            }
        }
        Ok(())
    }
}

/// The names in a folder, or nothing where there is none of this path.
pub fn names_in<R: Files + AllocGlobal + Clone + Drop>(
    rt: &R,
    path: &str,
) -> Result<Option<Names>, RunFault> {
    let alloc = rt.alloc();
    let entries = match fs::read_dir(rt, path) {
        Ok(entries) => entries,
        Err(error) => {
            return match error.kind() {
                io::ErrorKind::NotFound => Ok(None),
                _ => Err(RunFault::of_read(alloc, path, &error)),
            };
        }
    };
    let mut names = Names::new(alloc);
    for entry in entries {
        match entry {
            Ok(entry) => names.add(alloc, rt, &entry)?,
            Err(error) => return Err(RunFault::of_read(alloc, path, &error)),
        }
    }
    Ok(Some(names))
}

/// Adds the files of a folder and of all folders in it to a list, by their names in the suite. A folder that isn't there
/// has none.
pub fn list_files<R: Files + AllocGlobal + Clone + Drop>(
    rt: &R,
    srcdir: &str,
    folder: String,
    files: &mut Vec<String>,
) -> Result<(), RunFault> {
    let alloc = rt.alloc();
    let mut folders = Vec::new(alloc);
    folders.push(folder)?;
    for _ in 0..u64::MAX {
        let Some(folder) = folders.pop() else {
            return Ok(());
        };
        let path = in_folder(alloc, srcdir, folder.as_str())?;
        if let Some(names) = names_in(rt, path.as_str())? {
            push_in(alloc, folder.as_str(), &names.files, files)?;
            push_in(alloc, folder.as_str(), &names.folders, &mut folders)?;
        }
    }
    Ok(())
}

/// Adds names in a folder to a list.
fn push_in(
    alloc: Global,
    folder: &str,
    names: &Vec<String>,
    list: &mut Vec<String>,
) -> Result<(), RunFault> {
    for name in names {
        list.push(in_folder(alloc, folder, name.as_str())?)?;
    }
    Ok(())
}
