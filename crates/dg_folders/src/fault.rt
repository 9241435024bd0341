//! Why a run ended before its report.
ghost use Rattle.std.specs.Prelude.{◌≡◌};
ghost use Rattle.dg_folders.specs.declared.fault.RunFault.TheVariants.{Memory};

use std::alloc::{AllocError, AllocFailed, Global};
use std::io;
use thiserror::Error;

/// Why a run ended before its report. A file is named by the path by which it was opened.
#[derive(Debug, Drop, Error)]
pub enum RunFault {
    /// A folder or a file could not be read.
    #[error("can't read {0}")]
    Read(String),
    /// A folder or a file could not be written.
    #[error("can't write {0}")]
    Write(String),
    /// A file's name is not a name of a suite's file, or it is too long, or there are too many.
    #[error("bad file {0}")]
    BadFile(String),
    /// A transcript's first bad line, from 1, and the number of what is wrong with it.
    #[error("bad transcript {0} line {1} cause {2}")]
    BadTranscript(String, u32, u8),
    /// A pattern that was read can't be built again, in a test of this board and script.
    #[error("pattern lost in {0} {1}")]
    PatternLost(String, String),
    /// The shared history of the run is full.
    #[error("history full")]
    HistoryFull,
    /// A thread could not be started.
    #[error("no thread")]
    NoThread,
    /// A growth was refused.
    #[error("out of memory")]
    Memory,
}

impl RunFault {
    /// The fault of a path that could not be read.
    pub(crate) fn of_read(alloc: Global, path: &str, error: &io::Error) -> RunFault {
        match (error.kind(), String::from_str(alloc, path)) {
            (io::ErrorKind::OutOfMemory, _) | (_, Err(_)) => RunFault::Memory,
            (_, Ok(path)) => RunFault::Read(path),
        }
    }

    /// The fault of a path that could not be written.
    pub(crate) fn of_write(alloc: Global, path: &str, error: &io::Error) -> RunFault {
        match (error.kind(), String::from_str(alloc, path)) {
            (io::ErrorKind::OutOfMemory, _) | (_, Err(_)) => RunFault::Memory,
            (_, Ok(path)) => RunFault::Write(path),
        }
    }

    /// The fault of a file that can't be one of the suite.
    pub(crate) fn of_file(alloc: Global, path: &str) -> RunFault {
        match String::from_str(alloc, path) {
            Ok(path) => RunFault::BadFile(path),
            Err(_) => RunFault::Memory,
        }
    }
}

impl From<AllocError> for RunFault {
    ghost from_gives = { λ _ e. e ≡ Memory };

    fn from(_e: AllocError) -> RunFault {
        RunFault::Memory
    }
}

impl<T: Drop> From<AllocFailed<T>> for RunFault {
    ghost from_gives = { λ _ e. e ≡ Memory };

    fn from(_e: AllocFailed<T>) -> RunFault {
        RunFault::Memory
    }
}
