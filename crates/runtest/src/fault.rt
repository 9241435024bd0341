//! Why the program ended without a report.
use dg_folders::RunFault;
use dg_line::LineFault;
use dg_session::SessionFault;
use std::alloc::{AllocError, AllocFailed};
use thiserror::Error;

/// Why the program ended without a report.
#[derive(Debug, Drop, Error)]
pub enum ProgramFault {
    /// The command line has no plan, or it asks for a text.
    #[error("{0}")]
    Line(LineFault),
    /// A session ended before its input.
    #[error("{0}")]
    Session(SessionFault),
    /// A run ended before its report.
    #[error("{0}")]
    Run(RunFault),
}

impl<T: Drop> From<AllocFailed<T>> for ProgramFault {
    fn from(_e: AllocFailed<T>) -> ProgramFault {
        ProgramFault::Line(LineFault::Memory)
    }
}

impl From<AllocError> for ProgramFault {
    fn from(_e: AllocError) -> ProgramFault {
        ProgramFault::Line(LineFault::Memory)
    }
}
