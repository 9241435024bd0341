//! The folders of a run: a suite's files are read from one, and reports and transcripts stand in another.
#![tactic(auto)]

mod fault;
mod listing;
mod paths;
mod reading;
mod suite;
mod writing;

pub use crate::fault::RunFault;
pub use crate::paths::{sum_path, transcript_path};
pub use crate::suite::{Intake, read_suite, read_transcript};
pub use crate::writing::{renew, write_in_place, write_transcript, write_with_folders};
