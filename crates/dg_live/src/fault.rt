//! Why a live run gave no record.
use dg_eval::JobFault;
use dg_gate::AskFault;
use thiserror::Error;

/// Why a live run gave no record. The gate and the asker are as their last calls left them.
#[derive(Clone, Copy, Debug, PartialEq, Eq, Error)]
pub enum LiveFault {
    /// The job did not go on: it wanted memory, a pattern that the asker answered as read can't be built, or the asker's
    /// answer was not of its question's kind.
    #[error("the judging did not go on")]
    Job(JobFault),
    /// The asker did not answer a question.
    #[error("a question was not answered")]
    Asker(AskFault),
    /// The gate wanted memory, or the sharing of its entry or the transcript did.
    #[error("out of memory")]
    Memory,
}
