//! A job whose growth is refused.
use crate::memory::Taken;
use dg_eval::{Job, JobFault};
use dg_world::{Answer, TestId};
use std::alloc::{AllocError, Global};

/// A job that has just begun, of the script t/a.exp.
fn begun(alloc: Global) -> Result<Job, AllocError> {
    match TestId::new(alloc, b"unix", b"t/a.exp") {
        Ok(test) => Job::start(alloc, test),
        Err(_) => Err(AllocError),
    }
}

/// Whether a job that was refused a growth stays failed.
fn has_failed(alloc: Global, job: &mut Job) -> bool {
    matches!(job.advance(alloc), Err(JobFault::Failed))
        && job.answer(Answer::Absent) == Err(JobFault::Failed)
}

/// Whether a growth that is refused ends a job for good, where all memory is taken.
pub fn fails_for_good(alloc: Global) -> Result<bool, AllocError> {
    let mut job = begun(alloc)?;
    let mut taken = Taken::new(alloc)?;
    let is_full = taken.take_all(alloc);
    let is_refused = matches!(job.advance(alloc), Err(JobFault::Memory));
    drop(taken);
    Ok(is_refused == is_full && (!is_refused || has_failed(alloc, &mut job)))
}
