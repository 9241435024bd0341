//! A session: the lines of an input, answered in order by one core.
#![tactic(auto)]

mod answer;
mod fault;
mod reading;
mod request;
mod session;
mod writing;

pub use crate::answer::LineAnswer;
pub use crate::fault::SessionFault;
pub use crate::request::Request;
pub use crate::session::{cause_number, run_session, serve};
