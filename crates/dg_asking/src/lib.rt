//! The commands that evaluate nothing inside and may ask: on variables, on the triplets of the machines, on the flags that these
//! decide, and on the size of a session's buffer. Each is a function of its words and the state to an attempt.
#![tactic(auto)]

mod attempt;
mod limits;
mod seeking;
mod targets;
mod variables;

pub use crate::attempt::{Attempt, AttemptEnd};
pub use crate::limits::run_match_max;
pub use crate::seeking::{Fit, has_session, seek_session, sought};
pub use crate::targets::{run_flag, run_target};
pub use crate::variables::{run_variable, unset_name, unset_names};
