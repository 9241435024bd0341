//! The machine that runs scripts: a stack of frames, and its moves.
#![tactic(auto)]

mod acting;
mod answers;
mod attempting;
mod boxed;
mod choices;
mod control;
mod dispatch;
mod evaluation;
mod expecting;
mod expressions;
mod frame;
mod gather;
mod libraries;
mod machine;
mod matches;
mod opening;
mod patterns;
mod procedures;
mod readings;
mod regexp;
mod repeats;
mod rounds;
mod sessions;
mod settling;
mod step;

pub use crate::answers::Answers;
pub use crate::evaluation::{Arrival, Asking, Ended, Evaluation};
pub use crate::readings::Readings;
