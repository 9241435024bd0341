//! One bench for many callers: a core under one lock, and the history of its calls, each place of which is a cell that is
//! read without the lock.
#![tactic(auto)]

mod bench;
mod call;
mod cells;
mod client;
mod history;
mod law;
mod locked;
mod make_gate;
mod note;
mod notes;
mod opened;
mod pass;
mod place;
mod prepared;
mod receipt;
mod refusal;
mod replay;
mod room;
mod work;
mod workers;

pub use crate::bench::Bench;
pub use crate::call::Call;
pub use crate::cells::{BLOCK, Block, Cells};
pub use crate::history::History;
pub use crate::law::{histories_are_runs, sums_are_from_scratch};
pub use crate::locked::Locked;
pub use crate::make_gate::{MakeGate, RunTests};
pub use crate::note::PlaceNote;
pub use crate::opened::Opened;
pub use crate::pass::Pass;
pub use crate::place::Place;
pub use crate::receipt::Receipt;
pub use crate::refusal::BenchRefusal;
pub use crate::room::Room;
pub use crate::work::{Work, WorkFault};
pub use crate::workers::run_workers;
