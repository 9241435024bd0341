//! The world that scripts are judged in: files by name, a selection, transcripts by test, and the book of patterns.
#![tactic(auto)]

mod edit;
mod name;
mod question;
mod refusal;
mod selection;
mod setting;
mod test_id;
mod world;

pub use crate::edit::Edit;
pub use crate::name::{Name, is_name, is_single_part};
pub use crate::question::{Answer, EntryPlace, Question, Read, System};
pub use crate::refusal::Refusal;
pub use crate::selection::Selection;
pub use crate::setting::{Setting, is_variable};
pub use crate::test_id::TestId;
pub use crate::world::World;
