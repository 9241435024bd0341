//! Bytes and lists of values, as contracts see them. Every other crate uses these types.
#![tactic(auto)]

mod bytes;
mod canonical;
mod copying;
mod few;
mod listed;
mod measure;
mod order;
mod portable;
mod seq;
mod text;

pub use crate::bytes::{Bytes, Growth};
pub use crate::copying::TryCopy;
pub use crate::measure::behind_element;
pub use crate::order::is_same;
pub use crate::portable::are_portable;
pub use crate::seq::Seq;
pub use crate::text::Text;
