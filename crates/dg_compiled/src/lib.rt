//! Scripts, expressions and lists are read once and kept. Words are made and expressions are computed
//! here, as far as nothing has to be asked or evaluated for them.
#![tactic(auto)]

mod calculation;
mod computing;
mod instructions;
mod lists;
mod making;
mod script;
mod stack;
mod steps;
mod texts;
mod ways;
mod wholes;
mod word_lists;

pub use crate::calculation::Calculation;
pub use crate::computing::{Computed, compute_on};
pub use crate::instructions::{Condition, Formula};
pub use crate::lists::{Listing, with_elements, with_lists};
pub use crate::making::{Making, first_or_empty};
pub use crate::script::{Begun, Body, Commands, KEPT, Script, WordSteps};
pub use crate::stack::Stack;
pub use crate::texts::{add_text, ends_word, has_room, make_texts, short_text};
pub use crate::ways::{Way, literal_word};
pub use crate::word_lists::WordList;
