//! Lists and their canonical text; classes of bytes and escapes, for lists and scripts alike.
#![tactic(auto)]

mod fault;
mod grammar;
mod kinds;
mod list;
mod measure;
mod run;
mod transition;

pub use crate::fault::{ListFault, WordFault, fault_text};
pub use crate::grammar::{
    list_fault_has_its_place, read_list_is_spelled, spelled_list_is_read,
    what_is_wrong_in_a_list_is_told,
};
pub use crate::kinds::{
    Class, Context, Delimiter, Digits, Effect, Ending, Escape, Mode, Target, Transition,
};
pub use crate::list::{append_elements, kept_elements, list_elements, list_text, split_list};
pub use crate::measure::list_fits;
pub use crate::run::{BracedRun, braced_run};
pub use crate::transition::{class_of, counted, escaped, in_braces, is_space, push_code};
