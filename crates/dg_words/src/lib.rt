//! The words of a script, and the lists and byte texts that they are made of.
#![tactic(auto)]

mod draft;
mod grammar;
mod kinds;
mod run;
mod scan;
mod transition;
mod word;

pub use crate::grammar::{
    command_fault_has_its_place, open_command_misses_its_inmost_end, open_ends_are_one,
    open_operand_misses_its_inmost_end, open_words_miss_their_inmost_end,
    operand_fault_has_its_place, read_command_is_spelled, read_operand_is_spelled,
    read_words_are_spelled, spelled_command_is_read, spelled_operand_is_read,
    spelled_words_are_read, what_is_wrong_in_a_command_is_told,
    what_is_wrong_in_an_operand_is_told, what_is_wrong_in_words_is_told, words_fault_has_its_place,
};
pub use crate::scan::{first_command, first_fault, parse_command, parse_operand, parse_words};
pub use crate::word::{Parsed, Part, Parts, Word};
pub use dg_bytes::{Bytes, Seq, TryCopy};
pub use dg_lists::{WordFault, list_text, split_list};
