//! The grammar of scripts as relations, by Tcl(n): what is spelled so is read, and what is read is
//! spelled so.

mod operands;
mod words;

pub use crate::grammar::operands::{
    open_operand_misses_its_inmost_end, operand_fault_has_its_place, read_operand_is_spelled,
    spelled_operand_is_read, what_is_wrong_in_an_operand_is_told,
};
pub use crate::grammar::words::{
    command_fault_has_its_place, open_command_misses_its_inmost_end, open_ends_are_one,
    open_words_miss_their_inmost_end, read_command_is_spelled, read_words_are_spelled,
    spelled_command_is_read, spelled_words_are_read, what_is_wrong_in_a_command_is_told,
    what_is_wrong_in_words_is_told, words_fault_has_its_place,
};
