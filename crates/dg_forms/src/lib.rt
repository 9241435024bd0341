//! What of the commands needs no machine: their names, their messages, the parts of their words and their values.
#![tactic(auto)]

mod arguments;
mod boards;
mod clause;
mod completing;
mod elements;
mod expect;
mod expression;
mod immediate;
mod increments;
mod lists;
mod matching;
mod messages;
mod names;
mod outputs;
mod procedures;
mod results;
mod sessions;
mod substitute;
mod switch;

pub use crate::arguments::{four, only, split, three, two};
pub use crate::boards::{
    any_pattern, board_file, content_of, flag_call, is_flagged, library_file, no_library,
    tool_library, tool_of, triplet_of,
};
pub use crate::clause::clauses_of;
pub use crate::elements::Elements;
pub use crate::expect::{
    action_at, end_action, expect_words, limit_of, listed, regexes_in, timeout_action,
};
pub use crate::expression::{
    code_of, in_decimal, syntax_error, truth_in, value_behind, value_between, with_spaces,
};
pub use crate::immediate::run_immediate;
pub use crate::increments::{addend, increased};
pub use crate::lists::{concatenated, elements_held, elements_in, text_of};
pub use crate::matching::{parts_of, regexp_words};
pub use crate::messages::{
    about_quoted, cannot_read, cannot_unset, expected_integer, invalid_command, no_such_script,
    outside_of_a_loop, wrong_count,
};
pub use crate::names::find_builtin;
pub use crate::outputs::{write_groups, write_out};
pub use crate::procedures::{bindings, is_too_long};
pub use crate::sessions::{
    cannot_execute, id_words, kept_limit, match_words, not_open, send_words, spawn_words,
    wait_value,
};
pub use crate::substitute::{operand_of, substitutions_of};
pub use crate::switch::switched;
