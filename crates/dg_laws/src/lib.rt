//! The laws of the script language: what a text does, it does whatever comes after it; and what it does with sessions is the
//! replay of their records.
#![tactic(auto)]

mod law;
mod replays;

pub use crate::law::{
    each_text_comes_to_a_conclusion, each_text_is_grafted, nested_form_is_one, no_peek_is_grafted,
    read_words_are_nested, the_judging_is_grafted,
};
pub use crate::replays::{
    actions_are_replayed, chunks_come_into_the_buffer, expect_takes_the_first_hit,
};
