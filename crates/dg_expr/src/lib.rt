//! Expressions: numbers, truth, operators and trees.
#![tactic(auto)]

mod arithmetic;
mod boolean;
mod code;
mod fault;
mod frame;
mod law;
mod lexer;
mod operator;
mod reading;
mod token;
mod tree;
mod value;
mod whole;

pub use crate::arithmetic::apply_whole;
pub use crate::boolean::{truth, truth_text};
pub use crate::code::{Instruction, code_runs, compile};
pub use crate::fault::{ExprFault, Side};
pub use crate::law::{
    code_does_as_its_tree, no_operator_wants_memory, one_branch_is_chosen,
    sides_are_taken_as_needed, values_are_applied,
};
pub use crate::operator::{Infix, Prefix};
pub use crate::reading::{one_tree, read_expr};
pub use crate::tree::{Node, Tree};
pub use crate::value::{apply, apply_one, decimal};
pub use crate::whole::number;
