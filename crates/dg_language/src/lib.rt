//! The meaning of the script language, and the state of an evaluation.
#![tactic(auto)]

mod actions;
mod ask;
mod calls;
mod clause;
mod close;
mod code;
mod command;
mod completion;
mod expect;
mod law;
mod procedure;
mod queue;
mod reads;
mod row;
mod search;
mod state;
mod substitution;
mod switch;

pub use crate::ask::Ask;
pub use crate::calls::Calls;
pub use crate::clause::{Clause, Clauses};
pub use crate::close::Close;
pub use crate::code::Code;
pub use crate::command::{
    Builtin, ChoiceCommand, Command, ControlCommand, FlagCommand, ImmediateCommand, ResultCommand,
    SessionCommand, TargetCommand, VariableCommand,
};
pub use crate::completion::{Change, Completion};
pub use crate::expect::{Awaited, Expectation, Pair, PatternKind};
pub use crate::law::more_answers_keep_the_end;
pub use crate::procedure::{Binding, Parameter, Procedure};
pub use crate::queue::Queue;
pub use crate::search::Search;
pub use crate::state::{STEPS, State, Touch};
pub use crate::substitution::{Purpose, Substitution};
pub use crate::switch::Matching;
