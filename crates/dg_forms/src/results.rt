//! The commands that record results and messages.
ghost use Rattle.std.specs.Prelude.{◌≡◌, IfOk};
ghost use Rattle.dg_expr.specs.Number.{number_of};
ghost use Rattle.dg_language.specs.Results.{name_of, takes_count, call_of, count_of, recorded, do_result};

use crate::arguments::{only, split};
use crate::completing::{does, miscounted};
use dg_bytes::{Bytes, TryCopy};
use dg_expr::number;
use dg_language::{Change, Completion, ResultCommand};
use dg_results::ResultCall;
use std::alloc::{AllocError, Global};

/// The most that a count may be set to.
const MOST: u32 = 1_000;

/// The name of a result command.
fn name_of(which: ResultCommand) -> &'static [u8]
    ensures { result.now ≡ name_of which }
{
    match which {
        ResultCommand::Pass => b"pass",
        ResultCommand::Fail => b"fail",
        ResultCommand::Unresolved => b"unresolved",
        ResultCommand::Untested => b"untested",
        ResultCommand::Unsupported => b"unsupported",
        ResultCommand::Note => b"note",
        ResultCommand::Perror => b"perror",
        ResultCommand::Warning => b"warning",
    }
}

/// Whether a command may give a count, by the DejaGnu manual.
fn takes_count(which: ResultCommand) -> bool
    ensures { result ≡ takes_count which }
{
    match which {
        ResultCommand::Perror | ResultCommand::Warning => true,
        ResultCommand::Pass
        | ResultCommand::Fail
        | ResultCommand::Unresolved
        | ResultCommand::Untested
        | ResultCommand::Unsupported
        | ResultCommand::Note => false,
    }
}

/// The count that a text gives: a number from 0 to 1,000.
fn count_of(text: &[u8]) -> Option<u32>
    ensures { result ≡ count_of (number_of text.now) }
{
    let number = number(text)?;
    if number < 0 || number > i64::from(MOST) {
        return None;
    }
    Some(number as u32)
}

/// The call that a result command makes, with the count that it gives.
fn call_of(which: ResultCommand, message: Bytes, count: Option<u32>) -> ResultCall
    ensures { result ≡ call_of which message count }
{
    match which {
        ResultCommand::Pass => ResultCall::Pass(message),
        ResultCommand::Fail => ResultCall::Fail(message),
        ResultCommand::Unresolved => ResultCall::Unresolved(message),
        ResultCommand::Untested => ResultCall::Untested(message),
        ResultCommand::Unsupported => ResultCall::Unsupported(message),
        ResultCommand::Note => ResultCall::Note(message),
        ResultCommand::Perror => ResultCall::Perror(message, count),
        ResultCommand::Warning => ResultCall::Warning(message, count),
    }
}

/// A result call is made.
pub(crate) fn recorded(
    alloc: Global,
    which: ResultCommand,
    message: &Bytes,
    count: Option<u32>,
) -> Result<Result<Completion, Bytes>, AllocError>
    ensures { IfOk result (λ r. r ≡ recorded which message.now count) }
{
    let call = call_of(which, message.copy(alloc)?, count);
    Ok(does(alloc, Change::Calls(call)))
}

/// A result command, its message, and for some a count.
#[tactic(auto, unfolding(dg_language::specs::Results::do_result))]
pub(crate) fn result(
    alloc: Global,
    which: ResultCommand,
    args: &[Bytes],
) -> Result<Result<Completion, Bytes>, AllocError>
    ensures { IfOk result (λ r. r ≡ do_result which args.now) }
{
    let Some((message, others)) = split(args) else {
        return miscounted(alloc, name_of(which));
    };
    if others.is_empty() {
        return recorded(alloc, which, message, None);
    }
    let Some(text) = only(others) else {
        return miscounted(alloc, name_of(which));
    };
    if !takes_count(which) {
        return miscounted(alloc, name_of(which));
    }
    let Some(count) = count_of(text.as_slice()) else {
        return Ok(Err(Bytes::from_slice(alloc, b"bad count")?));
    };
    recorded(alloc, which, message, Some(count))
}
