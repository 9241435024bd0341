//! Values within the limit, and script errors.
ghost use Rattle.std.specs.Prelude.{◌≡◌, ◌++◌, Err, IfOk, Ok};
ghost use Rattle.std.specs.Fmt.{decimal};
ghost use Rattle.dg_cmds.specs.Answers.{Adds, Gives, Makes, failed, limited, place_text, quoted, wrong_count};
ghost use Rattle.dg_expr.specs.Truth.{truth_text};
ghost use Rattle.dg_cmds.specs.declared.fault.CmdFault.TheVariants.{Tcl};

use crate::bytes::{three_texts, two_texts};
use crate::fault::CmdFault;
use dg_bytes::Bytes;
use dg_expr::truth_text;
use std::alloc::{AllocError, Global};

/// The most bytes of a value.
pub(crate) const LONGEST: usize = 1_048_576;

/// A copy of bytes, if a value may have so many.
#[tactic(auto, unfolding(crate::specs::Answers::limited))]
pub(crate) fn give(alloc: Global, bytes: &[u8]) -> Result<Bytes, CmdFault>
    ensures { Gives result (limited bytes.now) }
{
    if bytes.len() > LONGEST {
        return Err(CmdFault::TooLong);
    }
    Ok(Bytes::from_slice(alloc, bytes)?)
}

/// A value that is made already, if it may have so many bytes.
#[tactic(auto, unfolding(crate::specs::Answers::limited))]
pub(crate) fn within(value: Bytes) -> Result<Bytes, CmdFault>
    ensures { Gives result (limited value) }
{
    if value.len() > LONGEST {
        return Err(CmdFault::TooLong);
    }
    Ok(value)
}

/// A script error.
pub(crate) fn fail<T>(alloc: Global, message: &[u8]) -> Result<T, CmdFault>
    ensures { Gives result (Err (Tcl message.now)) }
{
    Err(CmdFault::Tcl(Bytes::from_slice(alloc, message)?))
}

/// A message, and a word in quotes behind it.
fn message_about(alloc: Global, message: &[u8], word: &[u8]) -> Result<Bytes, AllocError>
    ensures { IfOk result (λ b. b ≡ message.now ++ quoted word.now) }
{
    let named = three_texts(alloc, b"\"", word, b"\"")?;
    two_texts(alloc, message, named.as_slice())
}

/// A script error that names a word.
#[tactic(auto, unfolding(crate::specs::Answers::failed))]
pub(crate) fn fail_about<T>(alloc: Global, message: &[u8], word: &[u8]) -> Result<T, CmdFault>
    ensures { Gives result (failed (message.now ++ quoted word.now)) }
{
    if word.len() >= LONGEST || message.len() + 2 > LONGEST - word.len() {
        return Err(CmdFault::TooLong);
    }
    Err(CmdFault::Tcl(message_about(alloc, message, word)?))
}

/// The script error of a command that has too few arguments, or too many.
pub(crate) fn wrong_count<T>(alloc: Global, name: &[u8]) -> Result<T, CmdFault>
    ensures { Gives result (wrong_count name.now) }
{
    let message = two_texts(alloc, b"wrong # args: ", name)?;
    Err(CmdFault::Tcl(message))
}

/// A number of bytes or elements.
pub(crate) fn give_count(alloc: Global, count: usize) -> Result<Bytes, CmdFault>
    ensures { Gives result (Ok (decimal count)) }
{
    let text = format!(in alloc; "{count}")?;
    Ok(Bytes::from_slice(alloc, text.as_bytes())?)
}

/// A place, or -1 for none.
pub(crate) fn give_place(alloc: Global, place: Option<usize>) -> Result<Bytes, CmdFault>
    ensures { Gives result (Ok (place_text place)) }
{
    match place {
        None => Ok(Bytes::from_slice(alloc, b"-1")?),
        Some(count) => give_count(alloc, count),
    }
}

/// 1 or 0.
pub(crate) fn give_truth(alloc: Global, truth: bool) -> Result<Bytes, CmdFault>
    ensures { Gives result (Ok (truth_text truth)) }
{
    Ok(Bytes::from_slice(alloc, truth_text(truth))?)
}

/// Adds bytes at the end of a value, if it may have so many.
#[tactic(auto, unfolding(crate::specs::Answers::limited))]
pub(crate) fn add(text: &mut Bytes, bytes: &[u8]) -> Result<(), CmdFault>
    ensures adds { Adds result text.old text.new bytes.now }
    ensures makes { Makes result text.new (limited (text.old ++ bytes.now)) }
{
    if text.len() > LONGEST || bytes.len() > LONGEST - text.len() {
        return Err(CmdFault::TooLong);
    }
    text.extend(bytes)?;
    Ok(())
}
