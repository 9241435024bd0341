//! The messages of errors.
ghost use Rattle.std.specs.Prelude.{◌≡◌, ◌++◌, codes, decimal, IfOk};
ghost use Rattle.dg_language.specs.Evaluation.{quoted, wrong_count, outside_of_a_loop};
ghost use Rattle.dg_language.specs.Variables.{cannot_read, cannot_unset, expected_integer};

use dg_bytes::Bytes;
use dg_expr::decimal;
use std::alloc::{AllocError, Global};

/// Three texts, one after another.
#[tactic(auto, using(std::proofs::Common::append_assoc))]
pub(crate) fn joined(
    alloc: Global,
    first: &[u8],
    second: &[u8],
    third: &[u8],
) -> Result<Bytes, AllocError>
    ensures { IfOk result (λ b. b ≡ first.now ++ (second.now ++ third.now)) }
{
    let mut text = Bytes::from_slice(alloc, first)?;
    text.extend(second)?;
    text.extend(third)?;
    Ok(text)
}

/// A number in decimal, behind a text.
pub(crate) fn with_number(alloc: Global, text: &[u8], number: u32) -> Result<Bytes, AllocError>
    ensures { IfOk result (λ b. b ≡ text.now ++ decimal number) }
{
    let mut whole = Bytes::from_slice(alloc, text)?;
    whole.extend(decimal(alloc, i64::from(number))?.as_slice())?;
    Ok(whole)
}

/// A name between quotes, behind a text.
#[tactic(auto, using(std::proofs::Common::append_assoc))]
pub(crate) fn with_quoted(alloc: Global, text: &[u8], name: &[u8]) -> Result<Bytes, AllocError>
    ensures { IfOk result (λ b. b ≡ text.now ++ quoted name.now) }
{
    let mut message = joined(alloc, text, b"\"", name)?;
    message.extend(b"\"")?;
    Ok(message)
}

/// A name between quotes, behind a text and before another.
#[tactic(auto, using(std::proofs::Common::append_assoc))]
pub fn about_quoted(
    alloc: Global,
    before: &[u8],
    name: &[u8],
    behind: &[u8],
) -> Result<Bytes, AllocError>
    ensures { IfOk result (λ b. b ≡ before.now ++ (quoted name.now ++ behind.now)) }
{
    let mut message = with_quoted(alloc, before, name)?;
    message.extend(behind)?;
    Ok(message)
}

/// The message of a name that no command has.
pub fn invalid_command(alloc: Global, name: &[u8]) -> Result<Bytes, AllocError>
    ensures { IfOk result (λ b. b ≡ codes "invalid command name " ++ quoted name.now) }
{
    with_quoted(alloc, b"invalid command name ", name)
}

/// The message of a script that is not there.
pub fn no_such_script(alloc: Global, name: &[u8]) -> Result<Bytes, AllocError>
    ensures { IfOk result (λ b. b ≡ codes "couldn't read script " ++ quoted name.now) }
{
    with_quoted(alloc, b"couldn't read script ", name)
}

/// The message of a variable that is not set.
pub fn cannot_read(alloc: Global, name: &[u8]) -> Result<Bytes, AllocError>
    ensures { IfOk result (λ b. b ≡ cannot_read name.now) }
{
    about_quoted(alloc, b"can't read ", name, b": no such variable")
}

/// The message of a variable that can't be unset.
pub fn cannot_unset(alloc: Global, name: &[u8]) -> Result<Bytes, AllocError>
    ensures { IfOk result (λ b. b ≡ cannot_unset name.now) }
{
    about_quoted(alloc, b"can't unset ", name, b": no such variable")
}

/// The message of a text that is no whole number.
pub fn expected_integer(alloc: Global, text: &[u8]) -> Result<Bytes, AllocError>
    ensures { IfOk result (λ b. b ≡ expected_integer text.now) }
{
    with_quoted(alloc, b"expected integer but got ", text)
}

/// The message of a wrong count of arguments.
pub fn wrong_count(alloc: Global, name: &[u8]) -> Result<Bytes, AllocError>
    ensures { IfOk result (λ b. b ≡ wrong_count name.now) }
{
    let mut message = Bytes::from_slice(alloc, b"wrong # args: ")?;
    message.extend(name)?;
    Ok(message)
}

/// The message of a `break` or `continue` that leaves a procedure or a file.
pub fn outside_of_a_loop(alloc: Global, name: &[u8]) -> Result<Bytes, AllocError>
    ensures { IfOk result (λ b. b ≡ outside_of_a_loop name.now) }
{
    about_quoted(alloc, b"invoked ", name, b" outside of a loop")
}
