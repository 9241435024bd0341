//! The sum of two texts that are whole numbers.
ghost use Rattle.std.specs.Prelude.{◌≡◌, Some, None, IfOk};
ghost use Rattle.std.specs.Option.{option_copied};
ghost use Rattle.dg_language.specs.Variables.{addend, increased};

use crate::messages::expected_integer;
use dg_bytes::Bytes;
use dg_expr::{decimal, number};
use std::alloc::{AllocError, Global};

/// The number that `incr` adds: 1 where none is given.
pub fn addend(args: &[Bytes]) -> Option<&[u8]>
    ensures { option_copied result ≡ addend args.now }
{
    match args {
        [] => Some(b"1"),
        [by] => Some(by.as_slice()),
        _ => None,
    }
}

/// The sum of two texts, by incr(n), or its message: the first that is no whole number of 64 bits is named, then comes a sum
/// that 64 bits don't hold.
#[tactic(auto, unfolding(dg_language::specs::Variables::increased))]
pub fn increased(alloc: Global, old: &[u8], by: &[u8]) -> Result<Result<Bytes, Bytes>, AllocError>
    ensures { IfOk result (λ r. r ≡ increased old.now by.now) }
{
    let Some(x) = number(old) else {
        return Ok(Err(expected_integer(alloc, old)?));
    };
    let Some(y) = number(by) else {
        return Ok(Err(expected_integer(alloc, by)?));
    };
    let Some(sum) = x.checked_add(y) else {
        return Ok(Err(Bytes::from_slice(alloc, b"integer value too large to represent")?));
    };
    Ok(Ok(decimal(alloc, sum)?))
}
