//! Words that are whole numbers.
ghost use Rattle.dg_cmds.specs.Answers.{Gives};
ghost use Rattle.dg_cmds.specs.Numbers.{at_least_zero, read_number};
ghost use Rattle.std.specs.Prelude.{◌≡◌};

use crate::answer::fail_about;
use crate::fault::CmdFault;
use dg_bytes::Bytes;
use dg_expr::number;
use std::alloc::Global;

/// The number that a word is, or the script error of a word that is none.
pub(crate) fn read_number(alloc: Global, word: &Bytes) -> Result<i64, CmdFault>
    ensures { Gives result (read_number word.now) }
{
    match number(word.as_slice()) {
        Some(value) => Ok(value),
        None => fail_about(alloc, b"expected integer but got ", word.as_slice()),
    }
}

/// A number, or zero in place of one below it.
pub(crate) fn at_least_zero(number: i64) -> usize
    ensures { result ≡ at_least_zero number }
{
    if number < 0 { 0 } else { number as usize }
}
