//! The commands by their names.
ghost use Rattle.dg_cmds.specs.Answers.{GivesIfNamed};
ghost use Rattle.dg_cmds.specs.Commands.{pure_of};

use crate::fault::CmdFault;
use crate::format::run_format;
use crate::lists::run_list;
use crate::strings::run_string;
use dg_bytes::Bytes;
use std::alloc::Global;

/// What a string, list or format command gives for the words behind its name: `string`, `list`,
/// `llength`, `lindex`, `lrange`, `concat`, `join`, `split`, `lsearch` and `format`, by Tcl(n), without
/// their flags but for those of `lsearch`, `-exact` and `-glob`. None where no command of these has the
/// name.
///
/// # Errors
/// `Tcl` with the message of a script error; `TooLong` for a value of more than 1,048,576 bytes; `Memory`
/// where a growth is refused.
#[tactic(auto, unfolding(crate::specs::Commands::pure_of))]
pub fn run_pure(alloc: Global, name: &[u8], words: &[Bytes]) -> Option<Result<Bytes, CmdFault>>
    ensures { GivesIfNamed result (pure_of name.now words.now) }
{
    if name == b"string".as_slice() {
        Some(run_string(alloc, words))
    } else if name == b"format".as_slice() {
        Some(run_format(alloc, words))
    } else {
        run_list(alloc, name, words)
    }
}
