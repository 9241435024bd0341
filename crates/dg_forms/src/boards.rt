//! Boards, libraries and targets: what is told of them, the names of their files, and what answers say of them.
ghost use Rattle.std.specs.Prelude.{◌≡◌, ◌&&◌, IfOk};
ghost use Rattle.std.specs.List.{list_any};
ghost use Rattle.dg_cmds.specs.Places.{glob_matches};
ghost use Rattle.dg_language.specs.Boards.{content_of, do_board_info, do_load_generic_config, do_set_board_info, do_target_info, do_unset_board_info, flag_call, is_pattern, library_file, no_library, told_of, triplet_of};
ghost use Rattle.dg_language.specs.Judge.{board_file, tool_library, tool_of};

use crate::arguments::{only, split, two};
use crate::completing::{does, gives, miscounted};
use crate::messages::{joined, with_quoted};
use crate::switch::is;
use dg_bytes::{Bytes, TryCopy};
use dg_cmds::glob_matches;
use dg_expr::truth_text;
use dg_language::{Change, Completion, FlagCommand, State};
use dg_results::ResultCall;
use dg_world::Answer;
use std::alloc::{AllocError, Global};

/// The file of a library that `load_lib` names.
pub fn library_file(alloc: Global, library: &[u8]) -> Result<Bytes, AllocError>
    ensures { IfOk result (λ b. b ≡ library_file library.now) }
{
    let mut file = Bytes::from_slice(alloc, b"lib/")?;
    file.extend(library)?;
    Ok(file)
}

/// The file of the tool's library.
pub fn tool_library(alloc: Global, tool: &[u8]) -> Result<Bytes, AllocError>
    ensures { IfOk result (λ b. b ≡ tool_library tool.now) }
{
    joined(alloc, b"lib/", tool, b".exp")
}

/// The file of a board.
pub fn board_file(alloc: Global, board: &[u8]) -> Result<Bytes, AllocError>
    ensures { IfOk result (λ b. b ≡ board_file board.now) }
{
    joined(alloc, b"boards/", board, b".exp")
}

/// The message of a library that is not there.
pub fn no_library(alloc: Global, library: &[u8]) -> Result<Bytes, AllocError>
    ensures { IfOk result (λ b. b ≡ no_library library.now) }
{
    with_quoted(alloc, b"couldn't find library ", library)
}

/// The bytes of a file, if there is one.
pub fn content_of(alloc: Global, answer: &Answer) -> Result<Option<Bytes>, AllocError>
    ensures { IfOk result (λ t. t ≡ content_of answer.now) }
{
    match answer {
        Answer::Content(text) => Ok(Some(text.copy(alloc)?)),
        Answer::Absent
        | Answer::Tool(_)
        | Answer::Triplet(_)
        | Answer::Unset
        | Answer::Value(_)
        | Answer::Ended
        | Answer::Entry(_)
        | Answer::Reading(_) => Ok(None),
    }
}

/// The tool that an answer names.
pub fn tool_of(answer: &Answer) -> &[u8]
    ensures { result.now ≡ tool_of answer.now }
{
    match answer {
        Answer::Tool(tool) => tool.as_slice(),
        Answer::Absent
        | Answer::Content(_)
        | Answer::Triplet(_)
        | Answer::Unset
        | Answer::Value(_)
        | Answer::Ended
        | Answer::Entry(_)
        | Answer::Reading(_) => b"",
    }
}

/// The triplet that an answer has.
pub fn triplet_of(answer: &Answer) -> &[u8]
    ensures { result.now ≡ triplet_of answer.now }
{
    match answer {
        Answer::Triplet(triplet) => triplet.as_slice(),
        Answer::Absent
        | Answer::Content(_)
        | Answer::Tool(_)
        | Answer::Unset
        | Answer::Value(_)
        | Answer::Ended
        | Answer::Entry(_)
        | Answer::Reading(_) => b"",
    }
}

/// What is told of the key `name`, or of `exists` and a key: its setting, the empty text where it has none; or whether it has
/// one. None where the words ask for neither.
fn told_of(alloc: Global, state: &State, words: &[Bytes]) -> Result<Option<Bytes>, AllocError>
    ensures { IfOk result (λ t. t ≡ told_of words.now state.now) }
{
    match words {
        [key] => {
            let setting = state.setting(key).unwrap_or(b"".as_slice());
            Ok(Some(Bytes::from_slice(alloc, setting)?))
        }
        [word, key] if is(word, b"exists") => {
            let exists = state.setting(key).is_some();
            Ok(Some(Bytes::from_slice(alloc, truth_text(exists))?))
        }
        _ => Ok(None),
    }
}

/// `set_board_info key value`.
#[tactic(auto, unfolding(dg_language::specs::Boards::do_set_board_info))]
pub(crate) fn set_board_info(
    alloc: Global,
    args: &[Bytes],
) -> Result<Result<Completion, Bytes>, AllocError>
    ensures { IfOk result (λ r. r ≡ do_set_board_info args.now) }
{
    let Some((key, value)) = two(args) else {
        return miscounted(alloc, b"set_board_info");
    };
    let setting = Change::Sets(key.copy(alloc)?, value.copy(alloc)?);
    Ok(does(alloc, setting))
}

/// `unset_board_info key`.
#[tactic(auto, unfolding(dg_language::specs::Boards::do_unset_board_info))]
pub(crate) fn unset_board_info(
    alloc: Global,
    args: &[Bytes],
) -> Result<Result<Completion, Bytes>, AllocError>
    ensures { IfOk result (λ r. r ≡ do_unset_board_info args.now) }
{
    let Some(key) = only(args) else {
        return miscounted(alloc, b"unset_board_info");
    };
    Ok(does(alloc, Change::Unsets(key.copy(alloc)?)))
}

/// `load_generic_config name`.
#[tactic(auto, unfolding(dg_language::specs::Boards::do_load_generic_config))]
pub(crate) fn load_generic_config(
    alloc: Global,
    args: &[Bytes],
) -> Result<Result<Completion, Bytes>, AllocError>
    ensures { IfOk result (λ r. r ≡ do_load_generic_config args.now) }
{
    let Some(name) = only(args) else {
        return miscounted(alloc, b"load_generic_config");
    };
    let key = Bytes::from_slice(alloc, b"generic_name")?;
    Ok(does(alloc, Change::Sets(key, name.copy(alloc)?)))
}

/// `target_info key` and `target_info exists key`.
#[tactic(auto, unfolding(dg_language::specs::Boards::do_target_info))]
pub(crate) fn target_info(
    alloc: Global,
    state: &State,
    args: &[Bytes],
) -> Result<Result<Completion, Bytes>, AllocError>
    ensures { IfOk result (λ r. r ≡ do_target_info args.now state.now) }
{
    match told_of(alloc, state, args)? {
        Some(told) => Ok(gives(told)),
        None => miscounted(alloc, b"target_info"),
    }
}

/// `board_info target key` and `board_info target exists key`. There is no other machine.
#[tactic(auto, unfolding(dg_language::specs::Boards::do_board_info))]
pub(crate) fn board_info(
    alloc: Global,
    state: &State,
    args: &[Bytes],
) -> Result<Result<Completion, Bytes>, AllocError>
    ensures { IfOk result (λ r. r ≡ do_board_info args.now state.now) }
{
    let Some((machine, others)) = split(args) else {
        return miscounted(alloc, b"board_info");
    };
    let Some(told) = told_of(alloc, state, others)? else {
        return miscounted(alloc, b"board_info");
    };
    if is(machine, b"target") {
        Ok(gives(told))
    } else {
        Ok(Err(Bytes::from_slice(alloc, b"unknown machine")?))
    }
}

/// Whether an argument of `setup_xfail` and its kin is a pattern of triplets. Another names a bug, and has no effect.
fn is_pattern(arg: &Bytes) -> bool
    ensures { result ≡ is_pattern arg.now }
{
    arg.as_slice().iter().any(|byte| *byte == b'-')
}

/// Whether one of the arguments of `setup_xfail` and its kin is a pattern of triplets.
pub fn any_pattern(args: &[Bytes]) -> bool
    ensures { result ≡ list_any is_pattern args.now }
{
    args.iter().any(|arg| is_pattern(arg))
}

/// Whether one of the arguments of `setup_xfail` and its kin is a pattern that matches the target's triplet.
pub fn is_flagged(target: &[u8], args: &[Bytes]) -> bool
    ensures { result ≡ list_any (λ p. is_pattern p && glob_matches p target.now) args.now }
{
    args.iter().any(|arg| is_pattern(arg) && glob_matches(arg.as_slice(), target))
}

/// The call that a command on flags makes.
pub fn flag_call(which: FlagCommand) -> ResultCall
    ensures { result ≡ flag_call which }
{
    match which {
        FlagCommand::SetupXfail => ResultCall::SetupXfail,
        FlagCommand::SetupKfail => ResultCall::SetupKfail,
        FlagCommand::ClearXfail => ResultCall::ClearXfail,
        FlagCommand::ClearKfail => ResultCall::ClearKfail,
    }
}
