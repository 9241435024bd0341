//! The commands that evaluate nothing inside and ask nothing.
ghost use Rattle.std.specs.Prelude.{◌≡◌, IfOk};
ghost use Rattle.dg_language.specs.Control.{do_leave, do_return, do_error};
ghost use Rattle.dg_language.specs.Expecting.{do_exp_continue};
ghost use Rattle.dg_language.specs.Immediate.{immediate};

use crate::boards::{
    board_info, load_generic_config, set_board_info, target_info, unset_board_info,
};
use crate::completing::{completes, gives, miscounted};
use crate::names::Row;
use crate::procedures::procedure;
use crate::results::result;
use dg_bytes::{Bytes, TryCopy};
use dg_language::Builtin::Immediate;
use dg_language::ImmediateCommand::{
    BoardInfo, Break, Continue, Error, ExpContinue, LoadGenericConfig, Proc, Result as Recorded,
    Return, SetBoardInfo, Silent, TargetInfo, UnsetBoardInfo,
};
use dg_language::ResultCommand::{
    Fail, Note, Pass, Perror, Unresolved, Unsupported, Untested, Warning,
};
use dg_language::{Code, Completion, ImmediateCommand, State};
use std::alloc::{AllocError, Global};

/// The commands that evaluate nothing inside and ask nothing.
pub(crate) const IMMEDIATE_COMMANDS: [Row; 22] = [
    (b"pass", Immediate(Recorded(Pass)), true),
    (b"fail", Immediate(Recorded(Fail)), true),
    (b"unresolved", Immediate(Recorded(Unresolved)), true),
    (b"untested", Immediate(Recorded(Untested)), true),
    (b"unsupported", Immediate(Recorded(Unsupported)), true),
    (b"note", Immediate(Recorded(Note)), true),
    (b"perror", Immediate(Recorded(Perror)), true),
    (b"warning", Immediate(Recorded(Warning)), true),
    (b"verbose", Immediate(Silent), false),
    (b"send_user", Immediate(Silent), false),
    (b"send_log", Immediate(Silent), false),
    (b"proc", Immediate(Proc), false),
    (b"break", Immediate(Break), false),
    (b"continue", Immediate(Continue), false),
    (b"return", Immediate(Return), false),
    (b"error", Immediate(Error), false),
    (b"exp_continue", Immediate(ExpContinue), true),
    (b"set_board_info", Immediate(SetBoardInfo), false),
    (b"unset_board_info", Immediate(UnsetBoardInfo), false),
    (b"load_generic_config", Immediate(LoadGenericConfig), false),
    (b"target_info", Immediate(TargetInfo), false),
    (b"board_info", Immediate(BoardInfo), false),
];

/// Runs a command with these arguments: gives its completion, or the message of an error.
pub fn run_immediate(
    alloc: Global,
    state: &State,
    which: ImmediateCommand,
    args: &[Bytes],
) -> Result<Result<Completion, Bytes>, AllocError>
    ensures { IfOk result (λ r. r ≡ immediate which args.now state.now) }
{
    match which {
        Recorded(which) => result(alloc, which, args),
        Silent => Ok(gives(Bytes::new(alloc))),
        Proc => procedure(alloc, args),
        Break => leave(alloc, Code::Broken, b"break", args),
        Continue => leave(alloc, Code::Continued, b"continue", args),
        Return => give_back(alloc, args),
        Error => error(alloc, args),
        ExpContinue => exp_continue(alloc, state, args),
        SetBoardInfo => set_board_info(alloc, args),
        UnsetBoardInfo => unset_board_info(alloc, args),
        LoadGenericConfig => load_generic_config(alloc, args),
        TargetInfo => target_info(alloc, state, args),
        BoardInfo => board_info(alloc, state, args),
    }
}

/// `break` and `continue`.
#[tactic(auto, unfolding(dg_language::specs::Control::do_leave))]
fn leave(
    alloc: Global,
    code: Code,
    name: &[u8],
    args: &[Bytes],
) -> Result<Result<Completion, Bytes>, AllocError>
    ensures { IfOk result (λ r. r ≡ do_leave code name.now args.now) }
{
    match args {
        [] => Ok(completes(code, Bytes::new(alloc))),
        [_, ..] => miscounted(alloc, name),
    }
}

/// `return` and `return value`.
#[tactic(auto, unfolding(dg_language::specs::Control::do_return))]
fn give_back(alloc: Global, args: &[Bytes]) -> Result<Result<Completion, Bytes>, AllocError>
    ensures { IfOk result (λ r. r ≡ do_return args.now) }
{
    match args {
        [] => Ok(completes(Code::Returned, Bytes::new(alloc))),
        [value] => Ok(completes(Code::Returned, value.copy(alloc)?)),
        _ => miscounted(alloc, b"return"),
    }
}

/// `error message`, and perhaps an information and a code.
#[tactic(auto, unfolding(dg_language::specs::Control::do_error))]
fn error(alloc: Global, args: &[Bytes]) -> Result<Result<Completion, Bytes>, AllocError>
    ensures { IfOk result (λ r. r ≡ do_error args.now) }
{
    match args {
        [message] | [message, _] | [message, _, _] => Ok(Err(message.copy(alloc)?)),
        _ => miscounted(alloc, b"error"),
    }
}

/// `exp_continue`.
#[tactic(auto, unfolding(dg_language::specs::Expecting::do_exp_continue))]
fn exp_continue(
    alloc: Global,
    state: &State,
    args: &[Bytes],
) -> Result<Result<Completion, Bytes>, AllocError>
    ensures { IfOk result (λ r. r ≡ do_exp_continue args.now state.now) }
{
    match args {
        [] if state.is_in_action() => Ok(completes(Code::ExpContinued, Bytes::new(alloc))),
        [] => Ok(Err(Bytes::from_slice(alloc, b"exp_continue outside of expect")?)),
        [_, ..] => miscounted(alloc, b"exp_continue"),
    }
}
