//! The commands on the triplets of the machines, and on the flags that these decide, by the DejaGnu manual.
ghost use Rattle.std.specs.Prelude.{◌≡◌, IfOk};
ghost use Rattle.std.specs.Option.{option_copied};
ghost use Rattle.dg_language.specs.Play.{lookup};
ghost use Rattle.dg_language.specs.Boards.{do_flag, do_is, do_is_native, do_target};
ghost use Rattle.dg_asking.specs.Attempts.{Attempts};

use crate::attempt::{Attempt, AttemptEnd, miscounted};
use dg_bytes::Bytes;
use dg_cmds::glob_matches;
use dg_expr::truth_text;
use dg_forms::{any_pattern, flag_call, is_flagged, only, triplet_of};
use dg_language::{FlagCommand, State, TargetCommand};
use dg_world::{Answer, Question, System};
use std::alloc::{AllocError, Global};

/// The answer to the question for a system's triplet, if it is known.
fn answer_about(state: &State, system: System) -> Option<&Answer>
    ensures { option_copied result ≡ lookup (Question.Triplet system) state.now.known }
{
    state.answer_to(&Question::Triplet(system))
}

/// `istarget pattern`, `ishost pattern`, `isbuild pattern`.
#[tactic(auto, unfolding(dg_language::specs::Boards::do_is))]
fn is_system(
    alloc: Global,
    state: &State,
    system: System,
    name: &[u8],
    args: &[Bytes],
) -> Result<Attempt, AllocError>
    ensures { IfOk result (Attempts (do_is system name.now args.now) state.now state.now) }
{
    let Some(pattern) = only(args) else {
        return miscounted(alloc, name);
    };
    let Some(answer) = answer_about(state, system) else {
        return Ok(Attempt::Asks(Question::Triplet(system)));
    };
    let holds = glob_matches(pattern.as_slice(), triplet_of(answer));
    let value = Bytes::from_slice(alloc, truth_text(holds))?;
    Ok(Attempt::Ends(AttemptEnd::Value(value)))
}

/// `isnative`.
#[tactic(auto, unfolding(dg_language::specs::Boards::do_is_native))]
fn is_native(alloc: Global, state: &State, args: &[Bytes]) -> Result<Attempt, AllocError>
    ensures { IfOk result (Attempts (do_is_native args.now) state.now state.now) }
{
    if !args.is_empty() {
        return miscounted(alloc, b"isnative");
    }
    let Some(build) = answer_about(state, System::Build) else {
        return Ok(Attempt::Asks(Question::Triplet(System::Build)));
    };
    let Some(target) = answer_about(state, System::Target) else {
        return Ok(Attempt::Asks(Question::Triplet(System::Target)));
    };
    let holds = triplet_of(build) == triplet_of(target);
    let value = Bytes::from_slice(alloc, truth_text(holds))?;
    Ok(Attempt::Ends(AttemptEnd::Value(value)))
}

/// Attempts a command on the triplets of the machines.
pub fn run_target(
    alloc: Global,
    state: &State,
    which: TargetCommand,
    args: &[Bytes],
) -> Result<Attempt, AllocError>
    ensures { IfOk result (Attempts (do_target which args.now) state.now state.now) }
{
    match which {
        TargetCommand::IsTarget => is_system(alloc, state, System::Target, b"istarget", args),
        TargetCommand::IsHost => is_system(alloc, state, System::Host, b"ishost", args),
        TargetCommand::IsBuild => is_system(alloc, state, System::Build, b"isbuild", args),
        TargetCommand::IsNative => is_native(alloc, state, args),
    }
}

/// Attempts `setup_xfail`, `setup_kfail`, `clear_xfail` or `clear_kfail`.
pub fn run_flag(
    alloc: Global,
    state: &mut State,
    which: FlagCommand,
    args: &[Bytes],
) -> Result<Attempt, AllocError>
    ensures { IfOk result (Attempts (do_flag which args.now) state.old state.new) }
{
    if !any_pattern(args) {
        return Ok(Attempt::Ends(AttemptEnd::Value(Bytes::new(alloc))));
    }
    let Some(answer) = answer_about(state, System::Target) else {
        return Ok(Attempt::Asks(Question::Triplet(System::Target)));
    };
    if !is_flagged(triplet_of(answer), args) {
        return Ok(Attempt::Ends(AttemptEnd::Value(Bytes::new(alloc))));
    }
    state.add_call(flag_call(which))?;
    Ok(Attempt::Ends(AttemptEnd::Value(Bytes::new(alloc))))
}
