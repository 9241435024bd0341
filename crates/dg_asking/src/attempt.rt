//! Attempts: the outcome of a command that evaluates nothing inside, by the answers that are known.
ghost use Rattle.std.specs.Prelude.{◌≡◌, IfOk, IfSome};
ghost use Rattle.dg_language.specs.Evaluation.{fail, wrong_count};
ghost use Rattle.dg_language.specs.State.{State};
ghost use Rattle.dg_language.specs.Variables.{store};
ghost use Rattle.dg_asking.specs.Attempts.{Attempts, EndsAs, Precedes, touched};

use dg_bytes::{Bytes, TryCopy};
use dg_forms::wrong_count;
use dg_language::{State, Touch};
use dg_scope::LONGEST_VALUE;
use dg_world::Question;
use std::alloc::{AllocError, Global};

/// How a command ends that evaluates nothing inside.
#[derive(Drop)]
pub enum AttemptEnd {
    /// It ends well, with this value.
    Value(Bytes),
    /// It fails with this message.
    Fails(Bytes),
    /// It makes a value that is longer than one may be, which ends the whole test.
    TooLong,
}

/// The outcome of a command that evaluates nothing inside, by the answers that are known.
#[derive(Drop)]
pub enum Attempt {
    /// It ends so.
    Ends(AttemptEnd),
    /// It needs the answer to this question first.
    Asks(Question),
}

/// A command has the wrong count of arguments.
pub(crate) fn miscounted(alloc: Global, name: &[u8]) -> Result<Attempt, AllocError>
    ensures { IfOk result (λ a. (s : State) → Attempts (fail (wrong_count name.now)) s s a) }
{
    let message = wrong_count(alloc, name)?;
    Ok(Attempt::Ends(AttemptEnd::Fails(message)))
}

/// A variable gets a value, which is the command's too.
#[tactic(auto, unfolding(dg_language::specs::Variables::store))]
pub(crate) fn store(
    alloc: Global,
    state: &mut State,
    name: &[u8],
    value: Bytes,
) -> Result<AttemptEnd, AllocError>
    ensures { IfOk result (EndsAs (store name.now value) state.old state.new) }
{
    if value.len() > LONGEST_VALUE {
        return Ok(AttemptEnd::TooLong);
    }
    state.assign(alloc, name, value.copy(alloc)?)?;
    Ok(AttemptEnd::Value(value))
}

/// A variable is about to be used. None, if it can be, and has begun by now.
pub(crate) fn before_use(
    alloc: Global,
    state: &mut State,
    name: &[u8],
) -> Result<Option<Attempt>, AllocError>
    ensures precedes { IfOk result (Precedes (touched name.now) state.old state.new) }
    ensures same { IfOk result (λ attempt. IfSome attempt (λ _. state.new ≡ state.old)) }
{
    match state.touch(alloc, name)? {
        Touch::Ready => Ok(None),
        Touch::Asking(question) => Ok(Some(Attempt::Asks(question))),
        Touch::TooLong => Ok(Some(Attempt::Ends(AttemptEnd::TooLong))),
    }
}
