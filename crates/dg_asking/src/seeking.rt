//! The session that a command goes on with, by expect(1): that of `-i`, or else the one that `spawn_id` names.
ghost use Rattle.std.specs.Prelude.{◌≡◌, IfOk, None, is_some};
ghost use Rattle.dg_sessions.specs.Views.{session_at};
ghost use Rattle.dg_language.specs.Sessions.{if_fit, sought};
ghost use Rattle.dg_asking.specs.Seeking.{fit_of, FindsFit, Seeks};

use crate::attempt::{Attempt, AttemptEnd, before_use};
use dg_bytes::Bytes;
use dg_forms::{cannot_read, not_open};
use dg_language::State;
use dg_sessions::Phase;
use std::alloc::{AllocError, Global};

/// The condition of a call on its session.
#[derive(Clone, Copy, Debug, PartialEq, Eq)]
pub enum Fit {
    /// Neither closed nor ended.
    Open,
    /// Started.
    Started,
    /// Started, and not waited for.
    Waitable,
}

/// Whether a session in this phase is fit for a call.
fn is_fit(fit: Fit, phase: Phase) -> bool
    ensures { result ≡ fit_of fit phase }
{
    match fit {
        Fit::Open => phase.is_open(),
        Fit::Started => phase.has_started(),
        Fit::Waitable => phase.can_wait(),
    }
}

/// Whether there is a session of this number that is fit for a call.
pub fn has_session(state: &State, fit: Fit, number: u32) -> bool
    ensures { result ≡ is_some (if_fit (fit_of fit) number (session_at number state.now.sessions)) }
{
    match state.session(number) {
        Some(session) => is_fit(fit, session.phase()),
        None => false,
    }
}

/// The name by which a variable is read that is sought locally, then globally.
pub fn sought(alloc: Global, state: &State, name: &[u8]) -> Result<Bytes, AllocError>
    ensures { IfOk result (λ n. n ≡ sought name.now state.now) }
{
    if state.is_set(name) {
        return Bytes::from_slice(alloc, name);
    }
    let mut global = Bytes::from_slice(alloc, b"::")?;
    global.extend(name)?;
    Ok(global)
}

/// The session of this name, if it is fit for a call; or the error that it isn't.
fn session_named(
    alloc: Global,
    state: &State,
    fit: Fit,
    id: &[u8],
) -> Result<Result<u32, Attempt>, AllocError>
    ensures { IfOk result (FindsFit fit id.now state.now) }
{
    if let Some(number) = state.sessions().find(id) {
        if has_session(state, fit, number) {
            return Ok(Ok(number));
        }
    }
    let message = not_open(alloc, id)?;
    Ok(Err(Attempt::Ends(AttemptEnd::Fails(message))))
}

/// The session that `spawn_id` names, if it is fit for a call.
fn session_of_spawn_id(
    alloc: Global,
    state: &mut State,
    fit: Fit,
) -> Result<Result<u32, Attempt>, AllocError>
    ensures { IfOk result (Seeks fit None state.old state.new) }
{
    let name = sought(alloc, state, b"spawn_id")?;
    if let Some(attempt) = before_use(alloc, state, name.as_slice())? {
        return Ok(Err(attempt));
    }
    let Some(id) = state.value_of(name.as_slice()) else {
        let message = cannot_read(alloc, b"spawn_id")?;
        return Ok(Err(Attempt::Ends(AttemptEnd::Fails(message))));
    };
    session_named(alloc, state, fit, id.as_slice())
}

/// The session that a command goes on with, if there is one that is fit for it, or what comes of the command instead.
pub fn seek_session(
    alloc: Global,
    state: &mut State,
    fit: Fit,
    id: Option<Bytes>,
) -> Result<Result<u32, Attempt>, AllocError>
    ensures { IfOk result (Seeks fit id state.old state.new) }
{
    match id {
        Some(id) => session_named(alloc, state, fit, id.as_slice()),
        None => session_of_spawn_id(alloc, state, fit),
    }
}
