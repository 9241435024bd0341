//! `match_max`, by expect(1): how many bytes a session keeps.
ghost use Rattle.std.specs.Prelude.{◌≡◌, IfOk, decimal};
ghost use Rattle.dg_language.specs.Sessions.{do_match_max, later_limit, session_limit};
ghost use Rattle.dg_asking.specs.Attempts.{Attempts, EndsAs};

use crate::attempt::{Attempt, AttemptEnd};
use crate::seeking::{Fit, seek_session};
use dg_bytes::Bytes;
use dg_forms::{kept_limit, match_words};
use dg_language::State;
use std::alloc::{AllocError, Global};

/// A number in decimal.
fn decimal(alloc: Global, number: usize) -> Result<Bytes, AllocError>
    ensures { IfOk result (λ b. b ≡ decimal number) }
{
    Bytes::from_slice(alloc, number.to_string(alloc)?.as_bytes())
}

/// The limit of later sessions is read, or set.
#[tactic(auto, unfolding(dg_language::specs::Sessions::later_limit))]
fn later_limit(
    alloc: Global,
    state: &mut State,
    text: Option<Bytes>,
) -> Result<AttemptEnd, AllocError>
    ensures { IfOk result (EndsAs (later_limit text) state.old state.new) }
{
    let Some(text) = text else {
        let value = decimal(alloc, state.sessions().later_max())?;
        return Ok(AttemptEnd::Value(value));
    };
    let Some(max) = kept_limit(text.as_slice()) else {
        let message = Bytes::from_slice(alloc, b"bad match_max")?;
        return Ok(AttemptEnd::Fails(message));
    };
    state.set_later_limit(max);
    Ok(AttemptEnd::Value(Bytes::new(alloc)))
}

/// The limit of a session is read, or set.
#[tactic(auto, unfolding(dg_language::specs::Sessions::session_limit))]
fn session_limit(
    alloc: Global,
    state: &mut State,
    number: u32,
    text: Option<Bytes>,
) -> Result<AttemptEnd, AllocError>
    ensures { IfOk result (EndsAs (session_limit number text) state.old state.new) }
{
    let Some(text) = text else {
        let max = match state.session(number) {
            Some(session) => session.max(),
            None => 0,
        };
        let value = decimal(alloc, max)?;
        return Ok(AttemptEnd::Value(value));
    };
    let Some(max) = kept_limit(text.as_slice()) else {
        let message = Bytes::from_slice(alloc, b"bad match_max")?;
        return Ok(AttemptEnd::Fails(message));
    };
    if state.session(number).is_some() {
        state.set_session_limit(number, max);
    }
    Ok(AttemptEnd::Value(Bytes::new(alloc)))
}

/// Attempts `match_max`.
pub fn run_match_max(
    alloc: Global,
    state: &mut State,
    args: &[Bytes],
) -> Result<Attempt, AllocError>
    ensures { IfOk result (Attempts (do_match_max args.now) state.old state.new) }
{
    let (later, text) = match match_words(alloc, args)? {
        Ok(words) => words,
        Err(message) => return Ok(Attempt::Ends(AttemptEnd::Fails(message))),
    };
    if later {
        let outcome = later_limit(alloc, state, text)?;
        return Ok(Attempt::Ends(outcome));
    }
    match seek_session(alloc, state, Fit::Started, None)? {
        Ok(session) => {
            let outcome = session_limit(alloc, state, session, text)?;
            Ok(Attempt::Ends(outcome))
        }
        Err(attempt) => Ok(attempt),
    }
}
