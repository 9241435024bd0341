//! What a match and an end of output leave: the variables of `expect_out`, and what is left to be read. A session that
//! is not there has read nothing.
ghost use Rattle.std.specs.Prelude.{◌≡◌, ◌≤◌, IfOk, IfSome, OnOk, length, take};
ghost use Rattle.dg_match.specs.Hits.{LiesIn, hit_of};
ghost use Rattle.dg_scope.specs.Scopes.{value_limit};
ghost use Rattle.dg_sessions.specs.Steps.{changed, emptied, taken};
ghost use Rattle.dg_language.specs.State.{with_sessions};
ghost use Rattle.dg_language.specs.Expecting.{bytes_of, with_end, with_match, with_removed};

use dg_bytes::Bytes;
use dg_forms::{write_groups, write_out};
use dg_language::State;
use dg_match::{Buffer, Hit, Pattern};
use dg_sessions::id_of;
use std::alloc::{AllocError, Global};

/// How many bytes of a session were read and not yet taken.
fn count_held(state: &State, session: u32) -> usize
    ensures count { result ≡ length (bytes_of session state.now) }
    ensures most { result ≤ value_limit }
{
    match state.session(session) {
        Some(held) => held.as_slice().len(),
        None => 0,
    }
}

/// The first of the patterns that has a match in what a session has read.
pub(crate) fn find_match(
    alloc: Global,
    state: &mut State,
    session: u32,
    patterns: &[Pattern],
) -> Result<Option<Hit>, AllocError>
    ensures hit { IfOk result (λ hit. hit ≡ hit_of patterns.now (bytes_of session state.old)) }
    ensures within { IfOk result (λ hit. IfSome hit (LiesIn (bytes_of session state.old))) }
    ensures same { state.new ≡ state.old }
{
    if state.session(session).is_none() {
        let mut nothing = Buffer::new(alloc, 1);
        return nothing.try_patterns(alloc, patterns);
    }
    state.try_patterns(alloc, session, patterns)
}

/// Takes what a session has read up to the end of a match.
#[tactic(auto, unfolding(dg_language::specs::State::with_sessions))]
fn take_match(
    alloc: Global,
    state: &mut State,
    session: u32,
    hit: &Hit,
) -> Result<Bytes, AllocError>
    requires { LiesIn (bytes_of session state.old) hit.now }
    ensures removed { IfOk result (λ bytes. bytes ≡ take hit.now.end (bytes_of session state.old)) }
    ensures left { OnOk result (state.new ≡ with_sessions (changed session (taken hit.now.end) state.old.sessions) state.old) }
{
    if state.session(session).is_none() {
        return Ok(Bytes::new(alloc));
    }
    state.take_match(alloc, session, hit)
}

/// Takes all that a session has read.
#[tactic(auto, unfolding(dg_language::specs::State::with_sessions))]
fn take_all(alloc: Global, state: &mut State, session: u32) -> Bytes
    ensures removed { result ≡ bytes_of session state.old }
    ensures left { state.new ≡ with_sessions (changed session emptied state.old.sessions) state.old }
{
    if state.session(session).is_none() {
        return Bytes::new(alloc);
    }
    state.take_all(alloc, session)
}

/// Writes what was removed, and the name of the session.
fn write_removed(
    alloc: Global,
    state: &mut State,
    session: u32,
    bytes: Bytes,
) -> Result<(), AllocError>
    requires { length bytes ≤ value_limit }
    ensures { OnOk result (state.new ≡ with_removed session bytes state.old) }
{
    write_out(alloc, state, b"buffer", bytes)?;
    let id = id_of(alloc, session)?;
    write_out(alloc, state, b"spawn_id", id)?;
    Ok(())
}

/// Takes all bytes up to the end of a match, and writes it.
pub(crate) fn keep_match(
    alloc: Global,
    state: &mut State,
    session: u32,
    hit: &Hit,
) -> Result<(), AllocError>
    requires { LiesIn (bytes_of session state.old) hit.now }
    ensures { OnOk result (state.new ≡ with_match session (bytes_of session state.old) hit.now state.old) }
{
    // The call shows the proof how many bytes are held.
    let _count = count_held(state, session);
    let removed = take_match(alloc, state, session, hit)?;
    let matched = Bytes::from_slice(alloc, &removed.as_slice()[hit.start..hit.end])?;
    write_out(alloc, state, b"0,string", matched)?;
    write_groups(alloc, state, removed.as_slice(), hit.groups.as_slice())?;
    write_removed(alloc, state, session, removed)?;
    Ok(())
}

/// Takes all bytes of a session whose output has ended, and writes them.
#[tactic(auto, unfolding(dg_language::specs::Expecting::with_end))]
pub(crate) fn keep_end(alloc: Global, state: &mut State, session: u32) -> Result<(), AllocError>
    ensures { OnOk result (state.new ≡ with_end session (bytes_of session state.old) state.old) }
{
    // The call shows the proof how many bytes are held.
    let _count = count_held(state, session);
    let removed = take_all(alloc, state, session);
    write_removed(alloc, state, session, removed)?;
    Ok(())
}
