//! The sessions of an evaluation.
ghost use Rattle.std.specs.Prelude.{◌≡◌, ◌≤◌, ◌<◌, ◌+◌, ◌-◌, nat_lt, position, drop, take, length, IfOk, OnOk, OnErr, IfSome, IsSome, IsSomeAnd, Some};
ghost use Rattle.std.specs.Option.{option_copied};
ghost use Rattle.dg_match.specs.Hits.{LiesIn, hit_of};
ghost use Rattle.dg_sessions.specs.Views.{has_id, most_entries, most_kept, most_sessions, named, no_sessions, session_at};
ghost use Rattle.dg_sessions.specs.Steps.{all_acted, changed, emptied, limited, step_of, taken, with_session};

use crate::session::Session;
use dg_bytes::Bytes;
use dg_match::{Hit, Pattern};
use dg_transcript::{Act, Action, Entry};
use std::alloc::{AllocError, Global};
use std::marker::Model;

/// The most sessions of a test.
pub const MAX_SESSIONS: usize = 64;
/// The most entries that an evaluation uses up, over all sessions.
pub const MAX_USED: u32 = 65_536;
/// The most bytes that a session keeps.
pub const MAX_KEPT: usize = 65_536;

/// The sessions of an evaluation, from session 1 on, with the count of the entries of their records
/// that are used up, and the limit of the bytes that a later session keeps.
pub struct Sessions {
    all: Vec<Session>,
    used: u32,
    max: usize,
}

impl Drop for Sessions {
    fn drop(self) {
        let Sessions {
            all: _,
            used: _,
            max: _,
        } = self;
    }
}

impl Model for Sessions {
    ghost use Rattle.dg_sessions.specs.Views.{SessionsView, sessions_code};

    ghost Value = { SessionsView };

    ghost coded = { sessions_code };

    ghost use Rattle.std.specs.Prelude.{◌≤◌, length};
    ghost use Rattle.dg_sessions.specs.Views.{has_id, most_entries, most_kept, most_sessions};

    ghost view = { λ s. record { all = s.all.items; used = s.used; max = s.max } };

    ghost invariant = { λ s. (length s.all.items ≤ most_sessions) × (s.used ≤ most_entries) × (1 ≤ s.max) × (s.max ≤ most_kept) };
}

impl Sessions {
    /// No session, each of which keeps 2,000 bytes (expect(1)).
    pub fn new(alloc: Global) -> Sessions
        ensures { result ≡ no_sessions }
    {
        Sessions {
            all: Vec::new(alloc),
            used: 0,
            max: 2_000,
        }
    }

    /// How many there are, those that could not be started among them.
    pub fn len(&self) -> usize
        ensures { result ≡ length self.now.all }
    {
        self.all.len()
    }

    /// How many entries are used up.
    pub fn used(&self) -> u32
        ensures value { result ≡ self.now.used }
        ensures most { result ≤ most_entries }
    {
        self.used
    }

    /// Whether one more entry can be used up.
    pub fn has_room(&self) -> bool
        ensures { result ≡ nat_lt self.now.used most_entries }
    {
        self.used < MAX_USED
    }

    /// How many bytes a later session keeps.
    pub fn later_max(&self) -> usize
        ensures { result ≡ self.now.max }
    {
        self.max
    }

    /// The session of a number, from 1 on.
    pub fn get(&self, number: u32) -> Option<&Session>
        ensures { option_copied result ≡ session_at number self.now }
    {
        self.all.get((number as usize).saturating_sub(1))
    }

    /// The number of the session of this name.
    pub fn find(&self, id: &[u8]) -> Option<u32>
        ensures { result ≡ named id.now self.now }
    {
        let index = self.index_of(id)?;
        Some(index as u32 + 1)
    }

    fn index_of(&self, id: &[u8]) -> Option<usize>
        ensures found { result ≡ position (has_id id.now) self.now.all }
        ensures within { IfSome result (λ i. i < most_sessions) }
    {
        self.all.iter().position(|session| session.has_id(id))
    }

    /// Adds a session that has not started, and gives its number. Where a growth is refused nothing
    /// is changed.
    pub fn begin(&mut self, alloc: Global) -> Result<u32, AllocError>
        requires { length self.old.all < most_sessions }
        ensures number { IfOk result (λ n. n ≡ length self.old.all + 1) }
        ensures next { OnOk result (self.new ≡ with_session self.old) }
        ensures err { OnErr result (self.new ≡ self.old) }
    {
        let number = self.all.len() as u32 + 1;
        let session = Session::new(alloc, number, self.max)?;
        self.all.push(session)?;
        Ok(number)
    }

    /// One step of an action of a session at its entry. The entries that it uses up are counted.
    /// Where a growth is refused nothing is changed.
    pub fn act(
        &mut self,
        alloc: Global,
        number: u32,
        action: &mut Action,
        entry: &Entry,
    ) -> Result<Act, AllocError>
        requires there { IsSome (session_at number self.old) }
        requires room { self.old.used < most_entries }
        ensures gives { IfOk result
            (λ act. IfSome (session_at number self.old) (λ s. act ≡ (step_of s action.old entry.now).act)) }
        ensures next { OnOk result (self.new ≡ all_acted number action.old entry.now self.old) }
        ensures limit { IfSome (session_at number self.old) (λ s. action.new ≡ (step_of s action.old entry.now).action) }
        ensures err { OnErr result (self.new ≡ self.old) }
    {
        let session = &mut self.all[(number as usize).saturating_sub(1)];
        let before = session.place();
        let act = session.act(alloc, action, entry)?;
        self.used += session.place() - before;
        Ok(act)
    }

    /// The first of the patterns that has a match in a session's bytes, with its match (expect(1)).
    pub fn try_patterns(
        &mut self,
        alloc: Global,
        number: u32,
        patterns: &[Pattern],
    ) -> Result<Option<Hit>, AllocError>
        requires { IsSome (session_at number self.old) }
        ensures hit { IfSome (session_at number self.old) (λ s. IfOk result (λ hit. hit ≡ hit_of patterns.now s.buffer)) }
        ensures within { IfSome (session_at number self.old) (λ s. IfOk result (λ hit. IfSome hit (LiesIn s.buffer))) }
        ensures same { self.new ≡ self.old }
    {
        self.all[(number as usize).saturating_sub(1)].try_patterns(alloc, patterns)
    }

    /// Takes a session's bytes up to the end of a hit. Where a growth is refused nothing is changed.
    pub fn take(&mut self, alloc: Global, number: u32, hit: &Hit) -> Result<Bytes, AllocError>
        requires { IsSomeAnd (session_at number self.old) (λ s. hit.now.end ≤ length s.buffer) }
        ensures taken { IfSome (session_at number self.old) (λ s. IfOk result (λ bytes. bytes ≡ take hit.now.end s.buffer)) }
        ensures left { OnOk result (self.new ≡ changed number (taken hit.now.end) self.old) }
        ensures err { OnErr result (self.new ≡ self.old) }
    {
        self.all[(number as usize).saturating_sub(1)].take(alloc, hit)
    }

    /// Takes all bytes of a session.
    pub fn take_all(&mut self, alloc: Global, number: u32) -> Bytes
        requires { IsSome (session_at number self.old) }
        ensures taken { IfSome (session_at number self.old) (λ s. result ≡ s.buffer) }
        ensures left { self.new ≡ changed number emptied self.old }
    {
        self.all[(number as usize).saturating_sub(1)].take_all(alloc)
    }

    /// A session keeps at most so many bytes from now on, and of those it has the last ones.
    pub fn set_max(&mut self, number: u32, max: usize)
        requires there { IsSome (session_at number self.old) }
        requires some { 1 ≤ max }
        requires most { max ≤ most_kept }
        ensures { self.new ≡ changed number (limited max) self.old }
    {
        self.all[(number as usize).saturating_sub(1)].set_max(max);
    }

    /// Later sessions keep at most so many bytes.
    pub fn set_later_max(&mut self, max: usize)
        requires some { 1 ≤ max }
        requires most { max ≤ most_kept }
        ensures { self.new ≡ record self.old { max = max } }
    {
        self.max = max;
    }
}
