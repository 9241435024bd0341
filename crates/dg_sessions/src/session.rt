//! One session.
ghost use Rattle.std.specs.Prelude.{◌≡◌, ◌≤◌, ◌-◌, drop, take, length, IfOk, OnOk, OnErr, IfSome, Some, None};
ghost use Rattle.dg_match.specs.Hits.{LiesIn, hit_of};
ghost use Rattle.dg_sessions.specs.Views.{id_of, has_id, most_kept};
ghost use Rattle.dg_sessions.specs.Steps.{acted, emptied, limited, opening, step_of, taken, with_chunk};
ghost use Rattle.dg_transcript.specs.Replay.{buffer_behind};
ghost use Rattle.dg_sessions.specs.Phases.{phase_behind};

use crate::phase::Phase;
use dg_bytes::{Bytes, is_same};
use dg_match::{Buffer, Hit, Pattern};
use dg_transcript::{Act, Action, Cursor, Entry};
use std::alloc::{AllocError, Global};
use std::marker::Model;

/// A session of an evaluation. A contract sees its place in its record, the bytes that were read
/// and not yet taken, how many of them are kept at most, and how far it has come.
pub struct Session {
    id: Bytes,
    cursor: Cursor,
    buffer: Buffer,
    max: usize,
    phase: Phase,
}

impl Drop for Session {
    fn drop(self) {
        let Session {
            id: _,
            cursor: _,
            buffer: _,
            max: _,
            phase: _,
        } = self;
    }
}

impl Model for Session {
    ghost use Rattle.dg_sessions.specs.Views.{SessionView, session_code};

    ghost Value = { SessionView };

    ghost coded = { session_code };

    ghost use Rattle.std.specs.Prelude.{◌≡◌};
    ghost use Rattle.dg_sessions.specs.Views.{Keeps, id_of};

    ghost view = { λ s. record { cursor = s.cursor; buffer = s.buffer.bytes; max = s.max; phase = s.phase } };

    ghost invariant = { λ s. (s.id ≡ id_of s.cursor.session) × (s.buffer.max ≡ s.max) × Keeps s.buffer.bytes s.max };
}

/// The name of a session in scripts.
pub fn id_of(alloc: Global, number: u32) -> Result<Bytes, AllocError>
    ensures { IfOk result (λ id. id ≡ id_of number) }
{
    let mut id = Bytes::from_slice(alloc, b"exp")?;
    let mut digits = itoa::Buffer::new();
    id.extend(digits.format(number).as_bytes())?;
    id.keep(alloc)?;
    Ok(id)
}

impl Session {
    /// A session that has not started, of this number.
    pub(crate) fn new(alloc: Global, number: u32, max: usize) -> Result<Session, AllocError>
        requires some { 1 ≤ max }
        requires most { max ≤ most_kept }
        ensures { IfOk result (λ s. s ≡ opening number max) }
    {
        Ok(Session {
            id: id_of(alloc, number)?,
            cursor: Cursor::new(number),
            buffer: Buffer::new(alloc, max),
            max,
            phase: Phase::Unstarted,
        })
    }

    /// Its name in scripts, `expN`.
    #[tactic(auto, using(crate::proofs::IdLemmas::id_short))]
    pub fn id(&self) -> &Bytes
        ensures value { result.now ≡ id_of self.now.cursor.session }
        ensures short { length result.now ≤ 13 }
    {
        let _number = self.cursor.session();
        &self.id
    }

    /// Whether this is its name.
    pub(crate) fn has_id(&self, id: &[u8]) -> bool
        ensures { result ≡ has_id id.now self.now }
    {
        let own = self.id();
        is_same(own.as_slice(), id)
    }

    /// How far it has come.
    pub fn phase(&self) -> Phase
        ensures { result ≡ self.now.phase }
    {
        self.phase
    }

    /// The place of the entry that its next action is asked of, from 0.
    pub fn place(&self) -> u32
        ensures { result ≡ self.now.cursor.place }
    {
        self.cursor.wants()
    }

    /// How many bytes it keeps at most.
    pub fn max(&self) -> usize
        ensures value { result ≡ self.now.max }
        ensures most { result ≤ most_kept }
    {
        self.max
    }

    /// The bytes that were read and not yet taken.
    pub fn as_slice(&self) -> &[u8]
        ensures value { result.now ≡ self.now.buffer }
        ensures most { length result.now ≤ most_kept }
    {
        self.buffer.as_slice()
    }

    /// One step of an action at its entry: a chunk that answers or is passed over comes into the
    /// buffer, a close empties that, and an answer changes the phase. Where a growth is refused the
    /// session is as it was.
    #[tactic(auto, using(crate::proofs::StepLemmas::step_number, crate::proofs::StepLemmas::step_hears, crate::proofs::StepLemmas::acted_answered, crate::proofs::StepLemmas::acted_wants, crate::proofs::StepLemmas::acted_timed_out, crate::proofs::StepLemmas::acted_departed))]
    pub(crate) fn act(
        &mut self,
        alloc: Global,
        action: &mut Action,
        entry: &Entry,
    ) -> Result<Act, AllocError>
        ensures gives { IfOk result (λ act. act ≡ (step_of self.old action.old entry.now).act) }
        ensures next { OnOk result (self.new ≡ acted self.old action.old entry.now) }
        ensures limit { action.new ≡ (step_of self.old action.old entry.now).action }
        ensures err { OnErr result (self.new ≡ self.old) }
    {
        let mut cursor = self.cursor;
        let act = cursor.act(action, Some(entry));
        match act {
            Act::Answered => {
                self.hear(alloc, action, entry)?;
                self.answer(entry);
                self.go_to(cursor);
                Ok(act)
            }
            Act::Wants(_) => {
                self.hear(alloc, action, entry)?;
                self.go_to(cursor);
                Ok(act)
            }
            Act::TimedOut => {
                self.go_to(cursor);
                Ok(act)
            }
            Act::Departed => Ok(act),
        }
    }

    fn go_to(&mut self, cursor: Cursor)
        requires { cursor.session ≡ self.old.cursor.session }
        ensures { self.new ≡ record self.old { cursor = cursor } }
    {
        self.cursor = cursor;
    }

    fn answer(&mut self, entry: &Entry)
        ensures { self.new ≡ record self.old { phase = phase_behind entry.now self.old.phase } }
    {
        self.phase = self.phase.behind(entry);
    }

    /// What an entry that answers, or that is passed over, does to the buffer.
    fn hear(&mut self, alloc: Global, action: &Action, entry: &Entry) -> Result<(), AllocError>
        ensures ok { OnOk result (self.new ≡ record self.old
            { buffer = buffer_behind (with_chunk self.old.max) action.now entry.now self.old.buffer }) }
        ensures err { OnErr result (self.new ≡ self.old) }
    {
        match action {
            Action::Send(_) | Action::Read(_) => match entry.output() {
                Some((_, bytes)) => self.buffer.add(alloc, bytes.as_slice()),
                None => Ok(()),
            },
            Action::Close => {
                self.clear();
                Ok(())
            }
            Action::Spawn(_) | Action::Wait => Ok(()),
        }
    }

    /// Lets all bytes go.
    fn clear(&mut self)
        ensures { self.new ≡ emptied self.old }
    {
        self.buffer.clear();
    }

    /// The first of the patterns that has a match in the bytes, with its match. The bytes stay.
    pub(crate) fn try_patterns(
        &mut self,
        alloc: Global,
        patterns: &[Pattern],
    ) -> Result<Option<Hit>, AllocError>
        ensures hit { IfOk result (λ hit. hit ≡ hit_of patterns.now self.old.buffer) }
        ensures within { IfOk result (λ hit. IfSome hit (LiesIn self.old.buffer)) }
        ensures same { self.new ≡ self.old }
    {
        self.buffer.try_patterns(alloc, patterns)
    }

    /// Takes the bytes up to the end of a hit. Where a growth is refused the session is as it was.
    pub(crate) fn take(&mut self, alloc: Global, hit: &Hit) -> Result<Bytes, AllocError>
        requires { hit.now.end ≤ length self.old.buffer }
        ensures taken { IfOk result (λ bytes. bytes ≡ take hit.now.end self.old.buffer) }
        ensures left { OnOk result (self.new ≡ taken hit.now.end self.old) }
        ensures err { OnErr result (self.new ≡ self.old) }
    {
        self.buffer.take(alloc, hit)
    }

    /// Takes all bytes.
    pub(crate) fn take_all(&mut self, alloc: Global) -> Bytes
        ensures taken { result ≡ self.old.buffer }
        ensures left { self.new ≡ emptied self.old }
    {
        self.buffer.take_all(alloc)
    }

    /// Keeps at most so many bytes from now on, and of those here the last ones.
    pub(crate) fn set_max(&mut self, max: usize)
        requires some { 1 ≤ max }
        requires most { max ≤ most_kept }
        ensures { self.new ≡ limited max self.old }
    {
        self.max = max;
        self.buffer.set_max(max);
    }
}
