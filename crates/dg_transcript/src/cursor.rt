//! A recorded session replayed, one entry at a time.
ghost use Rattle.std.specs.Prelude.{◌≡◌, ◌<◌, ◌+◌, option_copied, Some, None, if◌then◌else◌};
ghost use Rattle.dg_transcript.specs.declared.limits.TheConstants.{MAX_ENTRIES};
ghost use Rattle.dg_transcript.specs.Step.{step, step_at, arrives, is_silent, gone_on};

use crate::entry::Entry;
use crate::limits::MAX_ENTRIES;
use dg_bytes::{Bytes, Seq, TryCopy};
use std::alloc::{AllocError, Global};

/// What a script asks of a session.
#[derive(PartialEq, Eq, Hash)]
pub enum Action {
    /// Start a child by these words.
    Spawn(Seq<Bytes>),
    /// Send it these bytes.
    Send(Bytes),
    /// Wait for its next bytes or the end of its output, for so many milliseconds at most.
    Read(u32),
    /// Close the session.
    Close,
    /// Wait for the child to end.
    Wait,
}

impl Drop for Action {
    fn drop(self) {
        match self {
            Action::Spawn(_words) => {}
            Action::Send(_bytes) => {}
            Action::Read(_) | Action::Close | Action::Wait => {}
        }
    }
}

impl TryCopy for Action {
    fn copy(&self, alloc: Global) -> Result<Action, AllocError> {
        Ok(match self {
            Action::Spawn(words) => Action::Spawn(words.copy(alloc)?),
            Action::Send(bytes) => Action::Send(bytes.copy(alloc)?),
            Action::Read(limit) => Action::Read(*limit),
            Action::Close => Action::Close,
            Action::Wait => Action::Wait,
        })
    }
}

/// What a record's entry is to an action.
#[derive(Clone, Copy, Debug, PartialEq, Eq)]
pub enum Act {
    /// The entry answers the action and is used up.
    Answered,
    /// The entry was passed over and is used up; this one is wanted next, counted from 0.
    Wants(u32),
    /// The limit of a read passes before the entry. The entry is used up only where it is a
    /// silence of which nothing is left.
    TimedOut,
    /// The record has no such action here; nothing is used up.
    Departed,
}

/// A place in the record of one session. It takes no memory.
#[derive(Clone, Copy, Debug, PartialEq, Eq)]
pub struct Cursor {
    session: u32,
    place: u32,
    wait: Option<u32>,
}

impl Cursor {
    /// Before the first entry of a session.
    pub fn new(session: u32) -> Cursor
        ensures { result ≡ record { session = session; place = 0; wait = None } }
    {
        Cursor {
            session,
            place: 0,
            wait: None,
        }
    }

    /// The session.
    pub fn session(&self) -> u32
        ensures { result ≡ self.now.session }
    {
        self.session
    }

    /// The entry that the next action is asked of, counted from 0.
    pub fn wants(&self) -> u32
        ensures { result ≡ self.now.place }
    {
        self.place
    }

    /// One step of an action: what the wanted entry is to it, or its absence where the record has
    /// ended. A read's limit falls by the wait that was used. A record has no entry behind the
    /// first 65,536.
    pub fn act(&mut self, action: &mut Action, entry: Option<&Entry>) -> Act
        ensures gives { result ≡ (step self.old action.old (option_copied entry.entry)).act }
        ensures place { self.new ≡ (step self.old action.old (option_copied entry.entry)).cursor }
        ensures limit { action.new ≡ (step self.old action.old (option_copied entry.entry)).action }
    {
        match entry {
            Some(entry) if (self.place as usize) < MAX_ENTRIES => self.act_at(action, entry),
            _ => Act::Departed,
        }
    }

    fn act_at(&mut self, action: &mut Action, entry: &Entry) -> Act
        requires { self.old.place < MAX_ENTRIES }
        ensures gives { result ≡ (step_at self.old action.old entry.now).act }
        ensures place { self.new ≡ (step_at self.old action.old entry.now).cursor }
        ensures limit { action.new ≡ (step_at self.old action.old entry.now).action }
    {
        match action {
            Action::Spawn(words) => self.spawn(words, entry),
            Action::Send(bytes) => self.send(bytes, entry),
            Action::Read(limit) => self.read(limit, entry),
            Action::Close => self.close(entry),
            Action::Wait => self.wait(entry),
        }
    }

    // A start: the child was started by these words, or failed to.
    fn spawn(&mut self, words: &Seq<Bytes>, entry: &Entry) -> Act
        requires { self.old.place < MAX_ENTRIES }
        ensures gives { result ≡ (step_at self.old (Action.Spawn words.now) entry.now).act }
        ensures place { self.new ≡ (step_at self.old (Action.Spawn words.now) entry.now).cursor }
        ensures action { Action.Spawn words.now ≡ (step_at self.old (Action.Spawn words.now) entry.now).action }
    {
        match entry {
            Entry::Started(given) | Entry::NoStart(_, given) => self.answer_if(given == words),
            _ => Act::Departed,
        }
    }

    // Bytes to be sent. Output and silences in front of the answer are passed over.
    fn send(&mut self, bytes: &Bytes, entry: &Entry) -> Act
        requires { self.old.place < MAX_ENTRIES }
        ensures gives { result ≡ (step_at self.old (Action.Send bytes.now) entry.now).act }
        ensures place { self.new ≡ (step_at self.old (Action.Send bytes.now) entry.now).cursor }
        ensures action { Action.Send bytes.now ≡ (step_at self.old (Action.Send bytes.now) entry.now).action }
    {
        match entry {
            Entry::Chunk(..) | Entry::Silence(_) => self.pass(),
            Entry::Sent(given) | Entry::NoSend(_, given) => self.answer_if(given == bytes),
            _ => Act::Departed,
        }
    }

    // The end of the session. Output and silences in front of the answer are passed over.
    fn close(&mut self, entry: &Entry) -> Act
        requires { self.old.place < MAX_ENTRIES }
        ensures gives { result ≡ (step_at self.old Action.Close entry.now).act }
        ensures place { self.new ≡ (step_at self.old Action.Close entry.now).cursor }
        ensures action { Action.Close ≡ (step_at self.old Action.Close entry.now).action }
    {
        match entry {
            Entry::Chunk(..) | Entry::Silence(_) => self.pass(),
            Entry::Closed | Entry::NoClose(_) => self.answer_if(true),
            _ => Act::Departed,
        }
    }

    // The end of the child.
    fn wait(&mut self, entry: &Entry) -> Act
        requires { self.old.place < MAX_ENTRIES }
        ensures gives { result ≡ (step_at self.old Action.Wait entry.now).act }
        ensures place { self.new ≡ (step_at self.old Action.Wait entry.now).cursor }
        ensures action { Action.Wait ≡ (step_at self.old Action.Wait entry.now).action }
    {
        match entry {
            Entry::Exited(_) | Entry::Killed(_) | Entry::NoWait(_) => self.answer_if(true),
            _ => Act::Departed,
        }
    }

    fn read(&mut self, limit: &mut u32, entry: &Entry) -> Act
        requires { self.old.place < MAX_ENTRIES }
        ensures gives { result ≡ (step_at self.old (Action.Read limit.old) entry.now).act }
        ensures place { self.new ≡ (step_at self.old (Action.Read limit.old) entry.now).cursor }
        ensures limit { Action.Read limit.new ≡ (step_at self.old (Action.Read limit.old) entry.now).action }
    {
        match entry {
            Entry::Chunk(wait, _) | Entry::End(wait) => self.arrives(limit, *wait),
            Entry::Silence(wait) => self.is_silent(limit, *wait),
            Entry::NoRead(_) => self.answer_if(true),
            _ => Act::Departed,
        }
    }

    // Bytes, or the end, come after a wait.
    fn arrives(&mut self, limit: &mut u32, wait: u32) -> Act
        requires { self.old.place < MAX_ENTRIES }
        ensures gives { result ≡ (arrives self.old limit.old wait).act }
        ensures place { self.new ≡ (arrives self.old limit.old wait).cursor }
        ensures limit { Action.Read limit.new ≡ (arrives self.old limit.old wait).action }
    {
        let wait = self.wait.unwrap_or(wait);
        if wait <= *limit {
            *limit -= wait;
            self.answer_if(true)
        } else {
            self.wait = Some(wait - *limit);
            *limit = 0;
            Act::TimedOut
        }
    }

    // Nothing comes for a time.
    fn is_silent(&mut self, limit: &mut u32, wait: u32) -> Act
        requires { self.old.place < MAX_ENTRIES }
        ensures gives { result ≡ (is_silent self.old limit.old wait).act }
        ensures place { self.new ≡ (is_silent self.old limit.old wait).cursor }
        ensures limit { Action.Read limit.new ≡ (is_silent self.old limit.old wait).action }
    {
        let wait = self.wait.unwrap_or(wait);
        if wait < *limit {
            *limit -= wait;
            return self.pass();
        }
        if wait == *limit {
            self.go_on();
        } else {
            self.wait = Some(wait - *limit);
        }
        *limit = 0;
        Act::TimedOut
    }

    fn answer_if(&mut self, fits: bool) -> Act
        requires { self.old.place < MAX_ENTRIES }
        ensures gives { result ≡ (if fits then Act.Answered else Act.Departed) }
        ensures place { self.new ≡ (if fits then gone_on self.old else self.old) }
    {
        if fits {
            self.go_on();
            Act::Answered
        } else {
            Act::Departed
        }
    }

    fn pass(&mut self) -> Act
        requires { self.old.place < MAX_ENTRIES }
        ensures gives { result ≡ Act.Wants (self.old.place + 1) }
        ensures place { self.new ≡ gone_on self.old }
    {
        self.go_on();
        Act::Wants(self.place)
    }

    fn go_on(&mut self)
        requires { self.old.place < MAX_ENTRIES }
        ensures { self.new ≡ gone_on self.old }
    {
        self.place += 1;
        self.wait = None;
    }
}
