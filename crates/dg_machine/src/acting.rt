//! Actions on sessions, from entry to entry of a test's transcript.
ghost use Rattle.std.specs.Prelude.{◌≡◌, ◌+◌, ◌<◌, [], IfOk, codes};
ghost use Rattle.dg_sessions.specs.Views.{id_of, most_entries};
ghost use Rattle.dg_language.specs.Sessions.{depart, entry_for, program_of, spawned, unless_failed, wait_for, wait_value};
ghost use Rattle.dg_language.specs.State.{assigned};
ghost use Rattle.dg_language.specs.Play.{Play};
ghost use Rattle.dg_language.specs.Evaluation.{Ending};
ghost use Rattle.dg_machine.specs.declared.frame.Control.{Control};
ghost use Rattle.dg_machine.specs.Acting.{acting, after_weight, naming, told_after};
ghost use Rattle.dg_machine.specs.Meaning.{all_back, weight_of, ends_with, Comes, Goes, GoesAs};
ghost use Rattle.dg_machine.specs.Performing.{IsNext, KnowsNext, Performs};

use crate::boxed::Boxed;
use crate::frame::{Acting, After, Came, Closing, Frame, Pace};
use crate::machine::Machine;
use dg_bytes::{Bytes, TryCopy};
use dg_forms::{cannot_execute, not_open, wait_value};
use dg_language::{Ask, Close, Code};
use dg_sessions::{Session, id_of};
use dg_transcript::{Act, Action, Entry};
use dg_world::{Answer, EntryPlace, Question};
use std::alloc::{AllocError, Global};

/// What is known of the next entry of a session.
#[derive(Drop)]
enum NextEntry {
    /// It is this one.
    Told(Entry),
    /// This question for it has no answer yet.
    Unanswered(Boxed<Ask>),
    /// There is none.
    Missing,
}

impl Machine {
    /// A child did not do what was asked of it: the whole test ends.
    pub(crate) fn depart(&mut self, alloc: Global) -> Result<Boxed<Closing>, AllocError>
        ensures ends { IfOk result (λ c. depart self.old.state ≡ ends_with c self.old.state) }
        ensures same { self.new ≡ self.old }
    {
        let judging = self.state.judged(alloc)?;
        let name = self.state.test().script().as_slice();
        let verdict = judging.depart(alloc, name)?;
        let closing = Closing {
            verdict,
            close: Close::Departed,
        };
        let closing = Boxed::new(alloc, closing)?;
        Ok(closing)
    }

    /// What is asked for the next entry of a session, for an action.
    fn ask_for_entry(
        &self,
        alloc: Global,
        number: u32,
        session: &Session,
        action: &Action,
    ) -> Result<Ask, AllocError>
        ensures { IfOk result (λ q. q ≡ entry_for number session.now action.now self.now.state) }
    {
        let place = EntryPlace {
            test: self.state.test().copy(alloc)?,
            session: number,
            place: session.place(),
        };
        Ok(Ask {
            question: Question::Entry(place),
            action: Some(action.copy(alloc)?),
        })
    }

    /// An action on a session comes to its next entry, if that is known.
    pub(crate) fn perform(
        &mut self,
        alloc: Global,
        number: u32,
        action: &mut Action,
    ) -> Result<Came, AllocError>
        ensures { IfOk result (λ c. Performs number action.old action.new self.old self.new c) }
    {
        if !self.state.sessions().has_room() {
            let closing = self.cut(alloc, b"too many transcript entries")?;
            return Ok(Came::Over(closing));
        }
        let next = self.next_entry(alloc, number, action)?;
        match next {
            NextEntry::Told(entry) => self.take_entry(alloc, number, action, entry),
            NextEntry::Unanswered(ask) => Ok(Came::Stands(ask)),
            NextEntry::Missing => {
                let closing = self.depart(alloc)?;
                Ok(Came::Over(closing))
            }
        }
    }

    /// What is known of the next entry of a session, for an action.
    fn next_entry(
        &self,
        alloc: Global,
        number: u32,
        action: &Action,
    ) -> Result<NextEntry, AllocError>
        requires { self.now.state.sessions.used < most_entries }
        ensures { IfOk result (KnowsNext number action.now self.now.state) }
    {
        let Some(session) = self.state.session(number) else {
            return Ok(NextEntry::Missing);
        };
        if let Some(entry) = self.state.last_entry(number, session.place()) {
            return Ok(NextEntry::Told(entry.copy(alloc)?));
        }
        let ask = self.ask_for_entry(alloc, number, session, action)?;
        let Some(answer) = self.state.answer_to(&ask.question) else {
            let asked = Boxed::new(alloc, ask)?;
            return Ok(NextEntry::Unanswered(asked));
        };
        let Answer::Entry(entry) = answer else {
            return Ok(NextEntry::Missing);
        };
        Ok(NextEntry::Told(entry.copy(alloc)?))
    }

    /// An action on a session comes to its next entry, which was told.
    fn take_entry(
        &mut self,
        alloc: Global,
        number: u32,
        action: &mut Action,
        entry: Entry,
    ) -> Result<Came, AllocError>
        requires room { self.old.state.sessions.used < most_entries }
        requires told { IsNext number action.old entry self.old.state }
        ensures { IfOk result (λ c. Performs number action.old action.new self.old self.new c) }
    {
        match self.state.act(alloc, number, action, &entry)? {
            Act::Answered => Ok(Came::Answered(entry)),
            Act::Wants(_) => Ok(Came::Passed),
            Act::TimedOut => Ok(Came::Late),
            Act::Departed => {
                let closing = self.depart(alloc)?;
                Ok(Came::Over(closing))
            }
        }
    }

    /// `spawn` once its start was told.
    #[tactic(auto, unfolding(dg_language::specs::Sessions::spawned, crate::specs::Meaning::rest, crate::specs::Meaning::go, crate::specs::Meaning::weight, crate::specs::Meaning::stack_weight))]
    fn after_spawn(
        &mut self,
        alloc: Global,
        session: u32,
        words: &[Bytes],
        entry: &Entry,
    ) -> Result<Pace, AllocError>
        requires { self.old.control ≡ Control.Go }
        ensures { IfOk result (GoesAs (spawned session words.now entry.now) 20 self.old self.new) }
    {
        if entry.is_failure() {
            let message = cannot_execute(alloc, program_of(words))?;
            return self.fail(alloc, message);
        }
        self.stack.push(Frame::Naming { session })?;
        Ok(Pace::Moved)
    }

    /// A call was told, and is an error where it failed.
    #[tactic(auto, unfolding(crate::specs::Meaning::rest, crate::specs::Meaning::weight))]
    fn report(&mut self, alloc: Global, session: u32, entry: &Entry) -> Result<Pace, AllocError>
        requires { self.old.control ≡ Control.Go }
        ensures { IfOk result (GoesAs (unless_failed session entry.now) 10 self.old self.new) }
    {
        if entry.is_failure() {
            let id = id_of(alloc, session)?;
            let message = not_open(alloc, id.as_slice())?;
            return self.fail(alloc, message);
        }
        self.end(Code::Done, Bytes::new(alloc));
        Ok(Pace::Moved)
    }

    /// The child's end was told.
    #[tactic(auto, unfolding(crate::specs::Meaning::rest, crate::specs::Meaning::weight))]
    fn tell_end(&mut self, alloc: Global, session: u32, entry: &Entry) -> Result<Pace, AllocError>
        requires { self.old.control ≡ Control.Go }
        ensures { IfOk result (λ p. Goes (all_back self.old.stack Code.Done (wait_value session entry.now) self.old.state)
            self.old.state.known (weight_of self.old + 10) self.new p) }
    {
        let id = id_of(alloc, session)?;
        let value = wait_value(alloc, id.as_slice(), entry)?;
        self.end(Code::Done, value);
        Ok(Pace::Moved)
    }

    /// The child is waited for, once its session was closed.
    #[tactic(auto, unfolding(dg_language::specs::Sessions::wait_for, crate::specs::Meaning::rest, crate::specs::Meaning::go, crate::specs::Meaning::weight, crate::specs::Meaning::stack_weight))]
    fn wait_for(&mut self, session: u32) -> Result<Pace, AllocError>
        requires { self.old.control ≡ Control.Go }
        ensures { IfOk result (GoesAs (wait_for session) 20 self.old self.new) }
    {
        let acting = Acting {
            session,
            action: Action::Wait,
            after: After::Waited,
        };
        self.stack.push(Frame::Acting { acting })?;
        Ok(Pace::Moved)
    }

    /// An entry has answered an action.
    fn after_entry(
        &mut self,
        alloc: Global,
        after: After,
        session: u32,
        entry: &Entry,
    ) -> Result<Pace, AllocError>
        requires { self.old.control ≡ Control.Go }
        ensures { IfOk result (λ p. (more : Play Ending) → Goes
            (told_after after session (all_back self.old.stack) entry.now self.old.state more) self.old.state.known
            (weight_of self.old + after_weight after) self.new p) }
    {
        match after {
            After::Spawned(words) => self.after_spawn(alloc, session, words.as_slice(), entry),
            After::Reported => self.report(alloc, session, entry),
            After::ToWait => self.wait_for(session),
            After::Waited => self.tell_end(alloc, session, entry),
        }
    }

    /// An action goes on to its next entry.
    #[tactic(auto, unfolding(crate::specs::Meaning::rest, crate::specs::Meaning::go))]
    pub(crate) fn act(&mut self, alloc: Global, mut begun: Acting) -> Result<Pace, AllocError>
        requires { self.old.control ≡ Control.Go }
        ensures { IfOk result (λ p. Comes (acting begun self.old.state (all_back self.old.stack)) self.old.state.known
            (weight_of self.old + after_weight begun.after) self.new p) }
    {
        match self.perform(alloc, begun.session, &mut begun.action)? {
            Came::Stands(ask) => {
                self.stack.push(Frame::Acting { acting: begun })?;
                Ok(Pace::Stands(ask))
            }
            Came::Over(closing) => Ok(Pace::Over(closing)),
            Came::Passed => {
                self.stack.push(Frame::Acting { acting: begun })?;
                Ok(Pace::Moved)
            }
            Came::Answered(entry) => {
                let Acting {
                    session,
                    action: _,
                    after,
                } = begun;
                self.after_entry(alloc, after, session, &entry)
            }
            Came::Late => {
                let closing = self.depart(alloc)?;
                Ok(Pace::Over(closing))
            }
        }
    }

    /// A session that has started gets its name in `spawn_id`.
    #[tactic(auto, unfolding(crate::specs::Meaning::rest, crate::specs::Meaning::go))]
    pub(crate) fn name_session(&mut self, alloc: Global, session: u32) -> Result<Pace, AllocError>
        requires { self.old.control ≡ Control.Go }
        ensures { IfOk result (λ p. Comes (naming session self.old.state (all_back self.old.stack)) self.old.state.known
            (weight_of self.old + 6) self.new p) }
    {
        match self.ready(alloc, b"spawn_id")? {
            Some(Pace::Stands(ask)) => {
                self.stack.push(Frame::Naming { session })?;
                Ok(Pace::Stands(ask))
            }
            Some(Pace::Over(closing)) => Ok(Pace::Over(closing)),
            Some(Pace::Moved) => Ok(Pace::Moved),
            Some(Pace::Lost) => Ok(Pace::Lost),
            None => self.give_name(alloc, session),
        }
    }

    /// `spawn_id`, which can be used, gets a session's name.
    #[tactic(auto, unfolding(crate::specs::Meaning::rest, crate::specs::Meaning::weight))]
    fn give_name(&mut self, alloc: Global, session: u32) -> Result<Pace, AllocError>
        requires { self.old.control ≡ Control.Go }
        ensures { IfOk result (λ p. Goes
            (all_back self.old.stack Code.Done (codes "0") (assigned (codes "spawn_id") (id_of session) self.old.state))
            self.old.state.known (weight_of self.old + 2) self.new p) }
    {
        let id = id_of(alloc, session)?;
        self.state.assign(alloc, b"spawn_id", id)?;
        self.end(Code::Done, Bytes::from_slice(alloc, b"0")?);
        Ok(Pace::Moved)
    }
}

/// The program of these words.
fn program_of(words: &[Bytes]) -> &[u8]
    ensures { result.now ≡ program_of words.now }
{
    match words {
        [] => b"",
        [program, ..] => program.as_slice(),
    }
}
