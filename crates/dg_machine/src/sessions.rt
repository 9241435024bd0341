//! The commands on sessions: spawn, send, close, wait and match_max.
ghost use Rattle.std.specs.Prelude.{◌≡◌, ◌+◌, ◌<◌, IfOk};
ghost use Rattle.dg_language.specs.Sessions.{close_and_wait, do_close, do_match_max, do_send, do_session, do_spawn, do_wait, send_to, start};
ghost use Rattle.dg_machine.specs.declared.frame.Control.{Control};
ghost use Rattle.dg_machine.specs.Acting.{acting, after_weight};
ghost use Rattle.dg_machine.specs.Meaning.{all_back, weight_of, Goes, command_weight, RunsAs, GoesAs};

use crate::frame::{Acting, After, Frame, Pace};
use crate::gather::push_all;
use crate::machine::Machine;
use dg_asking::{Fit, has_session, run_match_max, seek_session};
use dg_bytes::{Bytes, Seq, TryCopy};
use dg_forms::{id_words, send_words, spawn_words};
use dg_language::{Code, SessionCommand};
use dg_sessions::MAX_SESSIONS;
use dg_transcript::Action;
use std::alloc::{AllocError, Global};

/// The most words of `spawn`.
const MOST_WORDS: usize = 64;

impl Machine {
    /// The next session is started by these words.
    #[tactic(auto, unfolding(dg_language::specs::Sessions::start, crate::specs::Meaning::rest, crate::specs::Meaning::go, crate::specs::Meaning::weight, crate::specs::Meaning::stack_weight))]
    fn start(&mut self, alloc: Global, words: &[Bytes]) -> Result<Pace, AllocError>
        requires { self.old.control ≡ Control.Go }
        ensures { IfOk result (GoesAs (start words.now) 30 self.old self.new) }
    {
        if words.len() > MOST_WORDS {
            let message = Bytes::from_slice(alloc, b"too many words")?;
            return self.fail(alloc, message);
        }
        if self.state.sessions().len() >= MAX_SESSIONS {
            let message = Bytes::from_slice(alloc, b"too many sessions")?;
            return self.fail(alloc, message);
        }
        let session = self.state.begin_session(alloc)?;
        let mut copies = Seq::new(alloc);
        push_all(alloc, &mut copies, words)?;
        let acting = Acting {
            session,
            action: Action::Spawn(copies.copy(alloc)?),
            after: After::Spawned(copies),
        };
        self.stack.push(Frame::Acting { acting })?;
        Ok(Pace::Moved)
    }

    /// `spawn word..`.
    #[tactic(auto, unfolding(dg_language::specs::Sessions::do_spawn))]
    fn spawn(&mut self, alloc: Global, args: &[Bytes]) -> Result<Pace, AllocError>
        requires { self.old.control ≡ Control.Go }
        ensures { IfOk result (GoesAs (do_spawn args.now) 30 self.old self.new) }
    {
        match spawn_words(alloc, args)? {
            Ok(words) => self.start(alloc, words),
            Err(message) => self.fail(alloc, message),
        }
    }

    /// An action on a session begins.
    #[tactic(auto, unfolding(crate::specs::Meaning::rest, crate::specs::Meaning::go, crate::specs::Meaning::weight, crate::specs::Meaning::stack_weight))]
    fn begin_action(
        &mut self,
        session: u32,
        action: Action,
        after: After,
    ) -> Result<Pace, AllocError>
        requires { self.old.control ≡ Control.Go }
        ensures { IfOk result (λ p. Goes (acting (record { session = session; action = action; after = after })
            self.old.state (all_back self.old.stack)) self.old.state.known
            (weight_of self.old + after_weight after + 1) self.new p) }
    {
        let acting = Acting {
            session,
            action,
            after,
        };
        self.stack.push(Frame::Acting { acting })?;
        Ok(Pace::Moved)
    }

    /// A text is sent to a session; an empty one asks nothing of its child.
    #[tactic(auto, unfolding(dg_language::specs::Sessions::send_to, crate::specs::Meaning::rest, crate::specs::Meaning::weight))]
    fn send_to(&mut self, alloc: Global, session: u32, text: Bytes) -> Result<Pace, AllocError>
        requires { self.old.control ≡ Control.Go }
        ensures { IfOk result (GoesAs (send_to session text) 30 self.old self.new) }
    {
        if text.is_empty() {
            self.end(Code::Done, Bytes::new(alloc));
            return Ok(Pace::Moved);
        }
        self.begin_action(session, Action::Send(text), After::Reported)
    }

    /// `send text`.
    fn send(&mut self, alloc: Global, args: &[Bytes]) -> Result<Pace, AllocError>
        requires { self.old.control ≡ Control.Go }
        ensures { IfOk result (RunsAs (do_send args.now) command_weight self.old self.new) }
    {
        match send_words(alloc, args)? {
            Ok((id, text)) => match seek_session(alloc, &mut self.state, Fit::Open, id)? {
                Ok(session) => self.send_to(alloc, session, text),
                Err(attempt) => self.come_of(alloc, attempt),
            },
            Err(message) => self.fail(alloc, message),
        }
    }

    /// `close`.
    fn close(&mut self, alloc: Global, args: &[Bytes]) -> Result<Pace, AllocError>
        requires { self.old.control ≡ Control.Go }
        ensures { IfOk result (RunsAs (do_close args.now) command_weight self.old self.new) }
    {
        match id_words(alloc, b"close", args)? {
            Ok(id) => match seek_session(alloc, &mut self.state, Fit::Open, id)? {
                Ok(session) => self.begin_action(session, Action::Close, After::Reported),
                Err(attempt) => self.come_of(alloc, attempt),
            },
            Err(message) => self.fail(alloc, message),
        }
    }

    /// A child is waited for; its session is closed first, if it is open.
    #[tactic(auto, unfolding(dg_language::specs::Sessions::close_and_wait, dg_language::specs::Sessions::wait_for))]
    fn close_and_wait(&mut self, session: u32) -> Result<Pace, AllocError>
        requires { self.old.control ≡ Control.Go }
        ensures { IfOk result (GoesAs (close_and_wait session) 30 self.old self.new) }
    {
        if has_session(&self.state, Fit::Open, session) {
            return self.begin_action(session, Action::Close, After::ToWait);
        }
        self.begin_action(session, Action::Wait, After::Waited)
    }

    /// `wait`.
    fn wait(&mut self, alloc: Global, args: &[Bytes]) -> Result<Pace, AllocError>
        requires { self.old.control ≡ Control.Go }
        ensures { IfOk result (RunsAs (do_wait args.now) command_weight self.old self.new) }
    {
        match id_words(alloc, b"wait", args)? {
            Ok(id) => match seek_session(alloc, &mut self.state, Fit::Waitable, id)? {
                Ok(session) => self.close_and_wait(session),
                Err(attempt) => self.come_of(alloc, attempt),
            },
            Err(message) => self.fail(alloc, message),
        }
    }

    /// `match_max`.
    fn match_max(&mut self, alloc: Global, args: &[Bytes]) -> Result<Pace, AllocError>
        requires { self.old.control ≡ Control.Go }
        ensures { IfOk result (RunsAs (do_match_max args.now) command_weight self.old self.new) }
    {
        let attempt = run_match_max(alloc, &mut self.state, args)?;
        self.come_of(alloc, attempt)
    }

    /// A command on a session.
    pub(crate) fn session(
        &mut self,
        alloc: Global,
        which: SessionCommand,
        args: &[Bytes],
    ) -> Result<Pace, AllocError>
        requires { self.old.control ≡ Control.Go }
        ensures { IfOk result (RunsAs (do_session which args.now) command_weight self.old self.new) }
    {
        match which {
            SessionCommand::Spawn => self.spawn(alloc, args),
            SessionCommand::Send => self.send(alloc, args),
            SessionCommand::Close => self.close(alloc, args),
            SessionCommand::Wait => self.wait(alloc, args),
            SessionCommand::MatchMax => self.match_max(alloc, args),
        }
    }
}
