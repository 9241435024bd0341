//! One session of a gate: its child, and the ring of its output.
ghost use Rattle.std.specs.Prelude.{◌≡◌, [], IfOk, IfErr, OnOk, OnErr, MatchOption, None, true};
ghost use Rattle.dg_transcript.specs.declared.cursor.Action.TheVariants as action;
ghost use Rattle.dg_gate.specs.declared.reply.Reply.TheVariants as reply;
ghost use Rattle.dg_gate.specs.Reply.{fits};
ghost use Rattle.dg_pipes.specs.Steps.{taken_of, Joins, TellsOf};

use crate::account::Account;
use crate::child::{Process, ended_of, kill, start};
use crate::fault::fault_of;
use crate::item::Item;
use crate::session::{Fresh, Session};
use dg_bytes::Bytes;
use dg_gate::{Ended, GateFault, Piece};
use dg_transcript::ErrorCode;
use std::alloc::Global;
use std::io::Write;
use std::process::{ChildStdout, Processes, SystemProcess};
use std::sync::Wait;
use std::thread::Threads;
use std::time::Clock;

/// A session's child, where one was started, and its output, until it is closed.
#[derive(Drop)]
pub struct Slot {
    pub session: u32,
    child: Option<Process>,
    pub output: Option<Session>,
}

impl Slot {
    /// The session of a child that was not started.
    pub(crate) fn unused(session: u32) -> Slot
        ensures session { result.session ≡ session }
        ensures output { result.output ≡ None }
    {
        Slot {
            session,
            child: None,
            output: None,
        }
    }

    /// Starts a child, and the thread that reads its output.
    pub(crate) fn start<R, F>(
        rt: &R,
        alloc: Global,
        opener: &F,
        session: u32,
        words: &[Bytes],
    ) -> Result<Slot, GateFault>
    where
        R: Processes<Started = SystemProcess>,
        F: Fn(ChildStdout) -> Result<Fresh, GateFault>,
        requires { F.IsAlwaysCallable opener.now }
        ensures session { IfOk result (λ s. s.session ≡ session) }
        ensures output { IfOk result (λ s. taken_of s.output ≡ []) }
    {
        let mut child = start(rt, alloc, words)?;
        let opened = match child.stdout.take() {
            Some(output) => opener(output),
            None => Err(GateFault::Device(ErrorCode::Other)),
        };
        match opened {
            Ok(fresh) => Ok(Slot {
                session,
                child: Some(child),
                output: Some(fresh.session),
            }),
            Err(fault) => {
                kill(&mut child);
                Err(fault)
            }
        }
    }

    /// Sends bytes to the child's input.
    pub(crate) fn send(&mut self, bytes: &[u8]) -> Result<(), GateFault>
        ensures session { self.new.session ≡ self.old.session }
        ensures output { self.new.output ≡ self.old.output }
    {
        let Some(child) = &mut self.child else {
            return Err(GateFault::Device(ErrorCode::Other));
        };
        match &mut child.stdin {
            Some(input) => input.write_all(bytes).map_err(fault_of),
            None => Err(GateFault::Device(ErrorCode::Other)),
        }
    }

    /// The next piece of its output within a limit.
    pub(crate) fn read(&mut self, rt: &(impl Wait + Clock), limit: u32) -> Result<Piece, ErrorCode>
        ensures session { self.new.session ≡ self.old.session }
        ensures ok { IfOk result (λ p. (fits (action.Read limit) (reply.Piece p) ≡ true) × Joins (action.Read limit)
            (reply.Piece p) (taken_of self.old.output) (taken_of self.new.output)) }
        ensures err { IfErr result
            (λ code. Joins (action.Read limit) (reply.Failed code) (taken_of self.old.output) (taken_of self.new.output)) }
    {
        let Some(output) = &mut self.output else {
            return Err(ErrorCode::Other);
        };
        match output.read(rt, limit) {
            (waited, Some(Item::Chunk(bytes))) => Ok(Piece::Chunk(waited, bytes)),
            (waited, Some(Item::End)) => Ok(Piece::End(waited)),
            (_, Some(Item::Fault(code))) => Err(code),
            (_, None) => Ok(Piece::Silence),
        }
    }

    /// Closes the child's input and lets its output go.
    pub(crate) fn close(&mut self) -> Result<(), ErrorCode>
        ensures session { self.new.session ≡ self.old.session }
        ensures ok { OnOk result (self.new.output ≡ None) }
        ensures err { OnErr result (self.new.output ≡ self.old.output) }
    {
        let Some(output) = self.output.take() else {
            return Err(ErrorCode::Other);
        };
        if let Some(child) = &mut self.child {
            child.stdin = None;
        }
        output.let_go();
        Ok(())
    }

    /// Waits for the child to end. Its input is closed first.
    pub(crate) fn wait(&mut self) -> Result<Ended, ErrorCode>
        ensures session { self.new.session ≡ self.old.session }
        ensures output { self.new.output ≡ self.old.output }
        ensures ok { IfOk result (λ e. fits action.Wait (reply.Ended e) ≡ true) }
    {
        let Some(child) = &mut self.child else {
            return Err(ErrorCode::Other);
        };
        match child.wait() {
            Ok(status) => ended_of(status).ok_or(ErrorCode::Other),
            Err(_) => Err(ErrorCode::Other),
        }
    }

    /// Kills and reaps the child, takes what is left of its output, and tells of the session, where
    /// it isn't closed.
    pub(crate) fn stop<R: Threads + Wait + Clock>(self, rt: &R) -> Option<Account>
        ensures { MatchOption result (self.output ≡ None) (λ a. (a.session ≡ self.session) × TellsOf self.output a) }
    {
        let Slot {
            session,
            child,
            output,
        } = self;
        if let Some(mut child) = child {
            kill(&mut child);
        }
        Some(Account {
            session,
            finished: output?.stop(rt),
        })
    }
}
