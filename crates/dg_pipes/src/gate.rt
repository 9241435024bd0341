//! A gate over processes on pipes.
ghost use Rattle.std.specs.Prelude.{◌≡◌, ◌+◌, ◌-◌, ◌^◌, ◌<◌, []};
ghost use Rattle.dg_gate.specs.declared.fault.GateFault.TheVariants as fault;
ghost use Rattle.dg_pipes.specs.Steps.{Accounts};

use crate::account::Account;
use crate::session::Fresh;
use crate::sessions::Sessions;
use dg_bytes::{Bytes, Seq};
use dg_gate::{Ended, Gate, GateFault, Piece};
use dg_transcript::ErrorCode;
use std::alloc::Global;
use std::process::{ChildStdout, Processes, SystemProcess};
use std::sync::Wait;
use std::thread::Threads;
use std::time::Clock;

/// A gate whose children are processes of the system, with pipes for their input and output. Their
/// error streams are let go. One thread reads each output into a ring of 2,048 items; `close` lets the
/// child's input and its ring go; `stop` kills and reaps what is left.
///
/// A session's number is one more than that of the session before it. A call that doesn't fit its
/// session, and a word with a null or that isn't UTF-8, are failures with code 4.
#[derive(Drop)]
pub struct PipeGate<R, F: Fn(ChildStdout) -> Result<Fresh, GateFault>> {
    rt: R,
    alloc: Global,
    opener: F,
    failures: u64,
    sessions: Sessions,
}

impl<R, F: Fn(ChildStdout) -> Result<Fresh, GateFault>> PipeGate<R, F> {
    /// A gate without sessions, which starts a reader thread by `opener`, that is by `Fresh::open`. No
    /// call was refused yet.
    pub fn new(rt: R, alloc: Global, opener: F) -> PipeGate<R, F>
        ensures none_failed { result.failures ≡ 0 }
        ensures none_started { result.sessions.slots.items ≡ [] }
        ensures opener { result.opener ≡ opener }
    {
        PipeGate {
            rt,
            alloc,
            opener,
            failures: 0,
            sessions: Sessions::new(alloc),
        }
    }
}

// Counts a failure.
fn refused(failures: &mut u64, code: ErrorCode) -> GateFault
    requires { failures.old < 2 ^ 64 - 1 }
    ensures fault { result ≡ fault.Device code }
    ensures count { failures.new ≡ failures.old + 1 }
{
    *failures += 1;
    GateFault::Device(code)
}

impl<R, F> PipeGate<R, F>
where
    R: Threads + Wait + Clock + Drop,
    F: Fn(ChildStdout) -> Result<Fresh, GateFault> + Drop,
{
    /// Kills and reaps what is left, and tells of each session that was not closed, in order. Where
    /// its ring gave all that the reader pushed, what was read is a prefix of it.
    pub fn stop(self) -> Seq<Account>
        ensures { Accounts self.sessions.slots.items result }
    {
        let PipeGate {
            rt,
            alloc: _,
            opener: _,
            failures: _,
            sessions,
        } = self;
        sessions.stop(&rt)
    }
}

impl<R, F> Gate for PipeGate<R, F>
where
    R: Processes<Started = SystemProcess> + Wait + Clock,
    F: Fn(ChildStdout) -> Result<Fresh, GateFault>,
{
    ghost use Rattle.dg_pipes.specs.Steps.{PipeStep};

    ghost step = { λ before session call told after. PipeStep before.sessions.slots.items session call told after.sessions.slots.items };

    ghost is_ready = { λ g. F.IsAlwaysCallable g.opener };

    ghost count = { λ g. g.failures };

    fn failures(&self) -> u64 {
        self.failures
    }

    fn spawn(&mut self, session: u32, words: &Seq<Bytes>) -> Result<(), GateFault> {
        match self
            .sessions
            .spawn(&self.rt, self.alloc, &self.opener, session, words)
        {
            Ok(()) => Ok(()),
            Err(GateFault::Device(code)) => Err(refused(&mut self.failures, code)),
            Err(GateFault::Memory) => Err(GateFault::Memory),
        }
    }

    fn send(&mut self, session: u32, bytes: &Bytes) -> Result<(), GateFault> {
        match self.sessions.send(session, bytes) {
            Ok(()) => Ok(()),
            Err(GateFault::Device(code)) => Err(refused(&mut self.failures, code)),
            Err(GateFault::Memory) => Err(GateFault::Memory),
        }
    }

    fn read(&mut self, session: u32, limit: u32) -> Result<Piece, GateFault> {
        match self.sessions.read(&self.rt, session, limit) {
            Ok(piece) => Ok(piece),
            Err(code) => Err(refused(&mut self.failures, code)),
        }
    }

    fn close(&mut self, session: u32) -> Result<(), GateFault> {
        match self.sessions.close(session) {
            Ok(()) => Ok(()),
            Err(code) => Err(refused(&mut self.failures, code)),
        }
    }

    fn wait(&mut self, session: u32) -> Result<Ended, GateFault> {
        match self.sessions.wait(session) {
            Ok(ended) => Ok(ended),
            Err(code) => Err(refused(&mut self.failures, code)),
        }
    }
}
