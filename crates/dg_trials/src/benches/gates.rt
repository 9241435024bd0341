//! Gates that answer from lists, and wait.
use dg_bench::MakeGate;
use dg_bytes::{Bytes, Seq};
use dg_gate::{Ended, Gate, GateFault, Piece, Reply, ScriptGate};
use dg_transcript::ErrorCode;
use std::alloc::{AllocError, Global};
use std::collections::VecDeque;
use std::sync::atomic::{AtomicU64, Ordering};
use std::thread;
use std::time::{Clock, Duration};

/// What a read may wait for, in turns of a millisecond.
const TURNS: u32 = 10_000;

/// A number that others raise.
#[derive(Drop)]
pub struct Signal {
    raised: AtomicU64,
}

impl Signal {
    /// A number that nobody has raised.
    pub fn new() -> Signal {
        Signal {
            raised: AtomicU64::new(0),
        }
    }

    /// Raises it.
    pub fn raise(&self) {
        self.raised.fetch_add(1, Ordering::SeqCst);
    }

    /// How often it was raised.
    pub fn raised(&self) -> u64 {
        self.raised.load(Ordering::SeqCst)
    }

    /// Waits until it was raised so often, or for too long. Tells whether it was.
    pub fn wait(&self, clock: &impl Clock, wanted: u64) -> bool {
        for _ in 0..TURNS {
            if self.raised() >= wanted {
                return true;
            }
            thread::sleep(clock, Duration::from_millis(1));
        }
        false
    }
}

/// A gate with one child, which tells where it is started. Its first read waits for a signal, and fails where that does not
/// come.
#[derive(Drop)]
pub struct WaitingGate<'a, R: Clock> {
    rt: &'a R,
    started: &'a Signal,
    awaited: &'a Signal,
    wanted: u64,
    answers: ScriptGate,
}

impl<'a, R: Clock> Gate for WaitingGate<'a, R> {
    ghost step = { λ before session call told after. Unit {0} };

    ghost is_ready = { λ g. Unit {0} };

    ghost count = { λ g. g.answers.failures };

    fn failures(&self) -> u64 {
        self.answers.failures()
    }

    fn spawn(&mut self, session: u32, words: &Seq<Bytes>) -> Result<(), GateFault> {
        self.started.raise();
        self.answers.spawn(session, words)
    }

    fn send(&mut self, session: u32, bytes: &Bytes) -> Result<(), GateFault> {
        self.answers.send(session, bytes)
    }

    fn read(&mut self, session: u32, limit: u32) -> Result<Piece, GateFault> {
        if !self.awaited.wait(self.rt, self.wanted) {
            let _started = self.answers.wait(session)?;
        }
        self.answers.read(session, limit)
    }

    fn close(&mut self, session: u32) -> Result<(), GateFault> {
        self.answers.close(session)
    }

    fn wait(&mut self, session: u32) -> Result<Ended, GateFault> {
        self.answers.wait(session)
    }
}

/// Gates whose child writes an `x`, for scripts that expect one.
#[derive(Drop)]
pub struct Waiting<'a, R: Clock> {
    pub rt: &'a R,
    pub alloc: Global,
    /// Raised where a gate starts its child.
    pub started: &'a Signal,
    /// What the first read waits for, and how often that has to be raised.
    pub awaited: &'a Signal,
    pub wanted: u64,
}

impl<'a, R: Clock> MakeGate for Waiting<'a, R> {
    type Made = WaitingGate<'a, R>;

    fn make(&self, _worker: usize) -> Result<WaitingGate<'a, R>, AllocError> {
        let mut answers = VecDeque::new(self.alloc);
        answers.push_back(Reply::Started)?;
        let chunk = Bytes::from_slice(self.alloc, b"x")?;
        answers.push_back(Reply::Piece(Piece::Chunk(0, chunk)))?;
        Ok(WaitingGate {
            rt: self.rt,
            started: self.started,
            awaited: self.awaited,
            wanted: self.wanted,
            answers: ScriptGate::new(answers),
        })
    }

    fn end(&self, _worker: usize, _gate: WaitingGate<'a, R>) {}
}

/// Gates whose child is started, and reads nothing: the first send fails.
#[derive(Drop)]
pub struct Deaf {
    pub alloc: Global,
}

impl MakeGate for Deaf {
    type Made = ScriptGate;

    fn make(&self, _worker: usize) -> Result<ScriptGate, AllocError> {
        let mut answers = VecDeque::new(self.alloc);
        answers.push_back(Reply::Started)?;
        answers.push_back(Reply::Failed(ErrorCode::BrokenPipe))?;
        Ok(ScriptGate::new(answers))
    }

    fn end(&self, _worker: usize, _gate: ScriptGate) {}
}
