//! A gate that answers from a list.
ghost use Rattle.std.specs.Prelude.{◌≡◌, ◌+◌, ◌-◌, ◌^◌, ◌<◌, length};
ghost use Rattle.dg_gate.specs.declared.fault.GateFault.TheVariants as fault;
ghost use Rattle.dg_gate.specs.Reply.{code_in};

use crate::fault::GateFault;
use crate::gate::Gate;
use crate::reply::{Ended, Piece, Reply};
use dg_bytes::{Bytes, Seq};
use dg_transcript::ErrorCode;
use std::collections::VecDeque;

/// A gate without children. Each call is answered by the next of a list, whatever the session;
/// past its end, and where the answer does not fit the call, by code 4.
#[derive(Drop)]
pub struct ScriptGate {
    answers: VecDeque<Reply>,
    failures: u64,
}

impl ScriptGate {
    /// A gate that gives these answers in their order. No call was refused yet.
    pub fn new(answers: VecDeque<Reply>) -> ScriptGate
        ensures answers { result.answers ≡ answers }
        ensures none_failed { result.failures ≡ 0 }
    {
        ScriptGate {
            answers,
            failures: 0,
        }
    }

    /// How many answers were not given yet.
    pub fn left(&self) -> usize
        ensures { result ≡ length self.now.answers.items }
    {
        self.answers.len()
    }

    // Counts a failure: the list's own, or code 4.
    fn refuse(&mut self, reply: Option<Reply>) -> GateFault
        requires { self.old.failures < 2 ^ 64 - 1 }
        ensures code { result ≡ fault.Device (code_in reply) }
        ensures count { self.new ≡ record self.old { failures = self.old.failures + 1 } }
    {
        self.failures += 1;
        match reply {
            Some(Reply::Failed(code)) => GateFault::Device(code),
            _ => GateFault::Device(ErrorCode::Other),
        }
    }
}

impl Gate for ScriptGate {
    ghost use Rattle.std.specs.Prelude.{◌≡◌, drop};
    ghost use Rattle.dg_gate.specs.Reply.{first_reply};

    ghost step = { λ before session call told after. (told ≡ first_reply call before.answers.items) × (after.answers.items ≡ drop 1 before.answers.items) };

    ghost is_ready = { λ g. Unit {0} };

    ghost count = { λ g. g.failures };

    fn failures(&self) -> u64 {
        self.failures
    }

    fn spawn(&mut self, _session: u32, _words: &Seq<Bytes>) -> Result<(), GateFault> {
        match self.answers.pop_front() {
            Some(Reply::Started) => Ok(()),
            other => Err(self.refuse(other)),
        }
    }

    fn send(&mut self, _session: u32, _bytes: &Bytes) -> Result<(), GateFault> {
        match self.answers.pop_front() {
            Some(Reply::Sent) => Ok(()),
            other => Err(self.refuse(other)),
        }
    }

    fn read(&mut self, _session: u32, limit: u32) -> Result<Piece, GateFault> {
        match self.answers.pop_front() {
            Some(Reply::Piece(piece)) => {
                if piece.fits(limit) {
                    Ok(piece)
                } else {
                    Err(self.refuse(None))
                }
            }
            other => Err(self.refuse(other)),
        }
    }

    fn close(&mut self, _session: u32) -> Result<(), GateFault> {
        match self.answers.pop_front() {
            Some(Reply::Closed) => Ok(()),
            other => Err(self.refuse(other)),
        }
    }

    fn wait(&mut self, _session: u32) -> Result<Ended, GateFault> {
        match self.answers.pop_front() {
            Some(Reply::Ended(ended)) => {
                if ended.fits() {
                    Ok(ended)
                } else {
                    Err(self.refuse(None))
                }
            }
            other => Err(self.refuse(other)),
        }
    }
}
