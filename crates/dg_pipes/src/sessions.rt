//! The sessions of a gate, by number.
ghost use Rattle.std.specs.Prelude.{◌≡◌, ◌<◌, ◌≤◌, ◌-◌, ◌+◌, [], ◌++◌, ◌∷◌, length, IfSome, IfOk, IfErr, OnOk, true, vec_len, vec_capacity};
ghost use Rattle.dg_transcript.specs.declared.cursor.Action.TheVariants as action;
ghost use Rattle.dg_gate.specs.declared.fault.GateFault.TheVariants as fault;
ghost use Rattle.dg_gate.specs.declared.reply.Reply.TheVariants as reply;
ghost use Rattle.dg_gate.specs.Reply.{fits};
ghost use Rattle.dg_pipes.specs.Steps.{PipeStep, FailsBy, Accounts};

use crate::account::Account;
use crate::session::Fresh;
use crate::slot::Slot;
use dg_bytes::{Bytes, Seq};
use dg_gate::{Ended, GateFault, Piece};
use dg_transcript::ErrorCode;
use std::alloc::Global;
use std::process::{ChildStdout, Processes, SystemProcess};
use std::sync::Wait;
use std::thread::Threads;
use std::time::Clock;

/// The sessions from 1 on, with room for an account of each.
#[derive(Drop)]
pub struct Sessions {
    pub slots: Vec<Slot>,
    accounts: Vec<Account>,
    pub ghost room: { vec_len slots ≤ vec_capacity accounts },
    pub ghost none_told: { accounts.items ≡ [] },
}

impl Sessions {
    /// No sessions.
    pub(crate) fn new(alloc: Global) -> Sessions
        ensures { result.slots.items ≡ [] }
    {
        Sessions {
            slots: Vec::new(alloc),
            accounts: Vec::new(alloc),
        }
    }

    // The place of a session that there is.
    fn place(&self, session: u32) -> Option<usize>
        ensures { IfSome result (λ i. (i ≡ session - 1) × (i < length self.now.slots.items)) }
    {
        let place = session.checked_sub(1)? as usize;
        if place < self.slots.len() {
            Some(place)
        } else {
            None
        }
    }

    // One session more, for which there is room.
    fn push(&mut self, slot: Slot)
        requires { (vec_len self.old.slots < vec_capacity self.old.slots) ×
            (vec_len self.old.slots < vec_capacity self.old.accounts) }
        ensures { self.new.slots.items ≡ self.old.slots.items ++ slot ∷ [] }
    {
        let Ok(()) = self.slots.push(slot) else {
            unreachable!()
        };
    }

    // Room for one session more.
    fn reserve(&mut self) -> Result<(), GateFault>
        ensures ok { OnOk result ((vec_len self.new.slots < vec_capacity self.new.slots) ×
            (vec_len self.new.slots < vec_capacity self.new.accounts)) }
        ensures slots { self.new.slots.items ≡ self.old.slots.items }
        ensures err { IfErr result (λ f. f ≡ fault.Memory) }
    {
        let count = self.slots.len();
        match self.slots.reserve(1) {
            Ok(()) => {}
            Err(_) => return Err(GateFault::Memory),
        }
        match self.accounts.reserve(count + 1) {
            Ok(()) => Ok(()),
            Err(_) => Err(GateFault::Memory),
        }
    }

    /// Starts a child as the next session. A failed start uses its number up.
    pub(crate) fn spawn<R, F>(
        &mut self,
        rt: &R,
        alloc: Global,
        opener: &F,
        session: u32,
        words: &Seq<Bytes>,
    ) -> Result<(), GateFault>
    where
        R: Processes<Started = SystemProcess>,
        F: Fn(ChildStdout) -> Result<Fresh, GateFault>,
        requires { F.IsAlwaysCallable opener.now }
        ensures ok { OnOk result
            (PipeStep self.old.slots.items session (action.Spawn words.now) reply.Started self.new.slots.items) }
        ensures err { IfErr result
            (FailsBy (λ r. PipeStep self.old.slots.items session (action.Spawn words.now) r self.new.slots.items)) }
    {
        if session == 0 || session as usize - 1 != self.slots.len() {
            return Err(GateFault::Device(ErrorCode::Other));
        }
        self.reserve()?;
        match Slot::start(rt, alloc, opener, session, words.as_slice()) {
            Ok(slot) => {
                self.push(slot);
                Ok(())
            }
            Err(GateFault::Device(code)) => {
                self.push(Slot::unused(session));
                Err(GateFault::Device(code))
            }
            Err(GateFault::Memory) => Err(GateFault::Memory),
        }
    }

    /// Sends bytes to a session's child.
    pub(crate) fn send(&mut self, session: u32, bytes: &Bytes) -> Result<(), GateFault>
        ensures ok { OnOk result (PipeStep self.old.slots.items session (action.Send bytes.now) reply.Sent self.new.slots.items) }
        ensures err { IfErr result
            (FailsBy (λ r. PipeStep self.old.slots.items session (action.Send bytes.now) r self.new.slots.items)) }
    {
        let Some(place) = self.place(session) else {
            return Err(GateFault::Device(ErrorCode::Other));
        };
        let slot = &mut self.slots[place];
        slot.send(bytes.as_slice())
    }

    /// The next piece of a session's output.
    pub(crate) fn read(
        &mut self,
        rt: &(impl Wait + Clock),
        session: u32,
        limit: u32,
    ) -> Result<Piece, ErrorCode>
        ensures fits { IfOk result (λ p. fits (action.Read limit) (reply.Piece p) ≡ true) }
        ensures ok { IfOk result
            (λ p. PipeStep self.old.slots.items session (action.Read limit) (reply.Piece p) self.new.slots.items) }
        ensures err { IfErr result
            (λ code. PipeStep self.old.slots.items session (action.Read limit) (reply.Failed code) self.new.slots.items) }
    {
        let Some(place) = self.place(session) else {
            return Err(ErrorCode::Other);
        };
        let slot = &mut self.slots[place];
        slot.read(rt, limit)
    }

    /// Closes a session.
    pub(crate) fn close(&mut self, session: u32) -> Result<(), ErrorCode>
        ensures ok { OnOk result (PipeStep self.old.slots.items session action.Close reply.Closed self.new.slots.items) }
        ensures err { IfErr result
            (λ code. PipeStep self.old.slots.items session action.Close (reply.Failed code) self.new.slots.items) }
    {
        let Some(place) = self.place(session) else {
            return Err(ErrorCode::Other);
        };
        let slot = &mut self.slots[place];
        slot.close()
    }

    /// Waits for a session's child.
    pub(crate) fn wait(&mut self, session: u32) -> Result<Ended, ErrorCode>
        ensures fits { IfOk result (λ e. fits action.Wait (reply.Ended e) ≡ true) }
        ensures ok { IfOk result (λ e. PipeStep self.old.slots.items session action.Wait (reply.Ended e) self.new.slots.items) }
        ensures err { IfErr result
            (λ code. PipeStep self.old.slots.items session action.Wait (reply.Failed code) self.new.slots.items) }
    {
        let Some(place) = self.place(session) else {
            return Err(ErrorCode::Other);
        };
        let slot = &mut self.slots[place];
        slot.wait()
    }

    /// Stops each session, and tells of those that weren't closed, in order. No memory is taken.
    pub(crate) fn stop<R: Threads + Wait + Clock>(self, rt: &R) -> Seq<Account>
        ensures { Accounts self.slots.items result }
    {
        let Sessions {
            mut slots,
            mut accounts,
        } = self;
        while let Some(slot) = slots.pop() {
            if let Some(account) = slot.stop(rt) {
                let Ok(()) = accounts.push(account) else {
                    unreachable!()
                };
            }
        }
        accounts.reverse();
        Seq::from_vec(accounts)
    }
}
