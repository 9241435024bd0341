//! One call of a gate, and the entry that it makes.
ghost use Rattle.std.specs.Prelude.{◌≡◌, ◌+◌, ◌-◌, ◌^◌, ◌<◌, ◌≤◌, IfOk, OnErr, Some};
ghost use Rattle.dg_gate.specs.declared.reply.Reply.{Reply as Told};
ghost use Rattle.dg_gate.specs.Reply.{entry_of};
ghost use Rattle.dg_gate.specs.Made.{Made};
ghost use Rattle.dg_transcript.specs.declared.cursor.Action.TheVariants as action;

use crate::fault::GateFault;
use crate::gate::Gate;
use crate::reply::{Ended, Piece};
use dg_bytes::{Bytes, Seq, TryCopy};
use dg_transcript::{Action, Entry};
use std::alloc::{AllocError, Global};

/// Asks the gate for the action, once, and gives the entry that its answer makes: a refusal is the
/// failed kind of entry with its code, and a silence lasts the whole limit. Memory that the entry
/// needs is taken before the call, so that no call stands without its entry for want of it; the one
/// other want of memory is the gate's own.
pub fn perform<G: Gate>(
    gate: &mut G,
    alloc: Global,
    session: u32,
    action: &Action,
) -> Result<Entry, AllocError>
    requires room { G.count gate.old < 2 ^ 64 - 1 }
    requires ready { G.is_ready gate.old }
    ensures ready { G.is_ready gate.new }
    ensures entry { IfOk result
        (λ e. (r : Told) × G.step gate.old session action.now r gate.new × (entry_of action.now r ≡ Some e)) }
    ensures made { IfOk result (λ e. Made action.now e) }
    ensures count { G.count gate.new ≤ G.count gate.old + 1 }
    ensures memory { OnErr result (G.count gate.new ≡ G.count gate.old) }
{
    match action {
        Action::Spawn(words) => spawn(gate, alloc, session, words),
        Action::Send(bytes) => send(gate, alloc, session, bytes),
        Action::Read(limit) => read(gate, session, *limit),
        Action::Close => close(gate, session),
        Action::Wait => wait(gate, session),
    }
}

fn spawn<G: Gate>(
    gate: &mut G,
    alloc: Global,
    session: u32,
    words: &Seq<Bytes>,
) -> Result<Entry, AllocError>
    requires room { G.count gate.old < 2 ^ 64 - 1 }
    requires ready { G.is_ready gate.old }
    ensures ready { G.is_ready gate.new }
    ensures entry { IfOk result (λ e. (r : Told) × G.step gate.old session (action.Spawn words.now) r gate.new ×
        (entry_of (action.Spawn words.now) r ≡ Some e)) }
    ensures made { IfOk result (λ e. Made (action.Spawn words.now) e) }
    ensures count { G.count gate.new ≤ G.count gate.old + 1 }
    ensures memory { OnErr result (G.count gate.new ≡ G.count gate.old) }
{
    let copy = words.copy(alloc)?;
    match gate.spawn(session, words) {
        Ok(()) => Ok(Entry::Started(copy)),
        Err(GateFault::Device(code)) => Ok(Entry::NoStart(code, copy)),
        Err(GateFault::Memory) => Err(AllocError),
    }
}

fn send<G: Gate>(
    gate: &mut G,
    alloc: Global,
    session: u32,
    bytes: &Bytes,
) -> Result<Entry, AllocError>
    requires room { G.count gate.old < 2 ^ 64 - 1 }
    requires ready { G.is_ready gate.old }
    ensures ready { G.is_ready gate.new }
    ensures entry { IfOk result (λ e. (r : Told) × G.step gate.old session (action.Send bytes.now) r gate.new ×
        (entry_of (action.Send bytes.now) r ≡ Some e)) }
    ensures made { IfOk result (λ e. Made (action.Send bytes.now) e) }
    ensures count { G.count gate.new ≤ G.count gate.old + 1 }
    ensures memory { OnErr result (G.count gate.new ≡ G.count gate.old) }
{
    let copy = bytes.copy(alloc)?;
    match gate.send(session, bytes) {
        Ok(()) => Ok(Entry::Sent(copy)),
        Err(GateFault::Device(code)) => Ok(Entry::NoSend(code, copy)),
        Err(GateFault::Memory) => Err(AllocError),
    }
}

fn read<G: Gate>(gate: &mut G, session: u32, limit: u32) -> Result<Entry, AllocError>
    requires room { G.count gate.old < 2 ^ 64 - 1 }
    requires ready { G.is_ready gate.old }
    ensures ready { G.is_ready gate.new }
    ensures entry { IfOk result (λ e. (r : Told) × G.step gate.old session (action.Read limit) r gate.new ×
        (entry_of (action.Read limit) r ≡ Some e)) }
    ensures made { IfOk result (λ e. Made (action.Read limit) e) }
    ensures count { G.count gate.new ≤ G.count gate.old + 1 }
    ensures memory { OnErr result (G.count gate.new ≡ G.count gate.old) }
{
    match gate.read(session, limit) {
        Ok(Piece::Chunk(wait, bytes)) => Ok(Entry::Chunk(wait, bytes)),
        Ok(Piece::End(wait)) => Ok(Entry::End(wait)),
        Ok(Piece::Silence) => Ok(Entry::Silence(limit)),
        Err(GateFault::Device(code)) => Ok(Entry::NoRead(code)),
        Err(GateFault::Memory) => Err(AllocError),
    }
}

fn close<G: Gate>(gate: &mut G, session: u32) -> Result<Entry, AllocError>
    requires room { G.count gate.old < 2 ^ 64 - 1 }
    requires ready { G.is_ready gate.old }
    ensures ready { G.is_ready gate.new }
    ensures entry { IfOk result
        (λ e. (r : Told) × G.step gate.old session (action.Close) r gate.new × (entry_of (action.Close) r ≡ Some e)) }
    ensures made { IfOk result (λ e. Made (action.Close) e) }
    ensures count { G.count gate.new ≤ G.count gate.old + 1 }
    ensures memory { OnErr result (G.count gate.new ≡ G.count gate.old) }
{
    match gate.close(session) {
        Ok(()) => Ok(Entry::Closed),
        Err(GateFault::Device(code)) => Ok(Entry::NoClose(code)),
        Err(GateFault::Memory) => Err(AllocError),
    }
}

fn wait<G: Gate>(gate: &mut G, session: u32) -> Result<Entry, AllocError>
    requires room { G.count gate.old < 2 ^ 64 - 1 }
    requires ready { G.is_ready gate.old }
    ensures ready { G.is_ready gate.new }
    ensures entry { IfOk result
        (λ e. (r : Told) × G.step gate.old session (action.Wait) r gate.new × (entry_of (action.Wait) r ≡ Some e)) }
    ensures made { IfOk result (λ e. Made (action.Wait) e) }
    ensures count { G.count gate.new ≤ G.count gate.old + 1 }
    ensures memory { OnErr result (G.count gate.new ≡ G.count gate.old) }
{
    match gate.wait(session) {
        Ok(Ended::Exited(status)) => Ok(Entry::Exited(status)),
        Ok(Ended::Killed(signal)) => Ok(Entry::Killed(signal)),
        Err(GateFault::Device(code)) => Ok(Entry::NoWait(code)),
        Err(GateFault::Memory) => Err(AllocError),
    }
}
