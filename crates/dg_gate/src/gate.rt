//! The trait of all gates.
use crate::fault::GateFault;
use crate::reply::{Ended, Piece};
use dg_bytes::{Bytes, Seq};

/// A way to child processes. Sessions are numbered from 1, in the order in which they are started.
/// A call that the child or the system refuses raises the count of failures by one and answers its
/// code; want of memory leaves the count.
pub trait Gate {
    ghost use Rattle.std.specs.Prelude.{ℕ, ◌≡◌, ◌-◌, ◌^◌, ◌<◌, OnOk, IfOk, IfErr};
    ghost use Rattle.dg_transcript.specs.declared.cursor.Action.{Action};
    ghost use Rattle.dg_transcript.specs.declared.cursor.Action.TheVariants as action;
    ghost use Rattle.dg_gate.specs.declared.reply.Reply.{Reply as Told};
    ghost use Rattle.dg_gate.specs.declared.reply.Reply.TheVariants as reply;
    ghost use Rattle.dg_gate.specs.Reply.{Answered, Refused};

    // One call: the gate before, the session, the call, the answer, and the gate after.
    ghost step: { Self → ℕ → Action → Told → Self → Type 0 };

    // What has to hold of a gate before a call, as that what it calls itself may be called.
    ghost is_ready: { Self → Type 0 };

    // How many calls were refused.
    ghost count: { Self → ℕ };

    /// How many calls were refused so far.
    fn failures(&self) -> u64
        ensures { result ≡ count self.now };

    /// Starts a child by these words, as a session of this number.
    fn spawn(&mut self, session: u32, words: &Seq<Bytes>) -> Result<(), GateFault>
        requires room { count self.old < 2 ^ 64 - 1 }
        requires ready { is_ready self.old }
        ensures ready { is_ready self.new }
        ensures ok { OnOk result (Answered (λ r. step self.old session (action.Spawn words.now) r self.new)
            (action.Spawn words.now) (count self.old) (count self.new) reply.Started) }
        ensures fault { IfErr result
            (Refused (λ r. step self.old session (action.Spawn words.now) r self.new) (count self.old) (count self.new)) };

    /// Sends bytes to the child.
    fn send(&mut self, session: u32, bytes: &Bytes) -> Result<(), GateFault>
        requires room { count self.old < 2 ^ 64 - 1 }
        requires ready { is_ready self.old }
        ensures ready { is_ready self.new }
        ensures ok { OnOk result (Answered (λ r. step self.old session (action.Send bytes.now) r self.new)
            (action.Send bytes.now) (count self.old) (count self.new) reply.Sent) }
        ensures fault { IfErr result
            (Refused (λ r. step self.old session (action.Send bytes.now) r self.new) (count self.old) (count self.new)) };

    /// Waits for the child's next bytes or the end of its output, for so many milliseconds at most.
    fn read(&mut self, session: u32, limit: u32) -> Result<Piece, GateFault>
        requires room { count self.old < 2 ^ 64 - 1 }
        requires ready { is_ready self.old }
        ensures ready { is_ready self.new }
        ensures ok { IfOk result (λ p. Answered (λ r. step self.old session (action.Read limit) r self.new)
            (action.Read limit) (count self.old) (count self.new) (reply.Piece p)) }
        ensures fault { IfErr result
            (Refused (λ r. step self.old session (action.Read limit) r self.new) (count self.old) (count self.new)) };

    /// Closes the session.
    fn close(&mut self, session: u32) -> Result<(), GateFault>
        requires room { count self.old < 2 ^ 64 - 1 }
        requires ready { is_ready self.old }
        ensures ready { is_ready self.new }
        ensures ok { OnOk result (Answered (λ r. step self.old session action.Close r self.new) action.Close
            (count self.old) (count self.new) reply.Closed) }
        ensures fault { IfErr result
            (Refused (λ r. step self.old session action.Close r self.new) (count self.old) (count self.new)) };

    /// Waits for the child to end.
    fn wait(&mut self, session: u32) -> Result<Ended, GateFault>
        requires room { count self.old < 2 ^ 64 - 1 }
        requires ready { is_ready self.old }
        ensures ready { is_ready self.new }
        ensures ok { IfOk result (λ e. Answered (λ r. step self.old session action.Wait r self.new) action.Wait
            (count self.old) (count self.new) (reply.Ended e)) }
        ensures fault { IfErr result
            (Refused (λ r. step self.old session action.Wait r self.new) (count self.old) (count self.new)) };
}
