//! Starting a child, and how it ended.
ghost use Rattle.std.specs.Prelude.{◌≡◌, IfSome, true};
ghost use Rattle.dg_transcript.specs.declared.cursor.Action.TheVariants as action;
ghost use Rattle.dg_gate.specs.declared.reply.Reply.TheVariants as reply;
ghost use Rattle.dg_gate.specs.Reply.{fits};

use crate::fault::fault_of;
use dg_bytes::Bytes;
use dg_gate::{Ended, GateFault};
use dg_transcript::ErrorCode;
use std::alloc::Global;
use std::os::unix::process::ExitStatusExt;
use std::process::{Child, Command, ExitStatus, Processes, Stdio, SystemProcess};

/// A child of the system.
pub(crate) type Process = Child<SystemProcess>;

// A word as the system takes it. One that isn't UTF-8 is refused.
fn text_of(word: &Bytes) -> Result<&str, GateFault> {
    match str::from_utf8(word.as_slice()) {
        Ok(text) => Ok(text),
        Err(_) => Err(GateFault::Device(ErrorCode::Other)),
    }
}

// Adds a word to a command.
fn add_word(command: &mut Command<Global>, word: &Bytes) -> Result<(), GateFault> {
    let word = text_of(word)?;
    match command.arg(word) {
        Ok(_) => Ok(()),
        Err(_) => Err(GateFault::Memory),
    }
}

// Adds words to a command, in order.
fn add_words(command: &mut Command<Global>, words: &[Bytes]) -> Result<(), GateFault> {
    for word in words {
        add_word(command, word)?;
    }
    Ok(())
}

// The command that runs a program with these arguments, with pipes for its input and output, and no error stream.
fn command_for(
    alloc: Global,
    program: &Bytes,
    arguments: &[Bytes],
) -> Result<Command<Global>, GateFault> {
    let program = text_of(program)?;
    let Ok(mut command) = Command::new(alloc, program) else {
        return Err(GateFault::Memory);
    };
    command.stdin(Stdio::piped());
    command.stdout(Stdio::piped());
    command.stderr(Stdio::null());
    match add_words(&mut command, arguments) {
        Ok(()) => Ok(command),
        Err(fault) => Err(fault),
    }
}

// The command of these words.
fn command_of(alloc: Global, words: &[Bytes]) -> Result<Command<Global>, GateFault> {
    match words.split_first() {
        Some((program, arguments)) => command_for(alloc, program, arguments),
        None => Err(GateFault::Device(ErrorCode::Other)),
    }
}

/// Starts a child by these words, with pipes for its input and output; its error stream is let go.
pub(crate) fn start<R: Processes<Started = SystemProcess>>(
    rt: &R,
    alloc: Global,
    words: &[Bytes],
) -> Result<Process, GateFault> {
    command_of(alloc, words)?.spawn(rt).map_err(fault_of)
}

/// Kills a child that still runs, and reaps it.
pub(crate) fn kill(child: &mut Process) {
    let _ = child.kill();
    let _ = child.wait();
}

/// How a child ended.
pub(crate) fn ended_of(status: ExitStatus) -> Option<Ended>
    ensures { IfSome result (λ e. fits action.Wait (reply.Ended e) ≡ true) }
{
    if let Some(code) = status.code() {
        return u8::try_from(code).ok().map(Ended::Exited);
    }
    match status.signal().map(u8::try_from) {
        Some(Ok(signal)) => {
            let ended = Ended::Killed(signal);
            if ended.fits() { Some(ended) } else { None }
        }
        _ => None,
    }
}
