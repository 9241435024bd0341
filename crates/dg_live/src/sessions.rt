//! The transcript of what was read.
ghost use Rattle.std.specs.Prelude.{◌≡◌, ◌-◌, IfOk, OnOk};
ghost use Rattle.dg_transcript.specs.Limits.{IsTranscript};
ghost use Rattle.dg_living.specs.Living.{with_entry};
ghost use Rattle.dg_living.specs.Replayed.{told_entry, transcript_of};

use dg_bytes::{Seq, TryCopy};
use dg_transcript::{Entry, Transcript};
use dg_world::{Answer, Question, Read};
use std::alloc::{AllocError, Global};

/// Adds an entry to its session, counted from 1, or as the first of a new one.
fn add_entry(
    alloc: Global,
    sessions: &mut Vec<Seq<Entry>>,
    session: u32,
    entry: Entry,
) -> Result<(), AllocError>
    ensures { OnOk result (sessions.new.items ≡ with_entry (session - 1) entry sessions.old.items) }
{
    let index = (session as usize).saturating_sub(1);
    if index < sessions.len() {
        sessions[index].push(entry)?;
    } else {
        let mut entries = Seq::new(alloc);
        entries.push(entry)?;
        sessions.push(entries)?;
    }
    Ok(())
}

/// Adds what was read, if it is an entry.
fn add_read(alloc: Global, sessions: &mut Vec<Seq<Entry>>, read: &Read) -> Result<(), AllocError>
    ensures { OnOk result (sessions.new.items ≡ told_entry read.now.question read.now.answer sessions.old.items) }
{
    match (&read.question, &read.answer) {
        (Question::Entry(place), Answer::Entry(entry)) => {
            add_entry(alloc, sessions, place.session, entry.copy(alloc)?)
        }
        _ => Ok(()),
    }
}

/// The entries that were read, session by session.
pub(crate) fn sessions_in(alloc: Global, reads: &[Read]) -> Result<Seq<Seq<Entry>>, AllocError>
    ensures { IfOk result (λ ss. ss ≡ transcript_of reads.now) }
{
    let mut sessions = Vec::new(alloc);
    for read in reads {
        add_read(alloc, &mut sessions, read)?;
    }
    Ok(Seq::from_vec(sessions))
}

/// The transcript of what was read.
pub(crate) fn transcript_in(alloc: Global, reads: &[Read]) -> Result<Transcript, AllocError>
    requires { IsTranscript (transcript_of reads.now) }
    ensures { IfOk result (λ t. t ≡ transcript_of reads.now) }
{
    match Transcript::from_sessions(sessions_in(alloc, reads)?) {
        Ok(transcript) => Ok(transcript),
        Err(_) => unreachable!(),
    }
}
