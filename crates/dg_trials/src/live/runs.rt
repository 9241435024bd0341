//! Live runs over a gate that answers from a list, and their replays.
use crate::live::desk::{Desk, test};
use anyhow::Result;
use dg_bytes::Bytes;
use dg_gate::{Gate, Reply, ScriptGate};
use dg_live::run_live;
use dg_transcript::encode;
use std::alloc::Global;
use std::collections::VecDeque;

/// What a live run came to.
#[derive(Drop)]
pub struct Run {
    /// The text of its transcript.
    pub transcript: Bytes,
    /// The report of its record.
    pub report: Bytes,
    /// How many answers of the gate were not asked for.
    pub left: usize,
    /// How many calls failed.
    pub failures: u64,
    /// What is wrong with its record or its replay.
    pub flaw: Option<&'static str>,
}

/// The report and the status of a script with this transcript.
fn replayed(alloc: Global, script: &[u8], text: &Bytes) -> Result<(Bytes, u8)> {
    let mut desk = Desk::new(alloc, script)?;
    desk.put(text)?;
    Ok(desk.core.settle(alloc)?)
}

/// What is wrong with a run that was kept with this report.
fn flaw(
    alloc: Global,
    desk: &mut Desk,
    script: &[u8],
    text: &Bytes,
    kept: &(Bytes, u8),
) -> Result<Option<&'static str>> {
    desk.drop_transcript()?;
    desk.put(text)?;
    match desk.report()? {
        Some(again) if again == *kept => {}
        _ => return Ok(Some("another report with the transcript put again")),
    }
    if replayed(alloc, script, text)? == *kept {
        Ok(None)
    } else {
        Ok(Some("another report by a replay"))
    }
}

/// Runs a script over a gate with these answers, and keeps the run.
pub fn run_script(alloc: Global, script: &[u8], replies: VecDeque<Reply>) -> Result<Run> {
    let mut desk = Desk::new(alloc, script)?;
    let mut gate = ScriptGate::new(replies);
    let (record, transcript) = run_live(alloc, test(alloc)?, &mut gate, &mut desk)?;
    let text = encode(alloc, &transcript)?;
    let is_kept = desk.core.commit_live(alloc, record, transcript).is_ok();
    let (report, flaw) = match desk.report()? {
        Some(kept) if is_kept => {
            let flaw = flaw(alloc, &mut desk, script, &text, &kept)?;
            (kept.0, flaw)
        }
        _ => (Bytes::new(alloc), Some("no report of the run")),
    };
    Ok(Run {
        transcript: text,
        report,
        left: gate.left(),
        failures: gate.failures(),
        flaw,
    })
}
