//! Growths that are refused to a core.
use super::core_with;
use dg_bytes::Bytes;
use dg_core::{Core, CoreFault};
use dg_world::Edit;
use std::alloc::{AllocError, Global};

/// A script, the transcript of its child, and the report of it.
#[derive(Clone, Copy)]
pub struct Script<'a> {
    pub text: &'a [u8],
    pub transcript: &'a [u8],
    pub report: &'a [u8],
}

/// A core with a script and its transcript.
fn core_of(alloc: Global, script: Script<'_>) -> Result<Core, AllocError> {
    let mut core = core_with(alloc, script.text)?;
    let transcript = Edit::PutTranscript(
        Bytes::from_slice(alloc, b"unix")?,
        Bytes::from_slice(alloc, b"t/a.exp")?,
        Bytes::from_slice(alloc, script.transcript)?,
    );
    match core.edit(alloc, transcript) {
        Ok(()) => Ok(core),
        Err(_) => Err(AllocError),
    }
}

/// Whether a sum is this report of status 0; nothing where it is another.
fn is_report(text: &Bytes, status: u8, report: &[u8]) -> Option<bool> {
    if text.is(report) && status == 0 {
        return Some(true);
    }
    None
}

/// Whether a core gives this report, or not for want of memory; nothing where anything else comes of it.
fn reports(alloc: Global, core: &mut Core, report: &[u8]) -> Option<bool> {
    match core.settle(alloc) {
        Ok((text, status)) => is_report(&text, status, report),
        Err(CoreFault::Memory) => Some(false),
        Err(CoreFault::PatternLost(_)) => None,
    }
}

/// A core is made, given a script and its transcript, and settled beside a block of so many bytes. Where memory ran out in settling, it
/// settles once the block is gone.
pub fn round(alloc: Global, pad: usize, script: Script<'_>) -> Option<bool> {
    let pad = Vec::<u8>::with_capacity(alloc, pad);
    let Ok(mut core) = core_of(alloc, script) else {
        return Some(false);
    };
    let first = reports(alloc, &mut core, script.report);
    drop(pad);
    let second = reports(alloc, &mut core, script.report);
    let is_right = second == Some(true) && core.evaluations() <= 2;
    if is_right { first } else { None }
}
