//! The transcripts that a run writes.
use crate::suite::text_of;
use dg_bench::Call;
use dg_bytes::TryCopy;
use dg_folders::{RunFault, transcript_path, write_transcript};
use dg_transcript::encode;
use dg_world::TestId;
use indexmap::IndexMap;
use std::alloc::Global;
use std::rt::Files;

/// Where the transcript of a test stands in the folder of a run.
pub(crate) fn path_of(alloc: Global, outdir: &str, test: &TestId) -> Result<String, RunFault> {
    let board = text_of(alloc, test.board().as_slice())?;
    let script = text_of(alloc, test.script().as_slice())?;
    Ok(transcript_path(alloc, outdir, board.as_str(), script.as_str())?)
}

/// Where the live runs of tests stand among calls.
fn places_of(alloc: Global, calls: &[Call]) -> Result<IndexMap<TestId, usize>, RunFault> {
    let mut places = IndexMap::new(alloc);
    for (place, call) in calls.iter().enumerate() {
        if let Call::Live(record, _) = call {
            places.insert(record.test().copy(alloc)?, place)?;
        }
    }
    Ok(places)
}

/// Writes the transcripts of the live runs among calls, in the order of the tests.
pub(crate) fn write_transcripts<R: Files + AllocGlobal>(
    rt: &R,
    outdir: &str,
    tests: &[TestId],
    calls: &[Call],
) -> Result<(), RunFault> {
    let alloc = rt.alloc();
    let places = places_of(alloc, calls)?;
    for test in tests {
        let call = match places.get(test) {
            Some(place) => calls.get(*place),
            None => None,
        };
        if let Some(Call::Live(_, transcript)) = call {
            let text = encode(alloc, transcript)?;
            let path = path_of(alloc, outdir, test)?;
            write_transcript(rt, path.as_str(), text.as_slice())?;
        }
    }
    Ok(())
}
