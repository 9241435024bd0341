//! Scripts as long as a file may be, which nest as deep as they can: each ends in the lines of an error.
use super::whole::answered;
use std::alloc::{AllocError, Global};

/// How many brackets or braces fill a file.
const OPENINGS: usize = 1_048_576;

/// How many times `if {1} {` and `}` do.
const IFS: usize = 116_508;

/// A session that puts and reports a script: some text this many times, and then another as many times.
/// The texts are in hex digits.
fn nested(
    alloc: Global,
    opening: &[u8],
    closing: &[u8],
    count: usize,
) -> Result<Vec<u8>, AllocError> {
    let mut input = Vec::from_slice(alloc, b"put t/a.exp ")?;
    for text in [opening, closing] {
        for _ in 0..count {
            input.extend_from_slice(text)?;
        }
    }
    input.extend_from_slice(b"\nreport\n")?;
    Ok(input)
}

/// Whether open brackets, as many as a file can have, are told as an error.
pub fn brackets(alloc: Global) -> Result<bool, AllocError> {
    let input = nested(alloc, b"5b", b"", OPENINGS)?;
    let wanted: &[u8] =
        b"ok\nsum 1 263 1\n\t\t=== t tests ===\n\nSchedule of variations:\n    unix\n\nRunning target unix\nRunning t/a.exp ...\nERROR: tcl error sourcing t/a.exp.\nERROR: missing close-bracket\nUNRESOLVED: testcase 't/a.exp' aborted due to Tcl error\n\n\t\t=== t Summary ===\n\n# of unresolved testcases\t1\n";
    Ok(answered(alloc, input.as_slice())?.as_slice() == wanted)
}

/// The same of open braces.
pub fn braces(alloc: Global) -> Result<bool, AllocError> {
    let input = nested(alloc, b"7b", b"", OPENINGS)?;
    let wanted: &[u8] =
        b"ok\nsum 1 261 1\n\t\t=== t tests ===\n\nSchedule of variations:\n    unix\n\nRunning target unix\nRunning t/a.exp ...\nERROR: tcl error sourcing t/a.exp.\nERROR: missing close-brace\nUNRESOLVED: testcase 't/a.exp' aborted due to Tcl error\n\n\t\t=== t Summary ===\n\n# of unresolved testcases\t1\n";
    Ok(answered(alloc, input.as_slice())?.as_slice() == wanted)
}

/// The same of conditions within one another, which end.
pub fn ifs(alloc: Global) -> Result<bool, AllocError> {
    let input = nested(alloc, b"6966207b317d207b", b"7d", IFS)?;
    let wanted: &[u8] =
        b"ok\nsum 1 269 1\n\t\t=== t tests ===\n\nSchedule of variations:\n    unix\n\nRunning target unix\nRunning t/a.exp ...\nERROR: tcl error sourcing t/a.exp.\nERROR: too many nested evaluations\nUNRESOLVED: testcase 't/a.exp' aborted due to Tcl error\n\n\t\t=== t Summary ===\n\n# of unresolved testcases\t1\n";
    Ok(answered(alloc, input.as_slice())?.as_slice() == wanted)
}
