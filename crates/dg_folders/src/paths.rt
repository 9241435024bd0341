//! Where the files of a run stand.
ghost use Rattle.std.specs.Prelude.{◌≡◌, IfOk, string_bytes};
ghost use Rattle.dg_folders.specs.Paths.{beside, in_folder, is_tool_folder, sum_in, transcript_in};

use std::alloc::{AllocError, Global};

/// How many bytes a path has room for beside its folder and its name: a slash, and a short ending.
const ENDING: usize = 8;

/// A name in a folder.
pub fn in_folder(alloc: Global, folder: &str, name: &str) -> Result<String, AllocError>
    ensures { IfOk result (λ path. string_bytes path ≡ in_folder folder.now name.now) }
{
    let names = folder.len().saturating_add(name.len());
    let mut path = String::with_capacity(alloc, names.saturating_add(ENDING))?;
    path.push_str(folder)?;
    path.push_str("/")?;
    path.push_str(name)?;
    Ok(path)
}

/// The path of a tool's report: `OUTDIR/TOOL.sum`.
pub fn sum_path(alloc: Global, outdir: &str, tool: &str) -> Result<String, AllocError>
    ensures { IfOk result (λ path. string_bytes path ≡ sum_in outdir.now tool.now) }
{
    let mut path = in_folder(alloc, outdir, tool)?;
    path.push_str(".sum")?;
    Ok(path)
}

/// The path of a test's transcript: `OUTDIR/transcripts/BOARD/SCRIPT.tr`.
pub fn transcript_path(
    alloc: Global,
    outdir: &str,
    board: &str,
    script: &str,
) -> Result<String, AllocError>
    ensures { IfOk result (λ path. string_bytes path ≡ transcript_in outdir.now board.now script.now) }
{
    let transcripts = in_folder(alloc, outdir, "transcripts")?;
    let folder = in_folder(alloc, transcripts.as_str(), board)?;
    let mut path = in_folder(alloc, folder.as_str(), script)?;
    path.push_str(".tr")?;
    Ok(path)
}

/// A path beside another, of this number, to which a file is written before it takes its place. It is no path of a report or
/// a transcript.
pub fn beside(alloc: Global, path: &str, number: u32) -> Result<String, AllocError>
    ensures { IfOk result (λ other. string_bytes other ≡ beside path.now number) }
{
    let mut other = String::from_str(alloc, path)?;
    other.push_str(".")?;
    other.push_str(number.to_string(alloc)?.as_str())?;
    other.push_str(".new")?;
    Ok(other)
}

/// Whether a folder of the suite has scripts of the tool: its name begins with the tool's, and is none of `lib`, `boards` and
/// `transcripts`.
pub fn is_tool_folder(tool: &[u8], folder: &str) -> bool
    ensures { result ≡ is_tool_folder tool.now folder.now }
{
    let folder = folder.as_bytes();
    folder.starts_with(tool)
        && !(folder == b"lib".as_slice()
            || folder == b"boards".as_slice()
            || folder == b"transcripts".as_slice())
}
