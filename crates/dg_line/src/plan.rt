//! The plan of a line.
ghost use Rattle.std.specs.Prelude.{◌≡◌, ◌⊎◌, Ok, Err, IfOk, IfErr, map, true, false};
ghost use Rattle.clap.specs.Words.{found_of, kind_of, rows_of};
ghost use Rattle.dg_line.specs.Plan.{HasFault, HasPlan, IsFaultOf, is_bare, mode_of, plan_by};

use crate::fault::LineFault;
use crate::options::line_matches;
use crate::values::{has_flag, jobs_of, option_or, selection_of, words_of};
use crate::words::find_bad;
use clap::error::ErrorKind;
use clap::{ArgMatches, Error};
use dg_bytes::Bytes;
use dg_world::Selection;
use std::alloc::{AllocError, Global};

/// What a line is for.
#[derive(Clone, Copy, Debug, PartialEq, Eq)]
pub enum Mode {
    /// Every selected test is run, and what its children did is written down.
    Run,
    /// The selected tests are judged by what was written down, and no child is started.
    Rejudge,
    /// The lines of standard input are answered.
    Session,
}

/// What a line asks for.
#[derive(PartialEq, Eq)]
pub struct Plan {
    pub mode: Mode,
    /// The folder of the suite.
    pub srcdir: Bytes,
    /// The folder that the report and the transcripts are written to.
    pub outdir: Bytes,
    /// How many tests run at a time, 1 to 16.
    pub jobs: u8,
    /// What is selected; it is valid.
    pub selection: Selection,
}

impl Drop for Plan {
    fn drop(self) {
        let Plan {
            mode: _,
            srcdir: _,
            outdir: _,
            jobs: _,
            selection: _,
        } = self;
    }
}

impl Plan {
    /// What is selected.
    pub fn into_selection(self) -> Selection
        ensures { result ≡ self.selection }
    {
        let Plan {
            mode: _,
            srcdir: _,
            outdir: _,
            jobs: _,
            selection,
        } = self;
        selection
    }
}

/// Whether a line has neither an option nor a word.
fn is_bare(words: &[&str]) -> bool
    ensures { result ≡ is_bare (map (λ w. w.now) words.now) }
{
    match words {
        [] => true,
        [word] => *word == "--",
        _ => false,
    }
}

/// What a line is for, or nothing where both `--rejudge` and `--session` are there.
fn mode_of(bare: bool, matches: &ArgMatches<'_>) -> Option<Mode>
    ensures { result ≡ mode_of bare (rows_of (found_of matches.now)) }
{
    match (has_flag(matches, "rejudge"), has_flag(matches, "session")) {
        (true, true) => None,
        (true, false) => Some(Mode::Rejudge),
        (false, true) => Some(Mode::Session),
        (false, false) => Some(if bare { Mode::Session } else { Mode::Run }),
    }
}

/// The plan by what the words of a line match.
#[tactic(auto, unfolding(crate::specs::Plan::plan_by))]
fn plan_by(alloc: Global, bare: bool, matches: &ArgMatches<'_>) -> Result<Plan, LineFault>
    ensures ok { IfOk result (λ plan. plan_by bare (rows_of (found_of matches.now)) ≡ Ok plan) }
    ensures err { IfErr result (λ f. (f ≡ LineFault.Memory) ⊎ (plan_by bare (rows_of (found_of matches.now)) ≡ Err f)) }
{
    let words = words_of(alloc, matches)?;
    if let Some(place) = find_bad(words.as_slice()) {
        return Err(LineFault::BadWord(place + 1));
    }
    let Some(mode) = mode_of(bare, matches) else {
        return Err(LineFault::TwoModes);
    };
    let selection = selection_of(alloc, matches, words.as_slice())?;
    Ok(Plan {
        mode,
        srcdir: Bytes::from_slice(alloc, option_or(matches, "srcdir", ".").as_bytes())?,
        outdir: Bytes::from_slice(alloc, option_or(matches, "outdir", ".").as_bytes())?,
        jobs: jobs_of(matches),
        selection,
    })
}

/// The fault of a line that `clap` gives no matches for.
fn fault_of(alloc: Global, error: &Error) -> LineFault
    ensures { IsFaultOf (kind_of error.now) result }
{
    if error.kind() == ErrorKind::OutOfMemory {
        return LineFault::Memory;
    }
    let Ok(text) = error.to_string(alloc) else {
        return LineFault::Memory;
    };
    match error.kind() {
        ErrorKind::DisplayHelp | ErrorKind::DisplayVersion => LineFault::Shown(text),
        _ => LineFault::Words(text),
    }
}

/// The plan of a line, by its words without the program's name, as the command line of `runtest` is read (docs/LINE.md).
pub fn plan_of(alloc: Global, words: &[&str]) -> Result<Plan, LineFault>
    ensures ok { IfOk result (HasPlan (map (λ w. w.now) words.now)) }
    ensures err { IfErr result (HasFault (map (λ w. w.now) words.now)) }
{
    match line_matches(alloc, words) {
        Ok(matches) => plan_by(alloc, is_bare(words), &matches),
        Err(error) => Err(fault_of(alloc, &error)),
    }
}
