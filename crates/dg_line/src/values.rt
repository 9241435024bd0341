//! The values of the options, and what is selected by them.
ghost use Rattle.std.specs.Prelude.{◌≡◌, IfOk, IfErr, Err, ◌⊎◌, map, false, true, codes, unwrap_or, Some};
ghost use Rattle.clap.specs.Words.{first_of, found_of, rows_of};
ghost use Rattle.dg_line.specs.Values.{jobs_in, names_in, option_or, selected_by, selects_well, words_of};
ghost use Rattle.dg_line.specs.Plan.{has_flag};
ghost use Rattle.dg_boards.specs.Triplet.{is_triplet};

use crate::fault::LineFault;
use crate::words::{scripts_in, settings_in};
use clap::ArgMatches;
use dg_boards::{Triplet, TripletFault};
use dg_bytes::{Bytes, Seq};
use dg_world::Selection;
use std::alloc::{AllocError, Global};

/// The machine that built the tool, where none is named.
const FIRST_TRIPLET: &str = "x86_64-pc-linux-gnu";

/// The value of an option, or what stands for it.
pub fn option_or<'a>(matches: &ArgMatches<'a>, name: &str, default: &'a str) -> &'a str
    ensures { result.now ≡ option_or (rows_of (found_of matches.now)) name.now default.entry.now }
{
    match matches.get_str(name) {
        Some(text) => text,
        None => default,
    }
}

/// Whether a flag is there.
pub fn has_flag(matches: &ArgMatches<'_>, name: &str) -> bool
    ensures { result ≡ has_flag name.now (rows_of (found_of matches.now)) }
{
    match matches.get_str(name) {
        Some(text) => text == "true",
        None => false,
    }
}

/// The number that a text is, within 1 to 16.
fn jobs_in(text: &str) -> u8
    ensures { result ≡ jobs_in (Some text.now) }
{
    let number = text.parse::<u8>().unwrap_or(0);
    number.min(16).max(1)
}

/// How many tests run at a time, 1 to 16.
pub fn jobs_of(matches: &ArgMatches<'_>) -> u8
    ensures { result ≡ jobs_in (first_of (codes "jobs") (rows_of (found_of matches.now))) }
{
    match matches.get_str("jobs") {
        Some(text) => jobs_in(text),
        None => 1,
    }
}

/// The words that are no options.
pub fn words_of<'a>(alloc: Global, matches: &ArgMatches<'a>) -> Result<Vec<&'a str>, AllocError>
    ensures { IfOk result (λ words. map (λ w. w.now) words.items ≡ words_of (rows_of (found_of matches.now))) }
{
    match matches.get_strs("word") {
        Some(words) => Vec::from_slice(alloc, words),
        None => Ok(Vec::new(alloc)),
    }
}

/// The parts of a value that stand between spaces and commas.
fn parts_of<'a>(alloc: Global, text: &'a str) -> Result<Vec<&'a [u8]>, AllocError>
    ensures { IfOk result (λ parts. map (λ p. p.now) parts.items ≡ names_in text.entry.now) }
{
    text.as_bytes()
        .split(|b| *b == b' ' || *b == b',')
        .filter(|part| !part.is_empty())
        .collect(alloc)
}

/// The names in a value.
fn names_in(alloc: Global, text: &str) -> Result<Seq<Bytes>, AllocError>
    ensures { IfOk result (λ names. names ≡ names_in text.now) }
{
    let mut names = Seq::new(alloc);
    for part in &parts_of(alloc, text)? {
        names.push(Bytes::from_slice(alloc, part)?)?;
    }
    Ok(names)
}

/// The triplet that a text is.
fn triplet_of(alloc: Global, text: &str) -> Result<Triplet, LineFault>
    ensures ok { IfOk result (λ t. (t ≡ text.now) × (is_triplet text.now ≡ true)) }
    ensures err { IfErr result (λ f. (f ≡ LineFault.Memory) ⊎ ((f ≡ LineFault.BadSelection) × (is_triplet text.now ≡ false))) }
{
    match Triplet::new(alloc, text.as_bytes()) {
        Ok(triplet) => Ok(triplet),
        Err(TripletFault::Bad) => Err(LineFault::BadSelection),
        Err(TripletFault::Memory) => Err(LineFault::Memory),
    }
}

/// What a line selects. `BadSelection` exactly where it is not valid.
#[tactic(auto, unfolding(crate::specs::Values::selected_by))]
pub fn selection_of(
    alloc: Global,
    matches: &ArgMatches<'_>,
    words: &[&str],
) -> Result<Selection, LineFault>
    requires { map (λ w. w.now) words.now ≡ words_of (rows_of (found_of matches.now)) }
    ensures ok { IfOk result
        (λ s. (s ≡ selected_by (rows_of (found_of matches.now))) × (selects_well (rows_of (found_of matches.now)) ≡ true)) }
    ensures err { IfErr result (λ f. (f ≡ LineFault.Memory) ⊎
        ((f ≡ LineFault.BadSelection) × (selects_well (rows_of (found_of matches.now)) ≡ false))) }
{
    let build = option_or(matches, "build", FIRST_TRIPLET);
    let host = option_or(matches, "host", build);
    let target = option_or(matches, "target", host);
    let selection = Selection {
        tool: Bytes::from_slice(alloc, option_or(matches, "tool", "t").as_bytes())?,
        boards: names_in(alloc, option_or(matches, "target_board", "unix"))?,
        build: triplet_of(alloc, build)?,
        host: triplet_of(alloc, host)?,
        target: triplet_of(alloc, target)?,
        only: scripts_in(alloc, words)?,
        ignore: names_in(alloc, option_or(matches, "ignore", ""))?,
        variables: settings_in(alloc, words)?,
    };
    if selection.is_valid() {
        Ok(selection)
    } else {
        Err(LineFault::BadSelection)
    }
}
