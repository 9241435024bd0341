//! Scripts that are drawn from pieces. A line of pieces has a part of a script, and behind a tab what a gate may answer it: entries with
//! `;` between them, and `|` between one choice and the next. Each script begins with the first piece.
use crate::live::chance::Chance;
use crate::live::desk::lines_in;
use crate::live::entries::{code, reply};
use crate::live::runs::{Run, run_script};
use crate::parts::{parts, rows_of};
use anyhow::Result;
use dg_gate::Reply;
use std::alloc::{AllocError, Global};
use std::collections::VecDeque;
use std::io::Write;

/// Where the drawing begins.
const SEED: u64 = 20;

/// How many scripts are drawn.
const SCRIPTS: u64 = 1_000;

/// The most pieces behind the first one.
const MORE: usize = 16;

/// Of so many answers one is left out, and one is a failure in its place.
const FAITHFUL: usize = 32;

/// At least so many calls have to be answered, and so many to fail, in all.
const CALLS: u64 = 3_000;

const FAILURES: u64 = 300;

/// A part of a script, and what a gate may answer it.
#[derive(Clone, Copy)]
struct Piece<'a> {
    script: &'a [u8],
    choices: &'a [u8],
}

/// The pieces of a file.
fn read_pieces<'a>(alloc: Global, text: &'a [u8]) -> Result<Vec<Piece<'a>>, AllocError> {
    let mut read = Vec::new(alloc);
    for (_, line) in rows_of(alloc, text)? {
        let place = line.iter().position(|byte| *byte == b'\t');
        let (script, choices) = line.split_at(place.unwrap_or(line.len()));
        read.push(Piece { script, choices })?;
    }
    Ok(read)
}

/// A script, and what its gate answers.
#[derive(Drop)]
struct Drawn {
    script: Vec<u8>,
    replies: VecDeque<Reply>,
}

impl Drawn {
    /// Adds an answer; now and then none, or a failure.
    fn answer(&mut self, alloc: Global, chance: &mut Chance, entry: &[u8]) -> Result<()> {
        match chance.below(FAITHFUL) {
            0 => {}
            1 => {
                let number = u32::try_from(chance.below(4))?.wrapping_add(1);
                self.replies.push_back(Reply::Failed(code(number)))?;
            }
            _ => self.replies.push_back(reply(alloc, entry)?)?,
        }
        Ok(())
    }

    /// Adds a piece, and one of the choices of its answers.
    fn add(&mut self, alloc: Global, chance: &mut Chance, piece: Piece<'_>) -> Result<()> {
        self.script.extend_from_slice(piece.script)?;
        self.script.push(b'\n')?;
        let choices = parts(alloc, piece.choices, b'|')?;
        let Some(choice) = chance.pick(choices.as_slice()) else {
            return Ok(());
        };
        for entry in &parts(alloc, choice, b';')? {
            let entry = entry.trim_ascii();
            if !entry.is_empty() {
                self.answer(alloc, chance, entry)?;
            }
        }
        Ok(())
    }
}

/// Draws a script.
fn draw(alloc: Global, chance: &mut Chance, pieces: &[Piece<'_>]) -> Result<Drawn> {
    let mut drawn = Drawn {
        script: Vec::new(alloc),
        replies: VecDeque::new(alloc),
    };
    if let Some(first) = pieces.first() {
        drawn.add(alloc, chance, *first)?;
    }
    for _ in 0..chance.below(MORE) {
        if let Some(piece) = chance.pick(pieces) {
            drawn.add(alloc, chance, *piece)?;
        }
    }
    Ok(drawn)
}

/// What is wrong with a run, or with its replay, which gives the same report.
fn flaw_of(alloc: Global, run: &Run) -> Result<Option<&'static str>, AllocError> {
    let told = lines_in(alloc, run.report.as_slice())?;
    if told.as_slice().ends_with(b"departed from its transcript") {
        return Ok(Some("a departure"));
    }
    Ok(run.flaw)
}

/// What the runs have come to.
#[derive(Clone, Copy)]
struct Counts {
    calls: u64,
    failures: u64,
}

impl Counts {
    /// Draws a script, runs it, and tells it where something is wrong.
    fn try_one<W: Write>(
        &mut self,
        alloc: Global,
        out: &mut W,
        chance: &mut Chance,
        pieces: &[Piece<'_>],
    ) -> Result<()> {
        let Drawn { script, replies } = draw(alloc, chance, pieces)?;
        let answers = replies.len();
        let run = run_script(alloc, script.as_slice(), replies)?;
        let calls = answers.saturating_sub(run.left) as u64;
        self.calls = self.calls.saturating_add(calls);
        self.failures = self.failures.saturating_add(run.failures);
        if let Some(flaw) = flaw_of(alloc, &run)? {
            writeln!(out, "{flaw}, of the script")?;
            out.write_all(script.as_slice())?;
        }
        Ok(())
    }
}

/// Tries scripts that are drawn from the pieces of a file: a replay of what each one's gate answered gives the same report, and departs
/// nowhere. Each one that does not is told, and then how many there are.
pub fn try_drawn<W: Write>(alloc: Global, out: &mut W, name: &str, text: &[u8]) -> Result<()> {
    let pieces = read_pieces(alloc, text)?;
    let mut chance = Chance::new(SEED);
    let mut counts = Counts {
        calls: 0,
        failures: 0,
    };
    for _ in 0..SCRIPTS {
        counts.try_one(alloc, out, &mut chance, pieces.as_slice())?;
    }
    if counts.calls < CALLS || counts.failures < FAILURES {
        let Counts { calls, failures } = counts;
        writeln!(
            out,
            "{name}: only {calls} calls, and {failures} of them failed"
        )?;
    }
    writeln!(out, "{name}: {SCRIPTS} scripts")?;
    Ok(())
}
