//! Rows of runs. A line `script` and the lines behind it that begin with a tab are a script. Each row behind it is a run, with tabs
//! between its name, its entries in the order of the gate's calls, and the lines of the report. The gate answers what makes these
//! entries, and nothing else. Where a row has a `?`, it is four runs, with each code in its place.
use crate::live::desk::lines_in;
use crate::live::entries::{entries, replies, transcript};
use crate::live::runs::run_script;
use crate::parts::parts;
use anyhow::Result;
use dg_bytes::Bytes;
use std::alloc::{AllocError, Global};
use std::io::Write;

/// The codes of failed calls.
const CODES: &[u8] = b"1234";

/// A row's fields with a code in the place of each `?`.
fn with_code(alloc: Global, row: &[u8], code: u8) -> Result<Vec<u8>, AllocError> {
    row.iter()
        .map(|byte| if *byte == b'?' { code } else { *byte })
        .collect(alloc)
}

/// What a run gives in place of what its row says.
fn other_answer(alloc: Global, script: &[u8], row: &[u8]) -> Result<Option<Bytes>> {
    let fields = parts(alloc, row, b'\t')?;
    let [_name, spelled, lines] = fields.as_slice() else {
        return Ok(Some(Bytes::from_slice(alloc, b"(no such row)")?));
    };
    let entries = entries(alloc, spelled)?;
    let run = run_script(alloc, script, replies(alloc, entries.as_slice())?)?;
    if let Some(flaw) = run.flaw {
        return Ok(Some(Bytes::from_slice(alloc, flaw.as_bytes())?));
    }
    if run.left > 0
        || !run
            .transcript
            .is(transcript(alloc, entries.as_slice())?.as_slice())
    {
        return Ok(Some(run.transcript));
    }
    let told = lines_in(alloc, run.report.as_slice())?;
    if told.is(lines) {
        Ok(None)
    } else {
        Ok(Some(told))
    }
}

/// The rows of a file, as far as they are tried.
#[derive(Drop)]
struct Table {
    script: Vec<u8>,
    line: u64,
    rows: u64,
    runs: u64,
}

impl Table {
    /// Tries a run of a row.
    fn try_run<W: Write>(
        &mut self,
        alloc: Global,
        out: &mut W,
        name: &str,
        row: &[u8],
    ) -> Result<()> {
        self.runs = self.runs.wrapping_add(1);
        if let Some(given) = other_answer(alloc, self.script.as_slice(), row)? {
            let line = self.line;
            write!(out, "{name}:{line}: gives ")?;
            out.write_all(given.as_slice())?;
            out.write_all(b"\n")?;
        }
        Ok(())
    }

    /// Tries a row: with each code, if it has a place for one.
    fn try_row<W: Write>(
        &mut self,
        alloc: Global,
        out: &mut W,
        name: &str,
        row: &[u8],
    ) -> Result<()> {
        self.rows = self.rows.wrapping_add(1);
        if !row.contains(&b'?') {
            return self.try_run(alloc, out, name, row);
        }
        for code in CODES {
            let row = with_code(alloc, row, *code)?;
            self.try_run(alloc, out, name, row.as_slice())?;
        }
        Ok(())
    }

    /// Takes a line: of a script, or a row.
    fn take<W: Write>(
        &mut self,
        alloc: Global,
        out: &mut W,
        name: &str,
        line: &[u8],
    ) -> Result<()> {
        self.line = self.line.wrapping_add(1);
        match line {
            [] | [b'#', ..] => {}
            b"script" => self.script.clear(),
            [b'\t', command @ ..] => {
                self.script.extend_from_slice(command)?;
                self.script.push(b'\n')?;
            }
            row => self.try_row(alloc, out, name, row)?,
        }
        Ok(())
    }
}

/// Tries the rows of a file. Each run that gives something else is told, by its line, and then how many rows and runs there are.
pub fn try_rows<W: Write>(alloc: Global, out: &mut W, name: &str, text: &[u8]) -> Result<()> {
    let mut table = Table {
        script: Vec::new(alloc),
        line: 0,
        rows: 0,
        runs: 0,
    };
    for line in &parts(alloc, text, b'\n')? {
        table.take(alloc, out, name, line)?;
    }
    let (rows, runs) = (table.rows, table.runs);
    writeln!(out, "{name}: {rows} rows, {runs} runs")?;
    Ok(())
}
