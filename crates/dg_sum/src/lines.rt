//! The lines of a test.
ghost use Rattle.std.specs.Prelude.{◌≡◌, ◌++◌, OnOk};
ghost use Rattle.std.specs.List.{flat_map};
ghost use Rattle.dg_sum.specs.Lines.{some_unexpected, test_text};
ghost use Rattle.dg_sum.specs.Report.{line_text};

use crate::page::Page;
use crate::summary::write_between;
use dg_results::{Line, Verdict};
use dg_world::TestId;
use std::alloc::AllocError;

/// Writes a test's script and its lines.
#[tactic(auto, using(crate::proofs::TextLemmas::then))]
pub(crate) fn write_test(out: &mut Page, test: &TestId, verdict: &Verdict) -> Result<(), AllocError>
    ensures { OnOk result (out.new ≡ out.old ++ test_text (record { test = test.now; verdict = verdict.now })) }
{
    write_between(out, b"Running ", test.script().as_slice(), b" ...\n")?;
    write_lines(out, verdict.lines())
}

/// Writes the lines of a test.
fn write_lines(out: &mut Page, lines: &[Line]) -> Result<(), AllocError>
    ensures { OnOk result (out.new ≡ out.old ++ flat_map line_text lines.now) }
{
    for line in lines {
        write_line(out, line)?;
    }
    Ok(())
}

/// Writes a line.
#[tactic(auto, using(crate::proofs::TextLemmas::then))]
fn write_line(out: &mut Page, line: &Line) -> Result<(), AllocError>
    ensures { OnOk result (out.new ≡ out.old ++ line_text line.now) }
{
    write_between(out, line.class.name(), b": ", line.message.as_slice())?;
    out.extend(b"\n")
}

/// Whether some line is of an unexpected class.
pub(crate) fn has_unexpected(verdict: &Verdict) -> bool
    ensures { result ≡ some_unexpected verdict.now }
{
    verdict
        .lines()
        .iter()
        .any(|line| line.class.is_unexpected())
}
