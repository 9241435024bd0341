//! The summary blocks of a report.
ghost use Rattle.std.specs.Prelude.{◌≡◌, ◌++◌, OnOk};
ghost use Rattle.dg_sum.specs.Report.{tabs, count_text, plain_counts, known_counts, open_counts, counts_text, board_summary, summary};

use crate::page::Page;
use dg_results::Tally;
use itoa::Buffer;
use std::alloc::AllocError;

/// Writes a text between two others.
#[tactic(auto, using(crate::proofs::TextLemmas::then))]
pub(crate) fn write_between(
    out: &mut Page,
    before: &[u8],
    text: &[u8],
    after: &[u8],
) -> Result<(), AllocError>
    ensures { OnOk result (out.new ≡ out.old ++ (before.now ++ text.now ++ after.now)) }
{
    out.extend(before)?;
    out.extend(text)?;
    out.extend(after)
}

/// One tab, or two after a text of fewer than 24 bytes.
fn tabs(name: &[u8]) -> &'static [u8]
    ensures { result.now ≡ tabs name.now }
{
    if name.len() < 19 { b"\t\t" } else { b"\t" }
}

/// Writes a count above zero.
#[tactic(auto, using(crate::proofs::TextLemmas::then), unfolding(crate::specs::Report::count_text))]
fn write_count(out: &mut Page, name: &[u8], count: usize) -> Result<(), AllocError>
    ensures { OnOk result (out.new ≡ out.old ++ count_text name.now count) }
{
    if count == 0 {
        return Ok(());
    }
    let mut buffer = Buffer::new();
    let digits = buffer.format(count);
    write_between(out, b"# of ", name, tabs(name))?;
    out.extend(digits.as_bytes())?;
    out.extend(b"\n")
}

/// Writes the counts above zero.
#[tactic(auto, using(crate::proofs::TextLemmas::then), unfolding(crate::specs::Report::counts_text))]
fn write_counts(out: &mut Page, tally: &Tally) -> Result<(), AllocError>
    ensures { OnOk result (out.new ≡ out.old ++ counts_text tally.now) }
{
    write_plain_counts(out, tally)?;
    write_known_counts(out, tally)?;
    write_open_counts(out, tally)
}

/// Writes how many passed or failed.
#[tactic(auto, using(crate::proofs::TextLemmas::then))]
fn write_plain_counts(out: &mut Page, tally: &Tally) -> Result<(), AllocError>
    ensures { OnOk result (out.new ≡ out.old ++ plain_counts tally.now) }
{
    write_count(out, b"expected passes", tally.passes)?;
    write_count(out, b"unexpected failures", tally.failures)?;
    write_count(out, b"unexpected successes", tally.unexpected_successes)
}

/// Writes how many were known to fail.
#[tactic(auto, using(crate::proofs::TextLemmas::then))]
fn write_known_counts(out: &mut Page, tally: &Tally) -> Result<(), AllocError>
    ensures { OnOk result (out.new ≡ out.old ++ known_counts tally.now) }
{
    write_count(out, b"expected failures", tally.expected_failures)?;
    write_count(out, b"unknown successes", tally.unknown_successes)?;
    write_count(out, b"known failures", tally.known_failures)
}

/// Writes how many have no outcome.
#[tactic(auto, using(crate::proofs::TextLemmas::then))]
fn write_open_counts(out: &mut Page, tally: &Tally) -> Result<(), AllocError>
    ensures { OnOk result (out.new ≡ out.old ++ open_counts tally.now) }
{
    write_count(out, b"unresolved testcases", tally.unresolved)?;
    write_count(out, b"untested testcases", tally.untested)?;
    write_count(out, b"unsupported tests", tally.unsupported)
}

/// Writes the summary of a board.
#[tactic(auto, using(crate::proofs::TextLemmas::then), unfolding(crate::specs::Report::board_summary))]
pub(crate) fn write_board_summary(
    out: &mut Page,
    tool: &[u8],
    board: &[u8],
    tally: &Tally,
) -> Result<(), AllocError>
    ensures { OnOk result (out.new ≡ out.old ++ board_summary tool.now board.now tally.now) }
{
    write_between(out, b"\n\t\t=== ", tool, b" Summary for ")?;
    out.extend(board)?;
    out.extend(b" ===\n\n")?;
    write_counts(out, tally)
}

/// Writes the summary over all boards.
#[tactic(auto, using(crate::proofs::TextLemmas::then), unfolding(crate::specs::Report::summary))]
pub(crate) fn write_summary(out: &mut Page, tool: &[u8], tally: &Tally) -> Result<(), AllocError>
    ensures { OnOk result (out.new ≡ out.old ++ summary tool.now tally.now) }
{
    write_between(out, b"\n\t\t=== ", tool, b" Summary ===\n\n")?;
    write_counts(out, tally)
}
