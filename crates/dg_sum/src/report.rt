//! The text of a report, and the status of a run.
ghost use Rattle.std.specs.Prelude.{◌≡◌, ◌++◌, IfOk, OnOk, length, nat_le, [], if◌then◌else◌};
ghost use Rattle.std.specs.List.{flat_map, list_any};
ghost use Rattle.dg_results.specs.Tally.{tally_of};
ghost use Rattle.dg_sum.specs.Lines.{some_unexpected};
ghost use Rattle.dg_sum.specs.Report.{script_text, lines_on, lines_of_board, board_summary, board_text, scheduled, report, status};

use crate::judged::Judged;
use crate::page::Page;
use crate::summary::{write_between, write_board_summary, write_summary};
use crate::tally::no_lines;
use dg_bytes::{Bytes, is_same};
use dg_results::Tally;
use dg_world::Selection;
use std::alloc::{AllocError, Global};

/// The report of judged tests, as `runtest` writes it into its `.sum` file: the heading, the schedule, for each board of
/// the selection its tests in the order given, and the counts above zero. With two or more boards each has a summary of
/// its own. A test of a board that the selection doesn't have is left out.
#[tactic(auto, using(crate::proofs::TextLemmas::then), unfolding(crate::specs::Report::report))]
pub fn sum_text(
    alloc: Global,
    selection: &Selection,
    judged: &[Judged<'_>],
) -> Result<Bytes, AllocError>
    ensures { IfOk result (λ text. text ≡ report selection.now judged.now) }
{
    let mut out = Page::new(alloc);
    let tool = selection.tool.as_slice();
    write_between(
        &mut out,
        b"\t\t=== ",
        tool,
        b" tests ===\n\nSchedule of variations:\n",
    )?;
    write_schedule(&mut out, selection.boards.as_slice())?;
    let total = write_boards(&mut out, selection, judged)?;
    write_summary(&mut out, tool, &total)?;
    Ok(out.into_bytes())
}

/// 0 if no line is of an unexpected class (FAIL, XPASS, KPASS, UNRESOLVED), else 1.
#[tactic(auto, unfolding(crate::specs::Report::status))]
pub fn exit_status(judged: &[Judged<'_>]) -> u8
    ensures { result ≡ status judged.now }
{
    if is_some_unexpected(judged) { 1 } else { 0 }
}

/// Whether some line of some test is of an unexpected class.
fn is_some_unexpected(judged: &[Judged<'_>]) -> bool
    ensures { result ≡ list_any (λ j. some_unexpected j.verdict) judged.now }
{
    judged.iter().any(|one| one.block().is_unexpected)
}

/// Writes the boards in order.
fn write_schedule(out: &mut Page, boards: &[Bytes]) -> Result<(), AllocError>
    ensures { OnOk result (out.new ≡ out.old ++ flat_map scheduled boards.now) }
{
    for board in boards {
        write_between(out, b"    ", board.as_slice(), b"\n")?;
    }
    Ok(())
}

/// Writes each board's block, and counts the lines of all.
fn write_boards(
    out: &mut Page,
    selection: &Selection,
    judged: &[Judged<'_>],
) -> Result<Tally, AllocError>
    ensures text { OnOk result (out.new ≡ out.old ++ flat_map (board_text selection.now judged.now) selection.now.boards) }
    ensures tally { IfOk result (λ t. t ≡ tally_of (flat_map (lines_of_board judged.now) selection.now.boards)) }
{
    let mut total = no_lines();
    for board in selection.boards.as_slice() {
        let counted = write_board(out, selection, board, judged)?;
        let _written = out.len();
        total = total.plus(counted);
    }
    Ok(total)
}

/// Writes a board's block, and counts its lines.
#[tactic(auto, using(crate::proofs::TextLemmas::then), unfolding(crate::specs::Report::board_text))]
fn write_board(
    out: &mut Page,
    selection: &Selection,
    board: &Bytes,
    judged: &[Judged<'_>],
) -> Result<Tally, AllocError>
    ensures text { OnOk result (out.new ≡ out.old ++ board_text selection.now judged.now board.now) }
    ensures tally { IfOk result (λ t. t ≡ tally_of (lines_of_board judged.now board.now)) }
{
    write_between(out, b"\nRunning target ", board.as_slice(), b"\n")?;
    let tally = write_scripts(out, board, judged)?;
    write_own_summary(out, selection, board, &tally)?;
    Ok(tally)
}

/// Writes a board's own summary, if it is not the only board.
fn write_own_summary(
    out: &mut Page,
    selection: &Selection,
    board: &Bytes,
    tally: &Tally,
) -> Result<(), AllocError>
    ensures { OnOk result (out.new ≡ out.old ++
        (if nat_le 2 (length selection.now.boards) then board_summary selection.now.tool board.now tally.now else [])) }
{
    if selection.boards.len() < 2 {
        return Ok(());
    }
    write_board_summary(out, selection.tool.as_slice(), board.as_slice(), tally)
}

/// Writes the tests of a board, and counts their lines.
fn write_scripts(out: &mut Page, board: &Bytes, judged: &[Judged<'_>]) -> Result<Tally, AllocError>
    ensures text { OnOk result (out.new ≡ out.old ++ flat_map (script_text board.now) judged.now) }
    ensures tally { IfOk result (λ t. t ≡ tally_of (lines_of_board judged.now board.now)) }
{
    let mut total = no_lines();
    for one in judged {
        let more = write_script(out, board, one)?;
        let _written = out.len();
        total = total.plus(more);
    }
    Ok(total)
}

/// Writes a test, if it is of the board, and counts its lines.
fn write_script(out: &mut Page, board: &Bytes, judged: &Judged<'_>) -> Result<Tally, AllocError>
    ensures text { OnOk result (out.new ≡ out.old ++ script_text board.now judged.now) }
    ensures tally { IfOk result (λ t. t ≡ tally_of (lines_on board.now judged.now)) }
{
    if !is_same(judged.test().board().as_slice(), board.as_slice()) {
        return Ok(no_lines());
    }
    let block = judged.block();
    out.extend(block.text.as_slice())?;
    Ok(block.tally)
}
