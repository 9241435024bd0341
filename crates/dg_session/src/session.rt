//! A session: the lines of an input, answered in order.
ghost use Rattle.std.specs.Prelude.{◌≡◌, ◌≢◌, ◌≤◌, ◌<◌, Err, length, IfSome, OnOk, OnErr};
ghost use Rattle.std.specs.Io.KnownBytes.{IsAtEnd};
ghost use Rattle.dg_session.specs.Session.{cause_number, refused, Answers, AnswersEdit, AnswersFront, AnswersLine, AnswersLineFront, AnswersOne, AnswersReport};

use crate::answer::{LineAnswer, write_answer};
use crate::fault::SessionFault;
use crate::reading::{read_line, without_line_feed};
use crate::request::{Request, read_request};
use dg_bytes::Bytes;
use dg_core::{Core, CoreFault};
use dg_line::selection_of;
use dg_transcript::Cause;
use dg_world::{Edit, Refusal};
use std::alloc::Global;
use std::io::{BufRead, Write};

/// How many bytes one session reads at most.
const LIMIT: usize = 1_073_741_824;

/// Room for the first line of any answer.
const FIRST_LINE: usize = 64;

/// Makes an edit, or changes nothing.
fn answer_edit(alloc: Global, core: &mut Core, edit: Edit) -> LineAnswer
    ensures { AnswersEdit core.old core.new edit result }
{
    match core.edit(alloc, edit) {
        Ok(()) => LineAnswer::Done,
        Err(refusal) => refused(refusal),
    }
}

/// What a refused edit is answered.
fn refused(refusal: Refusal) -> LineAnswer
    ensures { result ≡ refused refusal }
{
    match refusal {
        Refusal::BadTranscript(line, cause) => {
            LineAnswer::BadTranscript(line, cause_number(cause))
        }
        _ => LineAnswer::Refused(refusal.number()),
    }
}

/// The number of what is wrong with a line of a transcript.
pub fn cause_number(cause: Cause) -> u8
    ensures { result ≡ cause_number cause }
{
    match cause {
        Cause::Header => 1,
        Cause::Kind => 2,
        Cause::Field => 3,
        Cause::SessionOrder => 4,
        Cause::TooMany => 5,
        Cause::Truncated => 6,
        Cause::Memory => 7,
    }
}

/// Selects what the words of a line select. Where they are not text or have no plan nothing changes.
fn answer_select(alloc: Global, core: &mut Core, words: &[Bytes]) -> LineAnswer
    ensures { AnswersOne core.old core.new (Request.Select words.now) result }
{
    let Ok(read) = selection_of(alloc, words) else {
        return LineAnswer::Refused(Refusal::Memory.number());
    };
    match read {
        Some(selection) => answer_edit(alloc, core, Edit::Select(selection)),
        None => LineAnswer::Refused(Refusal::BadSelection.number()),
    }
}

/// Settles the core and gives the report.
fn answer_report(alloc: Global, core: &mut Core) -> LineAnswer
    ensures { AnswersReport core.old core.new result }
{
    let before = core.evaluations();
    match core.settle(alloc) {
        Ok((report, status)) => LineAnswer::Sum(status, core.evaluations() - before, report),
        Err(CoreFault::PatternLost(_)) => LineAnswer::Fault(1),
        Err(CoreFault::Memory) => LineAnswer::Fault(2),
    }
}

/// Does what a request asks. Where memory runs out, a put, a transcript or a selection is refused with 8 and a
/// report has the fault 2.
#[tactic(auto, unfolding(crate::specs::Session::Follows))]
fn answer_request(alloc: Global, core: &mut Core, request: Request) -> LineAnswer
    ensures { AnswersOne core.old core.new request result }
{
    match request {
        Request::Put(name, content) => answer_edit(alloc, core, Edit::PutFile(name, content)),
        Request::Remove(name) => answer_edit(alloc, core, Edit::RemoveFile(name)),
        Request::PutTranscript(board, script, text) => {
            answer_edit(alloc, core, Edit::PutTranscript(board, script, text))
        }
        Request::DropTranscript(board, script) => {
            answer_edit(alloc, core, Edit::DropTranscript(board, script))
        }
        Request::Select(words) => answer_select(alloc, core, words.as_slice()),
        Request::Report => answer_report(alloc, core),
        Request::Unknown => LineAnswer::Unknown,
    }
}

/// Answers a line, which may end in its line feed. The room for the answer's first line is the
/// caller's, so that where memory has run out the line can still be answered.
fn answer_line<W: Write>(
    alloc: Global,
    writer: &mut W,
    core: &mut Core,
    line: &[u8],
    first_line: &mut Vec<u8>,
) -> Result<(), SessionFault>
    ensures ok { OnOk result (AnswersLine core.old core.new line.now (W.contents writer.old) (W.contents writer.new)) }
    ensures fault { OnErr result (AnswersLineFront core.old line.now (W.contents writer.old) (W.contents writer.new)) }
    ensures kind { result ≢ Err SessionFault.TooLong }
{
    let request = read_request(alloc, without_line_feed(line))?;
    let answer = answer_request(alloc, core, request);
    first_line.clear();
    answer.push_first_line(first_line)?;
    write_answer(writer, first_line.as_slice(), &answer)
}

/// Answers every line of an input of at most `limit` bytes, in order. After a fault a front of what
/// the whole input may be answered was written.
pub fn serve<R: BufRead, W: Write>(
    alloc: Global,
    reader: &mut R,
    writer: &mut W,
    core: &mut Core,
    limit: usize,
) -> Result<(), SessionFault>
    ensures ok { OnOk result
        (IfSome (R.remaining reader.old) (λ input. Answers core.old input (W.contents writer.old) (W.contents writer.new))) }
    ensures read { OnOk result (IfSome (R.remaining reader.old) (λ input. IsAtEnd (R.remaining reader.new))) }
    ensures fits { OnOk result (IfSome (R.remaining reader.old) (λ input. length input ≤ limit)) }
    ensures fault { OnErr result (IfSome (R.remaining reader.old)
        (λ input. AnswersFront core.old input (W.contents writer.old) (W.contents writer.new))) }
    ensures too_long { result ≡ Err SessionFault.TooLong → IfSome (R.remaining reader.old) (λ input. limit < length input) }
{
    let mut line = Vec::new(alloc);
    let mut first_line = Vec::with_capacity(alloc, FIRST_LINE)?;
    let mut left = limit;
    let mut has_more = false;
    let mut is_done = false;
    while !is_done {
        line.clear();
        has_more = read_line(reader, writer, left, &mut line, has_more)?;
        if line.is_empty() {
            is_done = true;
        } else {
            left -= line.len();
            answer_line(alloc, writer, core, line.as_slice(), &mut first_line)?;
        }
    }
    Ok(())
}

/// Answers every line of the input, in order, and flushes before it waits for more of the input. Where memory runs out
/// in a put, a transcript, a selection or a report the line is answered `refused 8` or `fault 2`, and the session goes on.
pub fn run_session<R: BufRead, W: Write>(
    alloc: Global,
    reader: &mut R,
    writer: &mut W,
    mut core: Core,
) -> Result<(), SessionFault>
    ensures ok { OnOk result
        (IfSome (R.remaining reader.old) (λ input. Answers core input (W.contents writer.old) (W.contents writer.new))) }
    ensures read { OnOk result (IfSome (R.remaining reader.old) (λ input. IsAtEnd (R.remaining reader.new))) }
    ensures fits { OnOk result (IfSome (R.remaining reader.old) (λ input. length input ≤ 1073741824)) }
    ensures fault { OnErr result
        (IfSome (R.remaining reader.old) (λ input. AnswersFront core input (W.contents writer.old) (W.contents writer.new))) }
    ensures too_long { result ≡ Err SessionFault.TooLong → IfSome (R.remaining reader.old) (λ input. 1073741824 < length input) }
{
    serve(alloc, reader, writer, &mut core, LIMIT)
}
