//! What the cases share: edits, and what calls and replies are to be.
use dg_bench::{Bench, Call, History, Pass, Room};
use dg_bytes::{Bytes, TryCopy};
use dg_core::{Core, Reply};
use dg_records::Record;
use dg_transcript::Transcript;
use dg_world::{Edit, Name, Question};
use std::alloc::{AllocError, Global};
use std::sync::Wait;

/// The report of a passing script t/a.exp, written out by hand.
pub const PASSED: &[u8] =
    b"\t\t=== t tests ===\n\nSchedule of variations:\n    unix\n\nRunning target unix\nRunning t/a.exp ...\nPASS: one\n\n\t\t=== t Summary ===\n\n# of expected passes\t\t1\n";

/// The edit that puts a file.
pub fn put(alloc: Global, name: &[u8], text: &[u8]) -> Result<Edit, AllocError> {
    Ok(Edit::PutFile(
        Bytes::from_slice(alloc, name)?,
        Bytes::from_slice(alloc, text)?,
    ))
}

/// A pass that has then seen that a file was put.
pub fn put_on<B: Room, R: Wait>(
    rt: &R,
    alloc: Global,
    bench: &Bench<B>,
    pass: Pass<B>,
    name: &[u8],
    text: &[u8],
) -> Option<Pass<B>> {
    let edit = put(alloc, name, text).ok()?;
    let (pass, _receipt) = bench.edit(rt, alloc, pass, edit).ok()?;
    Some(pass)
}

/// The history of a bench that nobody uses any more.
pub fn closed<B: Room>(bench: Bench<B>, mut pass: Pass<B>) -> Option<History> {
    bench.into_history(&mut pass).ok()
}

/// The question for the file of this name.
pub fn of_file(alloc: Global, name: &[u8]) -> Option<Question> {
    Some(Question::File(Name::new(alloc, name).ok()?))
}

/// Whether a reply is this sum, of tests that all pass.
pub fn is_sum(reply: &Reply, wanted: &[u8]) -> bool {
    match reply {
        Reply::Sum(text, status) => text.is(wanted) && *status == 0,
        Reply::Pending(_) => false,
    }
}

/// Whether these are the same call: of edits, asks and reports.
pub fn are_same(one: &Call, other: &Call) -> bool {
    match (one, other) {
        (Call::Edit(one), Call::Edit(other)) => *one == *other,
        (Call::Ask(one, said), Call::Ask(other, told)) => *one == *other && *said == *told,
        (Call::Report(one), Call::Report(other)) => are_same_replies(one, other),
        _ => false,
    }
}

/// Whether these are the same sums, or of the same pending tests.
pub fn are_same_replies(one: &Reply, other: &Reply) -> bool {
    match (one, other) {
        (Reply::Sum(one, status), Reply::Sum(other, also)) => *one == *other && *status == *also,
        (Reply::Pending(one), Reply::Pending(other)) => one.as_slice() == other.as_slice(),
        _ => false,
    }
}

/// Whether a core accepts an edit.
fn accepts_edit(alloc: Global, core: &mut Core, edit: &Edit) -> Option<bool> {
    let edit = edit.copy(alloc).ok()?;
    Some(core.edit(alloc, edit).is_ok())
}

/// Whether a core keeps a record.
fn accepts_record(alloc: Global, core: &mut Core, record: &Record) -> Option<bool> {
    let record = record.copy(alloc).ok()?;
    Some(core.commit(alloc, record).is_ok())
}

/// Whether a core keeps a live run.
fn accepts_run(
    alloc: Global,
    core: &mut Core,
    record: &Record,
    transcript: &Transcript,
) -> Option<bool> {
    let record = record.copy(alloc).ok()?;
    let transcript = transcript.copy(alloc).ok()?;
    Some(core.commit_live(alloc, record, transcript).is_ok())
}

/// Whether a core accepts a call, with the reply that stands there.
fn accepts(alloc: Global, core: &mut Core, call: &Call) -> Option<bool> {
    match call {
        Call::Edit(edit) => accepts_edit(alloc, core, edit),
        Call::Ask(question, said) => Some(core.ask(alloc, question).ok()? == *said),
        Call::Commit(record) => accepts_record(alloc, core, record),
        Call::Live(record, transcript) => accepts_run(alloc, core, record, transcript),
        Call::Report(reply) => Some(are_same_replies(&core.report(alloc).ok()?, reply)),
    }
}

/// Whether a new core accepts these calls, one after another, each with its reply.
pub fn replays(alloc: Global, calls: &[Call]) -> Option<bool> {
    let mut core = Core::new(alloc).ok()?;
    for call in calls {
        if !accepts(alloc, &mut core, call)? {
            return Some(false);
        }
    }
    Some(true)
}
