//! The live run of a test.
ghost use Rattle.std.specs.Prelude.{◌≡◌, ◌+◌, ◌-◌, ◌^◌, ◌<◌, ◌≤◌, true, false, Some, IfOk, IfErr};
ghost use Rattle.dg_transcript.specs.declared.limits.TheConstants.{MAX_ENTRIES};
ghost use Rattle.dg_transcript.specs.Limits.{IsTranscript};
ghost use Rattle.dg_language.specs.declared.ask.Ask.{Ask as Asked};
ghost use Rattle.dg_eval.specs.Evaluating.{NeedsNext};
ghost use Rattle.dg_living.specs.Replayed.{transcript_of};
ghost use Rattle.dg_live.specs.Walk.{session_of, Acts, AnswersTo, IsKnown, calls_of, Turns, CanFail, IsLiveRun};

use crate::fault::LiveFault;
use crate::known::entry_known;
use crate::sessions::transcript_in;
use dg_eval::{Job, JobFault, Readings, Turn};
use dg_gate::{Asker, Gate, perform};
use dg_language::Ask;
use dg_records::Record;
use dg_transcript::{Entry, Transcript};
use dg_world::{Answer, Question, TestId};
use std::alloc::{AllocError, Global};
use std::mem;

/// The session that a question about an entry is about.
fn session_of(question: &Question) -> u32
    ensures { result ≡ session_of question.now }
{
    match question {
        Question::Entry(place) => place.session,
        _ => 0,
    }
}

/// The same entry, of which a copy costs no copy of its bytes.
fn kept(alloc: Global, mut entry: Entry) -> Result<Entry, LiveFault>
    ensures same { IfOk result (λ e. e ≡ entry) }
    ensures fault { IfErr result CanFail }
{
    match entry.keep(alloc) {
        Ok(()) => Ok(entry),
        Err(AllocError) => Err(LiveFault::Memory),
    }
}

/// The answer to what a job needs: where an action stands beside the question, the entry that one call of the gate makes,
/// and else the asker's.
fn answer_to<G: Gate, A: Asker>(
    alloc: Global,
    ask: &Ask,
    gate: &mut G,
    asker: &mut A,
) -> Result<Answer, LiveFault>
    requires room { Acts ask.now → G.count gate.old < 2 ^ 64 - 1 }
    requires ready { G.is_ready gate.old }
    ensures ready { G.is_ready gate.new }
    ensures answer { IfOk result
        (λ a. AnswersTo G.step A.step ask.now.question ask.now.action a gate.old asker.old gate.new asker.new) }
    ensures known { IfOk result (λ a. IsKnown ask.now.action a) }
    ensures count { G.count gate.new ≤ G.count gate.old + calls_of ask.now.action }
    ensures fault { IfErr result CanFail }
{
    match &ask.action {
        Some(action) => match perform(gate, alloc, session_of(&ask.question), action) {
            Ok(entry) => {
                entry_known(&entry);
                let entry = kept(alloc, entry)?;
                Ok(Answer::Entry(entry))
            }
            Err(_wanted) => Err(LiveFault::Memory),
        },
        None => match asker.ask(&ask.question) {
            Ok(answer) => Ok(answer),
            Err(fault) => Err(LiveFault::Asker(fault)),
        },
    }
}

/// Answers what a job needs next, or gives its record.
fn take_turn<G: Gate, A: Asker>(
    alloc: Global,
    job: &mut Job,
    gate: &mut G,
    asker: &mut A,
) -> Result<Option<Record>, LiveFault>
    requires live { job.old.live ≡ true }
    requires failed { job.old.failed ≡ false }
    requires room { (q : Asked) → NeedsNext job.old.test job.old.reads q → Acts q → G.count gate.old < 2 ^ 64 - 1 }
    requires ready { G.is_ready gate.old }
    ensures ready { G.is_ready gate.new }
    ensures turn { IfOk result (λ r. Turns G.step A.step G.count job.old job.new gate.old asker.old gate.new asker.new r) }
    ensures fault { IfErr result CanFail }
{
    let ask = match job.advance(alloc) {
        Ok(Turn::Need(ask)) => ask,
        Ok(Turn::Done(record)) => return Ok(Some(record)),
        Err(fault) => return Err(LiveFault::Job(fault)),
    };
    let answer = answer_to(alloc, &ask, gate, asker)?;
    match job.answer(answer) {
        Ok(()) => Ok(None),
        Err(fault) => Err(LiveFault::Job(fault)),
    }
}

/// A record with the transcript of what it read.
fn with_transcript(alloc: Global, judged: Record) -> Result<(Record, Transcript), LiveFault>
    requires { IsTranscript (transcript_of judged.reads) }
    ensures run { IfOk result (λ p. (p.0 ≡ judged) × (p.1 ≡ transcript_of judged.reads)) }
    ensures fault { IfErr result CanFail }
{
    match transcript_in(alloc, judged.reads()) {
        Ok(transcript) => Ok((judged, transcript)),
        Err(_) => Err(LiveFault::Memory),
    }
}

/// Judges a test over a gate: what its evaluation asks of children goes to the gate, one call for each entry that it needs, and
/// every other question to the asker. Gives the record, and the transcript of the entries, whose replay comes to the same end.
///
/// # Errors
/// `Job` where the job wants memory, or the asker's answer is of another kind than its question or of a pattern that can't be
/// built after all; `Asker` where the asker does not answer; `Memory` where the gate wants memory, or the sharing of its entry
/// or the transcript does. Nothing is given back.
pub fn run_live<G: Gate, A: Asker>(
    alloc: Global,
    test: TestId,
    gate: &mut G,
    asker: &mut A,
) -> Result<(Record, Transcript), LiveFault>
    requires room { G.count gate.old + MAX_ENTRIES < 2 ^ 64 }
    requires ready { G.is_ready gate.old }
    ensures ready { G.is_ready gate.new }
    ensures run { IfOk result (λ p. IsLiveRun G.step A.step test gate.old asker.old gate.new asker.new p.0 p.1) }
    ensures fault { IfErr result CanFail }
{
    let mut readings = Readings::new();
    run_live_with(alloc, test, &mut readings, gate, asker)
}

/// The same, with what other evaluations read of texts. What this one then has read stands in its place, unless it failed.
///
/// # Errors
/// As `run_live`.
pub fn run_live_with<G: Gate, A: Asker>(
    alloc: Global,
    test: TestId,
    readings: &mut Readings,
    gate: &mut G,
    asker: &mut A,
) -> Result<(Record, Transcript), LiveFault>
    requires room { G.count gate.old + MAX_ENTRIES < 2 ^ 64 }
    requires ready { G.is_ready gate.old }
    ensures ready { G.is_ready gate.new }
    ensures run { IfOk result (λ p. IsLiveRun G.step A.step test gate.old asker.old gate.new asker.new p.0 p.1) }
    ensures fault { IfErr result CanFail }
{
    let read = mem::replace(readings, Readings::new());
    let mut job = match Job::start_with(alloc, test, read) {
        Ok(job) => job,
        Err(_) => return Err(LiveFault::Job(JobFault::Memory)),
    };
    'turns: for _turn in 0..u64::MAX {
        match take_turn(alloc, &mut job, gate, asker)? {
            Some(judged) => {
                job.hand_on(readings);
                return with_transcript(alloc, judged);
            }
            None => {}
        }
    }
    Err(LiveFault::Memory)
}
