//! The evaluation of a test in a world, whose book takes up each new pattern.
ghost use Rattle.std.specs.Prelude.{◌≡◌, List, IfOk, OnErr, MatchResult, option_and_then, option_copied};
ghost use Rattle.dg_transcript.specs.Sessions.{entry_at};
ghost use Rattle.dg_world.specs.declared.question.Read.{Read};
ghost use Rattle.dg_core.specs.Asking.{IsTold, Stops, Takes, Judges, Fails};
ghost use Rattle.dg_core.specs.Grown.{IsGrown};
ghost use Rattle.dg_core.specs.Turning.{AsksInTurn};

use dg_bytes::TryCopy;
use dg_eval::{Answers, Job, JobFault, Readings, Turn};
use dg_index::Kept;
use dg_records::Record;
use dg_transcript::{Entry, Transcript};
use dg_world::{Answer, EntryPlace, Question, TestId, World};
use std::alloc::{AllocError, Global};
use std::marker::Model;
use std::mem;

/// The entry at a place of a transcript, if there is one.
fn entry_in<'a>(transcript: Option<&'a Transcript>, place: &EntryPlace) -> Option<&'a Entry>
    ensures { option_copied result ≡ option_and_then (λ ss. entry_at ss place.now.session place.now.place)
        (option_copied transcript.entry) }
{
    match transcript {
        Some(transcript) => transcript.entry(place.session, place.place),
        None => None,
    }
}

/// What a world answers to the questions of a test, whose transcript was looked for before: its entries are not sought by
/// their test.
#[derive(Drop)]
struct Looking<'a> {
    world: &'a World,
    test: &'a TestId,
    transcript: Option<&'a Transcript>,
}

impl<'a> Model for Looking<'a> {
    ghost use Rattle.std.specs.Prelude.{◌≡◌};
    ghost use Rattle.std.specs.Option.{option_copied};
    ghost use Rattle.dg_world.specs.World.{WorldView, transcript_of};

    ghost Value = { WorldView };

    ghost view = { λ l. l.world.now };

    ghost invariant = { λ l. option_copied l.transcript ≡ transcript_of l.world.now l.test.now };
}

impl<'a> Looking<'a> {
    /// The answers of a world to the questions of a test.
    fn new(world: &'a World, test: &'a TestId) -> Looking<'a>
        ensures { result ≡ world.now }
    {
        let transcript = world.transcript(test);
        Looking {
            world,
            test,
            transcript,
        }
    }
}

impl<'a> Answers for Looking<'a> {
    ghost use Rattle.dg_records.specs.Truth.{answers_of};
    ghost use Rattle.dg_world.specs.World.{FitsQuestion};

    ghost source = { λ w. answers_of w };

    ghost holds = { FitsQuestion };

    fn answer_to(&self, alloc: Global, question: &Question) -> Result<Option<Answer>, AllocError> {
        match question {
            Question::Entry(place) if place.test.is(self.test) => {
                match entry_in(self.transcript, place) {
                    Some(entry) => Ok(Some(Answer::Entry(entry.copy(alloc)?))),
                    None => Ok(Some(Answer::Ended)),
                }
            }
            _ => self.world.answer(alloc, question),
        }
    }
}

/// Tells a job what the world answers to its questions, up to one that has no answer yet, or to its record.
fn look_up_all(alloc: Global, kept: &Kept, test: &TestId, job: &mut Job) -> Result<Turn, JobFault>
    requires { IsTold kept.now.world job.old.test job.old }
    ensures { MatchResult result (Stops kept.now job.old job.new) (Fails kept.now.world job.old.test) }
{
    let looking = Looking::new(kept.world(), test);
    job.advance_along(alloc, &looking)
}

/// Tells a job what the world answers to its next questions, with the first that is new to the world, or gives its record.
/// All that it was told so far are this world's answers.
#[tactic(none)]
fn take_turns(
    alloc: Global,
    kept: &mut Kept,
    test: &TestId,
    job: &mut Job,
) -> Result<Option<Record>, JobFault>
    requires { IsTold kept.old.world job.old.test job.old }
    ensures grown { IsGrown kept.old.world kept.new.world }
    ensures shelf { kept.new.shelf ≡ kept.old.shelf }
    ensures turn { MatchResult result (Takes kept.old kept.new job.old job.new) (Fails kept.new.world job.old.test) }
    ensures stopped { OnErr result ((reads : List Read) × AsksInTurn kept.old reads kept.new) }
{
    let ask = match look_up_all(alloc, kept, test, job) {
        Ok(Turn::Need(ask)) => ask,
        Ok(Turn::Done(record)) => return Ok(Some(record)),
        Err(fault) => return Err(fault),
    };
    let told = kept.ask(alloc, &ask.question)?;
    match job.answer(told) {
        Ok(()) => Ok(None),
        Err(fault) => Err(fault),
    }
}

/// Judges a test in a world. A pattern that its evaluation is the first to ask for enters the world's book; what its record
/// reads is asked for in turn, and nothing else.
pub(crate) fn evaluate(
    alloc: Global,
    kept: &mut Kept,
    test: &TestId,
    readings: &mut Readings,
) -> Result<Record, JobFault>
    ensures grown { IsGrown kept.old.world kept.new.world }
    ensures shelf { kept.new.shelf ≡ kept.old.shelf }
    ensures record { MatchResult result (Judges kept.new.world test.now) (Fails kept.new.world test.now) }
    ensures asked { IfOk result (λ r. AsksInTurn kept.old r.reads kept.new) }
    ensures stopped { OnErr result ((reads : List Read) × AsksInTurn kept.old reads kept.new) }
{
    let read = mem::replace(readings, Readings::new());
    let mut job = Job::start_with(alloc, test.copy(alloc)?, read)?;
    'turns: loop {
        if let Some(record) = take_turns(alloc, kept, test, &mut job)? {
            job.hand_on(readings);
            return Ok(record);
        }
    }
}
