//! Numbers: each content that a kept record was given is held, and known by its number.
ghost use Rattle.std.specs.Prelude.{◌≡◌, ◌+◌, ◌-◌, ℕ, List, Ok, IfOk, OnOk, OnErr};
ghost use Rattle.std.specs.Option.{option_copied};
ghost use Rattle.dg_contents.specs.Contents.{holders_of, KeepsHeldNumbers, KeepsNumbers};
ghost use Rattle.dg_index.specs.Marks.{is_stale, MarkedView};
ghost use Rattle.dg_index.specs.Numbers.{content_read, given_by, given_once, now_after, number_in, numbers_in, HasNumber, HoldsMore, IsNumbered, Tells, TellsOn};
ghost use Rattle.dg_world.specs.declared.test_id.TestId.{TestId};
ghost use Rattle.dg_index.specs.Topic.{touched};
ghost use Rattle.dg_world.specs.World.{edited, WorldView};

use dg_bytes::Bytes;
use dg_contents::Contents;
use dg_world::{Answer, Edit, Question, Read, World};
use std::alloc::{AllocError, Global};

/// What is known of a file after an edit.
#[derive(Drop)]
pub enum Now {
    /// It has a content, which has this number if a record was given it.
    Numbered(Option<u64>),
    /// No number tells: the world has to be asked.
    Elsewhere,
}

impl Now {
    /// What is known after an edit.
    pub fn after(contents: &Contents, edit: &Edit) -> Now
        ensures value { result ≡ now_after contents.now edit.now }
        ensures tells { (w v : WorldView) → edited w edit.now ≡ Ok v → TellsOn contents.now v (touched edit.now) result }
    {
        match edit {
            Edit::PutFile(_, bytes) => Now::Numbered(contents.find(bytes)),
            Edit::RemoveFile(_)
            | Edit::Select(_)
            | Edit::PutTranscript(_, _, _)
            | Edit::DropTranscript(_, _) => Now::Elsewhere,
        }
    }
}

/// Whether a read has another answer than the world gives now. Where the content of its file is known by a number, numbers are
/// compared.
pub fn is_stale(
    read: &Read,
    number: Option<u64>,
    world: &World,
    _contents: &Contents,
    now: &Now,
) -> bool
    requires known { number ≡ number_in _contents.now read.now }
    requires held { HasNumber _contents.now (content_read read.now) }
    requires tells { Tells _contents.now world.now read.now.question now.now }
    ensures { result ≡ is_stale world.now read.now }
{
    match now {
        Now::Numbered(current) => match (&read.answer, number, current) {
            (Answer::Content(_), Some(given), Some(current)) => given != *current,
            _ => true,
        },
        Now::Elsewhere => !world.agrees(&read.question, &read.answer),
    }
}

/// The content that a read was given, if it was given one.
fn content_read(read: &Read) -> Option<&Bytes>
    ensures { option_copied result ≡ content_read read.now }
{
    match (&read.question, &read.answer) {
        (Question::File(_), Answer::Content(text)) => Some(text),
        _ => None,
    }
}

/// Holds the content that a read was given, and gives its number.
fn hold(alloc: Global, contents: &mut Contents, read: &Read) -> Result<Option<u64>, AllocError>
    ensures number { IfOk result (λ n. n ≡ number_in contents.new read.now) }
    ensures has { OnOk result (HasNumber contents.new (content_read read.now)) }
    ensures more { OnOk result
        ((t : List ℕ) → holders_of contents.new t ≡ holders_of contents.old t + given_once t (content_read read.now)) }
    ensures stays { KeepsNumbers contents.old contents.new }
    ensures err { OnErr result (contents.new ≡ contents.old) }
{
    match content_read(read) {
        Some(text) => Ok(Some(contents.hold(alloc, text)?)),
        None => Ok(None),
    }
}

/// Holds each content that some reads were given, and gives their numbers, or holds no more than before.
pub fn hold_all(
    alloc: Global,
    contents: &mut Contents,
    reads: &[Read],
) -> Result<Vec<Option<u64>>, AllocError>
    ensures numbers { IfOk result (λ l. l.items ≡ numbers_in contents.new reads.now) }
    ensures held { OnOk result
        ((es : List (TestId × MarkedView)) → IsNumbered contents.old es → HoldsMore contents.new es reads.now) }
    ensures numbered { (es : List (TestId × MarkedView)) → IsNumbered contents.old es → IsNumbered contents.new es }
{
    let mut numbers = Vec::with_capacity(alloc, reads.len())?;
    for (place, read) in reads.iter().enumerate() {
        match hold(alloc, contents, read) {
            Ok(number) => numbers.push_reserved(number),
            Err(fault) => {
                release_all(contents, &reads[..place]);
                return Err(fault);
            }
        }
    }
    Ok(numbers)
}

/// Lets go the content that a read was given.
fn release(contents: &mut Contents, read: &Read)
    ensures fewer { (t : List ℕ) → holders_of contents.new t ≡ holders_of contents.old t - given_once t (content_read read.now) }
    ensures stays { KeepsHeldNumbers contents.old contents.new }
{
    if let Some(text) = content_read(read) {
        contents.release(text);
    }
}

/// Lets go each content that some reads were given.
pub fn release_all(contents: &mut Contents, reads: &[Read])
    ensures fewer { (t : List ℕ) → holders_of contents.new t ≡ holders_of contents.old t - given_by t reads.now }
    ensures stays { KeepsHeldNumbers contents.old contents.new }
{
    for read in reads {
        release(contents, read);
    }
}
