//! The index: the places of the records that read a topic.
ghost use Rattle.std.specs.Prelude.{◌≡◌, [], true, false, IfOk, IsTrue, None, OnOk, Some};
ghost use Rattle.dg_index.specs.Index.{is_among, readers_of, with_topic, AreNamed, Finds, IsOneOf, NamesMore, NamesReads};
ghost use Rattle.dg_index.specs.Topic.{topic_of, touched};

use crate::places::Places;
use crate::topic::Topic;
use dg_bytes::Bytes;
use dg_world::{Edit, Question, Read};
use indexmap::IndexMap;
use std::alloc::{AllocError, Global};
use std::marker::Model;

/// A topic of the index, with the places of the records that may read it.
pub type Readers<'a> = (&'a Topic, &'a [usize]);

/// For each topic the places of the records that may read it. A place may be named for longer than its record reads the
/// topic, since whoever goes there sees what is read.
pub struct Index {
    readers: IndexMap<Topic, Places>,
}

impl Drop for Index {
    fn drop(self) {
        let Index { readers: _ } = self;
    }
}

impl Model for Index {
    ghost use Rattle.dg_index.specs.Index.{IndexView};

    ghost Value = { IndexView };

    ghost view = { λ i. i.readers.entries };
}

/// For which topics a place was named: whether for the selection, to which questions come back, and the last of the others.
#[derive(Drop)]
struct Named {
    selection: bool,
    last: Option<Topic>,
}

impl Named {
    /// For none.
    fn none() -> Named
        ensures { result ≡ record { selection = false; last = None } }
    {
        Named {
            selection: false,
            last: None,
        }
    }

    /// Whether the topic of a question is one of these.
    fn covers(&self, question: &Question) -> bool
        ensures { IsTrue result → IsOneOf self.now (topic_of question.now) }
    {
        match question {
            Question::Tool | Question::Triplet(_) | Question::Variable(_) => self.selection,
            _ => match &self.last {
                Some(topic) => topic.covers(question),
                None => false,
            },
        }
    }

    /// Takes a topic in.
    fn add(&mut self, topic: Topic)
        ensures { self.new ≡ with_topic self.old topic }
    {
        if matches!(&topic, Topic::Selection) {
            self.selection = true;
        } else {
            self.last = Some(topic);
        }
    }
}

impl Index {
    /// An index that names nothing.
    pub fn new(alloc: Global) -> Index
        ensures { result ≡ [] }
    {
        Index {
            readers: IndexMap::new(alloc),
        }
    }

    /// Names a place for a topic. All that was named before is named in any case.
    pub fn name(&mut self, alloc: Global, topic: &Topic, place: usize) -> Result<(), AllocError>
        ensures named { OnOk result (IsTrue (is_among (readers_of self.new topic.now) place)) }
        ensures stays { NamesMore self.old self.new }
    {
        if self.name_again(alloc, topic, place)? {
            return Ok(());
        }
        self.name_first(alloc, topic, place)
    }

    /// Names a place for a topic that has some, and tells whether it has.
    fn name_again(&mut self, alloc: Global, topic: &Topic, place: usize) -> Result<bool, AllocError>
        ensures named { IfOk result (λ found. found ≡ true → IsTrue (is_among (readers_of self.new topic.now) place)) }
        ensures none { IfOk result (λ found. found ≡ false → readers_of self.new topic.now ≡ []) }
        ensures stays { NamesMore self.old self.new }
    {
        match self.readers.get_mut(topic) {
            Some(readers) => {
                readers.insert(alloc, place)?;
                return Ok(true);
            }
            None => return Ok(false),
        }
    }

    /// Names a place as the first for a topic.
    fn name_first(&mut self, alloc: Global, topic: &Topic, place: usize) -> Result<(), AllocError>
        requires { readers_of self.old topic.now ≡ [] }
        ensures named { OnOk result (IsTrue (is_among (readers_of self.new topic.now) place)) }
        ensures stays { NamesMore self.old self.new }
    {
        let topic = topic.copy(alloc)?;
        match self.readers.insert(topic, Places::one(place)) {
            Ok(_) => Ok(()),
            Err(_) => Err(AllocError),
        }
    }

    /// The places that are named for a topic, if any is.
    pub fn find(&self, topic: &Topic) -> Option<Readers<'_>>
        ensures { Finds self.now topic.now result }
    {
        if self.readers.is_empty() {
            return None;
        }
        let (topic, readers) = self.readers.get_key_value(topic)?;
        Some((topic, readers.as_slice()))
    }

    /// Names a place for the topic of a question, and gives the topic. All that was named before is named in any case.
    fn name_question(
        &mut self,
        alloc: Global,
        question: &Question,
        place: usize,
    ) -> Result<Topic, AllocError>
        ensures named { IfOk result (λ topic. IsTrue (is_among (readers_of self.new topic) place)) }
        ensures topic { IfOk result (λ topic. topic ≡ topic_of question.now) }
        ensures stays { NamesMore self.old self.new }
    {
        let topic = Topic::of(alloc, question)?;
        self.name(alloc, &topic, place)?;
        Ok(topic)
    }

    /// Names a place for the topic of a question, unless that is one for which it was just named. All that was named before
    /// is named in any case.
    fn name_next(
        &mut self,
        alloc: Global,
        named: &mut Named,
        question: &Question,
        place: usize,
    ) -> Result<(), AllocError>
        requires { AreNamed self.old place named.old }
        ensures named { OnOk result (IsTrue (is_among (readers_of self.new (topic_of question.now)) place)) }
        ensures last { OnOk result (AreNamed self.new place named.new) }
        ensures stays { NamesMore self.old self.new }
    {
        if named.covers(question) {
            return Ok(());
        }
        let topic = self.name_question(alloc, question, place)?;
        named.add(topic);
        Ok(())
    }

    /// Names a place for the topic of each read. All that was named before is named in any case. Of reads of the selection,
    /// and of those on another topic with none but such between them, as those of a transcript, only the first looks for it.
    pub fn name_reads(
        &mut self,
        alloc: Global,
        reads: &[Read],
        place: usize,
    ) -> Result<(), AllocError>
        ensures named { OnOk result (NamesReads self.new place reads.now) }
        ensures stays { NamesMore self.old self.new }
    {
        let mut named = Named::none();
        for read in reads {
            self.name_next(alloc, &mut named, &read.question, place)?;
        }
        Ok(())
    }

    /// The places that are named for a file, with its name back.
    fn find_file(&self, name: Bytes) -> (Option<Readers<'_>>, Bytes)
        ensures found { Finds self.now (Topic.File name) result.0 }
        ensures back { result.1 ≡ name }
    {
        let topic = Topic::File(name);
        let readers = self.find(&topic);
        (readers, topic.into_name())
    }

    /// The places that are named for what an edit touches, with the edit back. It takes no memory.
    pub fn find_touched(&self, edit: Edit) -> (Option<Readers<'_>>, Edit)
        ensures found { Finds self.now (touched edit) result.0 }
        ensures back { result.1 ≡ edit }
    {
        match edit {
            Edit::PutFile(name, bytes) => {
                let (readers, name) = self.find_file(name);
                (readers, Edit::PutFile(name, bytes))
            }
            Edit::RemoveFile(name) => {
                let (readers, name) = self.find_file(name);
                (readers, Edit::RemoveFile(name))
            }
            Edit::Select(selection) => (self.find(&Topic::Selection), Edit::Select(selection)),
            Edit::PutTranscript(board, script, text) => {
                let (readers, board, script) = self.find_transcript(board, script);
                (readers, Edit::PutTranscript(board, script, text))
            }
            Edit::DropTranscript(board, script) => {
                let (readers, board, script) = self.find_transcript(board, script);
                (readers, Edit::DropTranscript(board, script))
            }
        }
    }

    /// The places that are named for the transcript of a test, with its board and its script back.
    fn find_transcript(&self, board: Bytes, script: Bytes) -> (Option<Readers<'_>>, Bytes, Bytes)
        ensures found { Finds self.now (Topic.Transcript board script) result.0 }
        ensures board { result.1 ≡ board }
        ensures script { result.2 ≡ script }
    {
        let topic = Topic::Transcript(board, script);
        let readers = self.find(&topic);
        let (board, script) = topic.into_test();
        (readers, board, script)
    }
}
