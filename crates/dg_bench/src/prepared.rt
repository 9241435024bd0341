//! Calls that are about to enter the history.
ghost use Rattle.std.specs.Prelude.{◌≡◌, IfOk};
ghost use Rattle.dg_bench.specs.declared.call.Call.TheVariants.{Ask as asked};
ghost use Rattle.dg_world.specs.declared.question.Question.{Question as Questioned};
ghost use Rattle.dg_world.specs.declared.question.Answer.{Answer as Answered};
ghost use Rattle.dg_world.specs.declared.question.Answer.TheVariants.{Reading as read_as};

use crate::call::Call;
use crate::cells::Block;
use crate::place::Place;
use dg_match::Reading;
use once_cell::race::Note;
use std::alloc::{AllocError, Global};
use std::snapshot::Snapshot;

/// A call for which there is room, and what goes into its place.
pub(crate) struct Prepared {
    pub(crate) call: Call,
    pub(crate) place: Box<Place>,
    pub(crate) block: Note<Block>,
}

impl Drop for Prepared {
    fn drop(self) {
        let Prepared {
            call: _,
            place: _,
            block: _,
        } = self;
    }
}

/// What goes into the place of a call behind these calls.
fn place_of(
    alloc: Global,
    call: &Call,
    before: Snapshot<Vec<Call>>,
) -> Result<Box<Place>, AllocError>
    ensures call { IfOk result (λ p. p.value.call ≡ call.now) }
    ensures before { IfOk result (λ p. p.value.before ≡ before) }
{
    let call = call.copy(alloc)?;
    match Box::new(alloc, Place { call, before }) {
        Ok(place) => Ok(place),
        Err(_) => Err(AllocError),
    }
}

impl Prepared {
    /// A call, and what goes into its place behind these calls, which stands in this block.
    pub(crate) fn of(
        alloc: Global,
        call: Call,
        before: Snapshot<Vec<Call>>,
        block: Note<Block>,
    ) -> Result<Prepared, AllocError>
        ensures call { IfOk result (λ p. (p.call ≡ call) × (p.place.value.call ≡ call)) }
        ensures before { IfOk result (λ p. p.place.value.before ≡ before) }
        ensures block { IfOk result (λ p. p.block ≡ block) }
    {
        match place_of(alloc, &call, before) {
            Ok(place) => Ok(Prepared { call, place, block }),
            Err(_) => Err(AllocError),
        }
    }

    /// The call, what goes into its place, and the note of the block.
    pub(crate) fn into_parts(self) -> (Call, Box<Place>, Note<Block>)
        ensures { (result.0 ≡ self.call) × (result.1 ≡ self.place) × (result.2 ≡ self.block) }
    {
        let Prepared { call, place, block } = self;
        (call, place, block)
    }

    /// Writes how a pattern is read into the call that asks for it, and into its place.
    pub(crate) fn tell(&mut self, reading: Reading)
        requires call { (question : Questioned) × (answer : Answered) × (self.old.call ≡ asked question answer) }
        requires place { self.old.place.value.call ≡ self.old.call }
        ensures call { (question : Questioned) (answer : Answered) → self.old.call ≡ asked question answer → self.new.call ≡
            asked question (read_as reading) }
        ensures place { self.new.place.value.call ≡ self.new.call }
        ensures before { self.new.place.value.before ≡ self.old.place.value.before }
        ensures block { self.new.block ≡ self.old.block }
    {
        self.call.tell(reading);
        self.place.call.tell(reading);
    }
}
