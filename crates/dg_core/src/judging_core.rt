//! A world with the records that are kept of it.
ghost use Rattle.std.specs.Prelude.{◌≡◌, ◌⊎◌, ◌++◌, [], List, Ok, Err, Some, true, IfOk, IfErr, OnOk, OnErr, IsTrue};
ghost use Rattle.std.specs.Option.{option_copied};
ghost use Rattle.dg_world.specs.declared.question.Read.{Read};
ghost use Rattle.dg_index.specs.Kept.{is_held, place_of};
ghost use Rattle.dg_index.specs.Marks.{counted};
ghost use Rattle.dg_core.specs.Lineup.{adds_at_most, place_in, HoldsElsewhere, IsCurrent, IsLineup, IsPlace};
ghost use Rattle.dg_core.specs.Turning.{AsksInTurn, JudgesOne, JudgesAll, JudgesSome};
ghost use Rattle.dg_core.specs.Core.{kept_of, committed, committed_live, IsAskedOf, core_of, new_core, pending, settled, edited_core, unheld, with_judged, IsPartlySettled};
ghost use Rattle.dg_core.specs.Scratch.{scratch, all_judged, IsJudged};
ghost use Rattle.dg_core.specs.Reply.{Replies};
ghost use Rattle.dg_core.specs.Asking.{HasVerdict};
ghost use Rattle.dg_core.specs.Fault.{Blames, Tells};
ghost use Rattle.dg_core.specs.Grown.{IsGrown};
ghost use Rattle.dg_records.specs.Truth.{answers_of};
ghost use Rattle.dg_world.specs.World.{look, selected, takes_memory, transcript_of};

use crate::evaluate::evaluate;
use crate::lineup::{Lineup, opened_to};
use crate::openings::Openings;
use crate::reply::Reply;
use dg_bytes::{Bytes, Seq, TryCopy};
use dg_eval::{JobFault, Readings};
use dg_index::Kept;
use dg_records::Record;
use dg_sum::{Judged, exit_status, sum_text};
use dg_transcript::Transcript;
use dg_world::{Answer, Edit, Question, Refusal, TestId};
use std::alloc::{AllocError, Global};
use std::marker::Model;
use thiserror::Error;

/// Why a settling gives no report.
#[derive(Debug, PartialEq, Eq, Drop, Error)]
pub enum CoreFault {
    /// The evaluation of this test needs a pattern that was answered as read, and it can't be built.
    #[error("a pattern answered as read could not be built")]
    PatternLost(TestId),
    /// A growth was refused.
    #[error("out of memory")]
    Memory,
}

/// A world, one record for each test that had one, the number of reads compared, and that of evaluations begun. Beside them
/// the lineup of the last report may stand, which no contract sees.
pub struct Core {
    kept: Kept,
    lineup: Option<Lineup>,
    evaluations: u64,
}

/// Written by hand, and so one call for whoever lets a core go.
impl Drop for Core {
    fn drop(self) {
        let Core {
            kept: _,
            lineup: _,
            evaluations: _,
        } = self;
    }
}

impl Model for Core {
    ghost use Rattle.std.specs.Prelude.{IfSome};
    ghost use Rattle.dg_core.specs.Core.{CoreView, core_of};
    ghost use Rattle.dg_core.specs.Lineup.{IsCurrent};

    ghost Value = { CoreView };

    ghost view = { λ c. core_of c.kept c.evaluations };

    ghost invariant = { λ c. IfSome c.lineup (IsCurrent c.kept.world c.kept.shelf) };
}

impl Core {
    /// A core over a new world, with no records.
    pub fn new(alloc: Global) -> Result<Core, AllocError>
        ensures { IfOk result (λ c. c ≡ new_core) }
    {
        Ok(Core {
            kept: Kept::new(alloc)?,
            lineup: None,
            evaluations: 0,
        })
    }

    /// Edits the world, or refuses the edit and changes nothing. `Memory` only where a file is added that nothing else
    /// refuses.
    pub fn edit(&mut self, alloc: Global, edit: Edit) -> Result<(), Refusal>
        ensures ok { OnOk result (edited_core self.old edit ≡ Ok self.new) }
        ensures which { IfErr result (λ r. (r ≡ Refusal.Memory) ⊎ (edited_core self.old edit ≡ Err r)) }
        ensures memory { (result ≡ Err Refusal.Memory) → IsTrue (takes_memory self.old.world edit) }
        ensures err { OnErr result (self.new ≡ self.old) }
    {
        let files = self.kept.world().file_count();
        let may_stay = adds_at_most(&edit);
        let (lineup, edit) = opened_to(self.lineup.take(), &self.kept, edit);
        if let Err(refusal) = self.kept.edit(alloc, edit) {
            self.lineup = lineup;
            return Err(refusal);
        }
        if may_stay && self.kept.world().file_count() == files {
            self.lineup = lineup;
        }
        Ok(())
    }

    /// The selected tests: board by board in the selection's order, and on each the scripts in byte order of their names.
    pub fn selected(&self, alloc: Global) -> Result<Seq<TestId>, AllocError>
        ensures { IfOk result (λ l. l ≡ selected self.now.world) }
    {
        self.kept.world().selected(alloc)
    }

    /// The answer to a question. A pattern that is asked for the first time is read, and its answer goes into the book for
    /// good; no other question changes anything, nor does want of memory.
    pub fn ask(&mut self, alloc: Global, question: &Question) -> Result<Answer, AllocError>
        ensures ok { IfOk result (IsAskedOf self.old self.new question.now) }
        ensures err { OnErr result (self.new ≡ self.old) }
    {
        self.lineup = None;
        self.kept.ask(alloc, question)
    }

    /// The answer to a question, if there is one: there is none only to a pattern that was never asked for. It changes
    /// nothing.
    pub fn answer(&self, alloc: Global, question: &Question) -> Result<Option<Answer>, AllocError>
        ensures { IfOk result (λ a. a ≡ look self.now.world question.now) }
    {
        self.kept.world().answer(alloc, question)
    }

    /// The transcript of a test, if it has one.
    pub fn transcript(&self, test: &TestId) -> Option<&Transcript>
        ensures { option_copied result ≡ transcript_of self.now.world test.now }
    {
        self.kept.world().transcript(test)
    }

    /// Keeps a record in the place of the one that its test had, or gives it back and changes nothing where there is no
    /// room for it.
    pub fn commit(&mut self, alloc: Global, newest: Record) -> Result<(), Record>
        ensures ok { OnOk result (self.new ≡ committed self.old newest) }
        ensures err { OnErr result (self.new ≡ self.old) }
        ensures back { IfErr result (λ r. r ≡ newest) }
    {
        self.lineup = None;
        self.kept.commit(alloc, newest)
    }

    /// Keeps the record of a live run, in the place of the one that its test had, and makes its transcript that of its
    /// test: both, or neither, and then both come back. `TooMany` only where it is a new test beside 65,536 transcripts,
    /// and `Memory` where a growth was refused, which comes first.
    pub fn commit_live(
        &mut self,
        alloc: Global,
        newest: Record,
        transcript: Transcript,
    ) -> Result<(), (Refusal, Record, Transcript)>
        ensures ok { OnOk result (committed_live self.old newest transcript ≡ Ok self.new) }
        ensures which { IfErr result (λ r. (r.0 ≡ Refusal.Memory) ⊎ (committed_live self.old newest transcript ≡ Err r.0)) }
        ensures err { OnErr result (self.new ≡ self.old) }
        ensures back { IfErr result (λ r. (r.1 ≡ newest) × (r.2 ≡ transcript)) }
    {
        self.lineup = None;
        self.kept.commit_live(alloc, newest, transcript)
    }

    /// How many evaluations were begun; the count stays at its last value.
    pub fn evaluations(&self) -> u64
        ensures { result ≡ self.now.evaluations }
    {
        self.evaluations
    }

    /// How many reads were compared with the world: those of a record as it is kept, and those that an edit, a live run or a
    /// question may have given another answer. The count stays at its last value.
    pub fn compared(&self) -> u64
        ensures { result ≡ self.now.compared }
    {
        self.kept.compared()
    }

    /// Takes the lineup of the last report, where the same tests are selected still, or makes a new one.
    fn line_up(&mut self, alloc: Global) -> Result<Lineup, AllocError>
        ensures lineup { IfOk result (IsCurrent self.old.world self.old.shelf) }
        ensures stays { self.new ≡ self.old }
    {
        match self.lineup.take() {
            Some(lineup) => Ok(lineup),
            None => Lineup::of(alloc, &self.kept),
        }
    }

    /// Keeps a lineup for the next report, where each selected test is held and the place of each record is known.
    fn keep_lineup(&mut self, alloc: Global, lineup: Lineup)
        requires lineup { IsLineup self.old.world self.old.shelf lineup }
        requires held { pending self.old ≡ [] }
        ensures { self.new ≡ self.old }
    {
        self.lineup = lineup.closed(alloc, self.kept.record_count());
    }

    /// The place of the record of a test, which stands here in a lineup.
    fn place_of(&self, lineup: &Lineup, at: usize, test: &TestId) -> Option<usize>
        requires { IsPlace self.now.shelf test.now (place_in lineup.now at) }
        ensures { result ≡ place_of self.now.shelf test.now }
    {
        match lineup.place(at) {
            Some(place) => Some(place),
            None => self.kept.place_of(test),
        }
    }

    /// Whether a test, which stands here in a lineup, has a kept record that holds.
    fn is_held(&self, lineup: &Lineup, at: usize, test: &TestId) -> bool
        requires { IsPlace self.now.shelf test.now (place_in lineup.now at) }
        ensures { result ≡ is_held self.now.world self.now.shelf test.now }
    {
        match self.place_of(lineup, at, test) {
            Some(place) => self.kept.is_held_at(place),
            None => false,
        }
    }

    /// Adds a test, which stands here in a lineup, to others, unless it is held.
    fn add_unheld(
        &self,
        alloc: Global,
        pending: &mut Seq<TestId>,
        lineup: &Lineup,
        at: usize,
        test: &TestId,
    ) -> Result<(), AllocError>
        requires { IsPlace self.now.shelf test.now (place_in lineup.now at) }
        ensures { OnOk result (pending.new ≡ pending.old ++ unheld self.now test.now) }
    {
        if !self.is_held(lineup, at, test) {
            pending.push(test.copy(alloc)?)?;
        }
        Ok(())
    }

    /// Those of the selected tests that are not held, in order.
    fn pending(&self, alloc: Global, lineup: &Lineup) -> Result<Seq<TestId>, AllocError>
        requires { IsCurrent self.now.world self.now.shelf lineup.now }
        ensures { IfOk result (λ l. l ≡ pending self.now) }
    {
        match lineup.openings() {
            Some(openings) => self.pending_at(alloc, lineup, openings),
            None => self.pending_of_all(alloc, lineup),
        }
    }

    /// The same by the tests at the open positions: every other one is held.
    fn pending_at(
        &self,
        alloc: Global,
        lineup: &Lineup,
        openings: &Openings,
    ) -> Result<Seq<TestId>, AllocError>
        requires lineup { IsLineup self.now.world self.now.shelf lineup.now }
        requires elsewhere { HoldsElsewhere self.now.world self.now.shelf lineup.now.tests openings.now }
        ensures { IfOk result (λ l. l ≡ pending self.now) }
    {
        let mut pending = Seq::new(alloc);
        let tests = lineup.tests();
        for at in openings.opened() {
            if let Some(test) = tests.get(*at) {
                self.add_unheld(alloc, &mut pending, lineup, *at, test)?;
            }
        }
        Ok(pending)
    }

    /// The same by all tests.
    fn pending_of_all(&self, alloc: Global, lineup: &Lineup) -> Result<Seq<TestId>, AllocError>
        requires { IsLineup self.now.world self.now.shelf lineup.now }
        ensures { IfOk result (λ l. l ≡ pending self.now) }
    {
        let mut pending = Seq::new(alloc);
        let tests = lineup.tests();
        for (at, test) in tests.iter().enumerate() {
            self.add_unheld(alloc, &mut pending, lineup, at, test)?;
        }
        Ok(pending)
    }
}

impl Core {
    /// A test, which stands here in a lineup and is held, with the verdict of its record.
    fn judged_test(&self, lineup: &Lineup, at: usize, test: &TestId) -> Judged<'_>
        requires place { IsPlace self.now.shelf test.now (place_in lineup.now at) }
        requires held { is_held self.now.world self.now.shelf test.now ≡ true }
        ensures { IsJudged self.now.world test.now result }
    {
        let Some(place) = self.place_of(lineup, at, test) else {
            unreachable!()
        };
        let Some(judged) = self.kept.judged_at(place) else {
            unreachable!()
        };
        judged
    }

    /// Each selected test with the verdict of its record, where every one is held.
    fn judged(&self, alloc: Global, lineup: &Lineup) -> Result<Vec<Judged<'_>>, AllocError>
        requires held { pending self.now ≡ [] }
        requires lineup { IsLineup self.now.world self.now.shelf lineup.now }
        ensures { IfOk result (λ l. all_judged (answers_of self.now.world) (selected self.now.world) ≡ Some l.items) }
    {
        let mut judged = Vec::new(alloc);
        let tests = lineup.tests();
        for (at, test) in tests.iter().enumerate() {
            judged.push(self.judged_test(lineup, at, test))?;
        }
        Ok(judged)
    }

    /// The report and the status, where every selected test is held.
    #[tactic(auto, unfolding(crate::specs::Scratch::scratch))]
    fn sum(&self, alloc: Global, lineup: &Lineup) -> Result<(Bytes, u8), AllocError>
        requires held { pending self.now ≡ [] }
        requires lineup { IsLineup self.now.world self.now.shelf lineup.now }
        ensures { IfOk result (λ r. scratch self.now.world ≡ Some (r.0, r.1)) }
    {
        let judged = self.judged(alloc, lineup)?;
        let text = sum_text(alloc, self.kept.world().selection(), judged.as_slice())?;
        Ok((text, exit_status(judged.as_slice())))
    }

    /// The report of the world as it stands, or the selected tests without a kept record that
    /// holds. It evaluates nothing, and changes nothing.
    pub fn report(&self, alloc: Global) -> Result<Reply, AllocError>
        ensures { IfOk result (Replies self.now) }
    {
        let lineup = Lineup::of(alloc, &self.kept)?;
        let pending = self.pending(alloc, &lineup)?;
        if !pending.is_empty() {
            return Ok(Reply::Pending(pending));
        }
        let (text, status) = self.sum(alloc, &lineup)?;
        Ok(Reply::Sum(text, status))
    }

    /// Evaluates a test and keeps its record.
    fn judge(
        &mut self,
        alloc: Global,
        test: &TestId,
        readings: &mut Readings,
    ) -> Result<(), CoreFault>
        ensures grown { IsGrown self.old.world self.new.world }
        ensures ok { OnOk result (self.new ≡ with_judged self.new.world self.new.compared self.old test.now) }
        ensures ends { OnOk result (HasVerdict self.new.world test.now) }
        ensures err { OnErr result (self.new ≡ record self.old
            { world = self.new.world; compared = self.new.compared; evaluations = counted self.old.evaluations 1 }) }
        ensures why { IfErr result (Blames test.now self.new.world) }
        ensures judges { OnOk result (JudgesOne (kept_of self.old) test.now (kept_of self.new)) }
        ensures stopped { OnErr result ((reads : List Read) × AsksInTurn (kept_of self.old) reads (kept_of self.new)) }
    {
        self.lineup = None;
        self.evaluations = self.evaluations.saturating_add(1);
        let judged = match evaluate(alloc, &mut self.kept, test, readings) {
            Ok(judged) => judged,
            Err(JobFault::PatternLost) => return Err(CoreFault::PatternLost(test.copy(alloc)?)),
            Err(JobFault::Memory) => return Err(CoreFault::Memory),
            Err(JobFault::NotAsked | JobFault::WrongKind | JobFault::Failed) => unreachable!(),
        };
        match self.kept.commit_held(alloc, judged) {
            Ok(()) => Ok(()),
            Err(_) => Err(CoreFault::Memory),
        }
    }

    /// The report of the world as it then stands: its bytes and the exit status. Just the selected tests
    /// without a kept record that holds as it begins are evaluated first, in order, and their records kept. A pattern that
    /// they are the first to ask for enters the book, for good; nothing else of the world changes.
    ///
    /// # Errors
    /// `PatternLost` where the evaluation of a test needs a pattern that was answered as read and can't be built, `Memory`
    /// where a growth is refused; the records, pattern answers and counts that were made before stay.
    pub fn settle(&mut self, alloc: Global) -> Result<(Bytes, u8), CoreFault>
        ensures sum { IfOk result (λ r. scratch self.new.world ≡ Some (r.0, r.1)) }
        ensures grown { IsGrown self.old.world self.new.world }
        ensures settles { OnOk result (self.new ≡ settled self.new.world self.new.compared self.old) }
        ensures kept { OnErr result (IsPartlySettled self.old self.new) }
        ensures why { IfErr result (Tells self.old self.new.world) }
        ensures judges { OnOk result (JudgesAll (kept_of self.old) (pending self.old) (kept_of self.new)) }
        ensures stopped { OnErr result (JudgesSome self.old self.new) }
    {
        // The call shows the proof how many evaluations had begun.
        let _begun = self.evaluations();
        let lineup = self.line_up(alloc)?;
        let sum = self.settle_by(alloc, &lineup)?;
        self.keep_lineup(alloc, lineup);
        Ok(sum)
    }

    /// The same, by a lineup of the world.
    fn settle_by(&mut self, alloc: Global, lineup: &Lineup) -> Result<(Bytes, u8), CoreFault>
        requires { IsCurrent self.old.world self.old.shelf lineup.now }
        ensures sum { IfOk result (λ r. scratch self.new.world ≡ Some (r.0, r.1)) }
        ensures grown { IsGrown self.old.world self.new.world }
        ensures settles { OnOk result (self.new ≡ settled self.new.world self.new.compared self.old) }
        ensures kept { OnErr result (IsPartlySettled self.old self.new) }
        ensures why { IfErr result (Tells self.old self.new.world) }
        ensures judges { OnOk result (JudgesAll (kept_of self.old) (pending self.old) (kept_of self.new)) }
        ensures stopped { OnErr result (JudgesSome self.old self.new) }
    {
        // The call shows the proof how many evaluations had begun.
        let _begun = self.evaluations();
        let pending = self.pending(alloc, lineup)?;
        let mut readings = Readings::new();
        for test in pending.as_slice() {
            self.judge(alloc, test, &mut readings)?;
        }
        let sum = self.sum(alloc, lineup)?;
        Ok(sum)
    }
}

/// Whether an edit leaves the selection as it is, and takes no file away.
fn adds_at_most(edit: &Edit) -> bool
    ensures { result ≡ adds_at_most edit.now }
{
    match edit {
        Edit::PutFile(_, _) | Edit::PutTranscript(_, _, _) | Edit::DropTranscript(_, _) => true,
        Edit::RemoveFile(_) | Edit::Select(_) => false,
    }
}

impl From<AllocError> for CoreFault {
    ghost use Rattle.dg_core.specs.declared.judging_core.CoreFault.TheVariants.{Memory};

    ghost from_gives = { λ _ e. e ≡ Memory };

    fn from(_e: AllocError) -> CoreFault {
        CoreFault::Memory
    }
}
