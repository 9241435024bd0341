//! What is under the lock.
ghost use Rattle.std.specs.Prelude.{ℕ, ◌≡◌, ◌≢◌, ◌<◌, ◌≤◌, [], length, false, Ok, Err, Some, None, IfOk, IfErr, OnOk, OnErr, IsSome, MatchOption};
ghost use Rattle.dg_core.specs.Core.{new_core, edited_core, committed_live, IsAskedOf};
ghost use Rattle.dg_core.specs.Reply.{Replies};
ghost use Rattle.dg_world.specs.World.{look, transcript_of};
ghost use Rattle.dg_world.specs.declared.question.Answer.TheVariants.{Reading as read_as};
ghost use Rattle.dg_bench.specs.declared.refusal.BenchRefusal.TheVariants.{HistoryFull};
ghost use Rattle.dg_bench.specs.History.{IsLegal, Makes, Steps};
ghost use Rattle.dg_bench.specs.Made.{Enters, Looks};
ghost use Rattle.dg_bench.specs.Seen.{HasSeenBeginningOf, seen_all};
ghost use Rattle.dg_bench.specs.Refusals.{Refuses, RefusesBegun, SeesAll, never};
ghost use Rattle.dg_bench.specs.Work.{Lists, Recalls, tests_of};
ghost use Rattle.dg_bench.specs.declared.call.Call.TheVariants.{Edit as edited, Ask as asked, Commit as committed, Live as lived, Report as reported};

use crate::call::Call;
use crate::cells::Cells;
use crate::history::History;
use crate::note::PlaceNote;
use crate::notes::{conclude, finish, prepare, whole};
use crate::pass::Pass;
use crate::receipt::Receipt;
use crate::refusal::BenchRefusal;
use crate::room::Room;
use crate::work::Work;
use dg_bytes::{Seq, TryCopy};
use dg_core::{Core, Reply};
use dg_match::Reading;
use dg_records::Record;
use dg_transcript::Transcript;
use dg_world::{Answer, Edit, Question, Refusal, TestId};
use std::alloc::{AllocError, Global};
use std::marker::{Model, PhantomData};

/// A core, its calls so far, and what is known of their places. The calls are legal, and make just this core unless the
/// bench has stopped.
pub struct Locked<B: Room> {
    core: Core,
    calls: Vec<Call>,
    notes: Vec<PlaceNote>,
    stopped: bool,
    of: PhantomData<B>,
}

/// Written by hand, and so one call for whoever lets it go.
impl<B: Room> Drop for Locked<B> {
    fn drop(self) {
        let Locked {
            core: _,
            calls: _,
            notes: _,
            stopped: _,
            of: _,
        } = self;
    }
}

impl<B: Room> Model for Locked<B> {
    ghost use Rattle.dg_bench.specs.Seen.{Kept, kept_of, IsKept};

    ghost Value = { Kept };

    ghost view = { λ l. kept_of l.core l.calls.items l.stopped };

    ghost invariant = { λ l. IsKept B.names l.core l.calls.items l.notes.items l.stopped };
}

impl<B: Room> Locked<B> {
    /// A new core, and no calls.
    pub fn new(alloc: Global) -> Result<Locked<B>, AllocError>
        ensures { IfOk result (λ l. (l.core ≡ new_core) × (l.calls ≡ []) × (l.stopped ≡ false)) }
    {
        Ok(Locked {
            core: Core::new(alloc)?,
            calls: Vec::new(alloc),
            notes: Vec::new(alloc),
            stopped: false,
            of: PhantomData,
        })
    }

    /// How many calls there are.
    pub fn len(&self) -> usize
        ensures { result ≡ length self.now.calls }
    {
        self.calls.len()
    }

    /// Lets a pass see all calls.
    fn show(&mut self, pass: Pass<B>) -> Pass<B>
        requires { pass.count ≤ length self.old.calls }
        ensures same { self.new ≡ self.old }
        ensures seen { result ≡ seen_all self.old.calls }
        ensures legal { IsLegal self.old.calls }
        ensures begins { HasSeenBeginningOf pass self.old.calls }
    {
        let Locked { calls, notes, .. } = self;
        pass.agree(notes, calls);
        whole(notes, calls)
    }

    /// Lets a pass see all calls, or refuses it: where it has seen more, or the bench has stopped.
    fn admit(&mut self, pass: Pass<B>) -> Result<Pass<B>, (Pass<B>, BenchRefusal)>
        ensures same { self.new ≡ self.old }
        ensures seen { IfOk result (λ p. SeesAll self.old pass p) }
        ensures running { OnOk result ((self.old.stopped ≡ false) × Makes new_core self.old.calls self.old.core) }
        ensures refused { IfErr result (λ r. (limit : ℕ) → Refuses never limit self.old self.new pass r.0 r.1) }
    {
        let found = self.len();
        let seen = pass.seen();
        if found < seen {
            return Err((pass, BenchRefusal::Shorter { seen, found }));
        }
        let pass = self.show(pass);
        if self.stopped {
            return Err((pass, BenchRefusal::HistoryFull));
        }
        Ok(pass)
    }

    /// Lets a pass see all calls, or refuses it: also where the history has as many calls as it may have.
    fn begin(&mut self, cells: &Cells, pass: Pass<B>) -> Result<Pass<B>, (Pass<B>, BenchRefusal)>
        ensures same { self.new ≡ self.old }
        ensures seen { IfOk result (λ p. SeesAll self.old pass p) }
        ensures running { OnOk result ((self.old.stopped ≡ false) × Makes new_core self.old.calls self.old.core) }
        ensures room { OnOk result (length self.old.calls < cells.now.limit) }
        ensures refused { IfErr result (λ r. Refuses never cells.now.limit self.old self.new pass r.0 r.1) }
    {
        let pass = match self.admit(pass) {
            Ok(pass) => pass,
            Err(refused) => return Err(refused),
        };
        if self.len() >= cells.limit() {
            return Err((pass, BenchRefusal::HistoryFull));
        }
        Ok(pass)
    }
}

impl<B: Room> Locked<B> {
    /// Makes an edit, as a call of its own.
    pub fn edit(
        &mut self,
        alloc: Global,
        cells: &Cells,
        pass: Pass<B>,
        edit: Edit,
    ) -> Result<(Pass<B>, Receipt<B>), (Pass<B>, BenchRefusal)>
        requires { cells.now.names ≡ B.names }
        ensures ok { IfOk result (λ r. Enters cells.now.limit self.old self.new pass r.0 r.1 (edited edit)) }
        ensures refused { IfErr result
            (λ r. Refuses (λ core why. edited_core core edit ≡ Err why) cells.now.limit self.old self.new pass r.0 r.1) }
    {
        let pass = match self.begin(cells, pass) {
            Ok(pass) => pass,
            Err(refused) => return Err(refused),
        };
        match self.make_edit(alloc, cells, edit) {
            Ok(made) => Ok(made),
            Err(refusal) => Err((pass, refusal)),
        }
    }

    /// Makes an edit, where the bench has begun a call.
    fn make_edit(
        &mut self,
        alloc: Global,
        cells: &Cells,
        edit: Edit,
    ) -> Result<(Pass<B>, Receipt<B>), BenchRefusal>
        requires cells { cells.now.names ≡ B.names }
        requires running { (self.old.stopped ≡ false) × Makes new_core self.old.calls self.old.core }
        requires room { length self.old.calls < cells.now.limit }
        ensures ok { IfOk result
            (λ r. Enters cells.now.limit self.old self.new (seen_all self.old.calls) r.0 r.1 (edited edit)) }
        ensures refused { IfErr result (RefusesBegun (λ core why. edited_core core edit ≡ Err why) self.old self.new) }
    {
        let Ok(call) = Call::of_edit(alloc, &edit) else {
            return Err(BenchRefusal::Memory);
        };
        let Locked {
            core,
            calls,
            notes,
            stopped,
            of: _,
        } = self;
        let Ok(prepared) = prepare(alloc, cells, calls, notes, call) else {
            return Err(BenchRefusal::Memory);
        };
        match core.edit(alloc, edit) {
            Ok(()) => finish(calls, notes, stopped, cells, prepared),
            Err(Refusal::Memory) => Err(BenchRefusal::Memory),
            Err(refusal) => Err(BenchRefusal::Edit(refusal)),
        }
    }

    /// Makes a report, as a call of its own.
    pub fn report(
        &mut self,
        alloc: Global,
        cells: &Cells,
        pass: Pass<B>,
    ) -> Result<(Pass<B>, Receipt<B>, Reply), (Pass<B>, BenchRefusal)>
        requires { cells.now.names ≡ B.names }
        ensures ok { IfOk result (λ r. Enters cells.now.limit self.old self.new pass r.0 r.1 (reported r.2)) }
        ensures refused { IfErr result (λ r. Refuses never cells.now.limit self.old self.new pass r.0 r.1) }
    {
        let pass = match self.begin(cells, pass) {
            Ok(pass) => pass,
            Err(refused) => return Err(refused),
        };
        match self.make_report(alloc, cells) {
            Ok(made) => Ok(made),
            Err(refusal) => Err((pass, refusal)),
        }
    }

    /// Makes a report, where the bench has begun a call.
    fn make_report(
        &mut self,
        alloc: Global,
        cells: &Cells,
    ) -> Result<(Pass<B>, Receipt<B>, Reply), BenchRefusal>
        requires cells { cells.now.names ≡ B.names }
        requires running { (self.old.stopped ≡ false) × Makes new_core self.old.calls self.old.core }
        requires room { length self.old.calls < cells.now.limit }
        ensures ok { IfOk result
            (λ r. Enters cells.now.limit self.old self.new (seen_all self.old.calls) r.0 r.1 (reported r.2)) }
        ensures refused { IfErr result (RefusesBegun never self.old self.new) }
    {
        let Ok((call, reply)) = self.reply(alloc) else {
            return Err(BenchRefusal::Memory);
        };
        match self.enter(alloc, cells, call) {
            Ok((pass, receipt)) => Ok((pass, receipt, reply)),
            Err(refusal) => Err(refusal),
        }
    }

    /// What a report answers, and the call of it.
    fn reply(&self, alloc: Global) -> Result<(Call, Reply), AllocError>
        ensures { IfOk result (λ r. (r.0 ≡ reported r.1) × Replies self.now.core r.1) }
    {
        let reply = self.core.report(alloc)?;
        match Call::of_report(alloc, &reply) {
            Ok(call) => Ok((call, reply)),
            Err(_) => Err(AllocError),
        }
    }

    /// Enters a call that changes nothing of the core, where the bench has begun it.
    fn enter(
        &mut self,
        alloc: Global,
        cells: &Cells,
        call: Call,
    ) -> Result<(Pass<B>, Receipt<B>), BenchRefusal>
        requires cells { cells.now.names ≡ B.names }
        requires running { (self.old.stopped ≡ false) × Makes new_core self.old.calls self.old.core }
        requires room { length self.old.calls < cells.now.limit }
        requires step { Steps self.old.core call self.old.core }
        ensures ok { IfOk result (λ r. Enters cells.now.limit self.old self.new (seen_all self.old.calls) r.0 r.1 call) }
        ensures refused { IfErr result (RefusesBegun never self.old self.new) }
    {
        let Locked {
            core: _,
            calls,
            notes,
            stopped,
            of: _,
        } = self;
        let Ok(prepared) = prepare(alloc, cells, calls, notes, call) else {
            return Err(BenchRefusal::Memory);
        };
        finish(calls, notes, stopped, cells, prepared)
    }

    /// Keeps a record, as a call of its own. A record that isn't kept comes back.
    pub fn commit(
        &mut self,
        alloc: Global,
        cells: &Cells,
        pass: Pass<B>,
        newest: Record,
    ) -> Result<(Pass<B>, Receipt<B>), (Pass<B>, Record, BenchRefusal)>
        requires { cells.now.names ≡ B.names }
        ensures ok { IfOk result (λ r. Enters cells.now.limit self.old self.new pass r.0 r.1 (committed newest)) }
        ensures refused { IfErr result (λ r. Refuses never cells.now.limit self.old self.new pass r.0 r.2) }
        ensures back { IfErr result (λ r. r.1 ≡ newest) }
    {
        let pass = match self.begin(cells, pass) {
            Ok(pass) => pass,
            Err((pass, refusal)) => return Err((pass, newest, refusal)),
        };
        match self.make_commit(alloc, cells, newest) {
            Ok(made) => Ok(made),
            Err((newest, refusal)) => Err((pass, newest, refusal)),
        }
    }

    /// Keeps a record, where the bench has begun a call.
    fn make_commit(
        &mut self,
        alloc: Global,
        cells: &Cells,
        newest: Record,
    ) -> Result<(Pass<B>, Receipt<B>), (Record, BenchRefusal)>
        requires cells { cells.now.names ≡ B.names }
        requires running { (self.old.stopped ≡ false) × Makes new_core self.old.calls self.old.core }
        requires room { length self.old.calls < cells.now.limit }
        ensures ok { IfOk result
            (λ r. Enters cells.now.limit self.old self.new (seen_all self.old.calls) r.0 r.1 (committed newest)) }
        ensures refused { IfErr result (λ r. RefusesBegun never self.old self.new r.1) }
        ensures back { IfErr result (λ r. r.0 ≡ newest) }
    {
        // The call shows the proof which lines these are.
        let _lines = newest.verdict();
        let Ok(call) = Call::of_commit(alloc, &newest) else {
            return Err((newest, BenchRefusal::Memory));
        };
        let Locked {
            core,
            calls,
            notes,
            stopped,
            of: _,
        } = self;
        let Ok(prepared) = prepare(alloc, cells, calls, notes, call) else {
            return Err((newest, BenchRefusal::Memory));
        };
        match core.commit(alloc, newest) {
            Ok(()) => {}
            Err(newest) => return Err((newest, BenchRefusal::Memory)),
        }
        match conclude(calls, notes, stopped, cells, prepared) {
            Ok(made) => return Ok(made),
            Err(call) => return Err((call.into_commit(), BenchRefusal::HistoryFull)),
        }
    }

    /// Keeps a live run, as a call of its own: its record, and its transcript as that of its test. Where they aren't kept
    /// both come back.
    pub fn commit_live(
        &mut self,
        alloc: Global,
        cells: &Cells,
        pass: Pass<B>,
        newest: Record,
        transcript: Transcript,
    ) -> Result<(Pass<B>, Receipt<B>), (Pass<B>, Record, Transcript, BenchRefusal)>
        requires { cells.now.names ≡ B.names }
        ensures ok { IfOk result (λ r. Enters cells.now.limit self.old self.new pass r.0 r.1 (lived newest transcript)) }
        ensures refused { IfErr result (λ r. Refuses (λ core why. committed_live core newest transcript ≡ Err why)
            cells.now.limit self.old self.new pass r.0 r.3) }
        ensures back { IfErr result (λ r. (r.1 ≡ newest) × (r.2 ≡ transcript)) }
    {
        let pass = match self.begin(cells, pass) {
            Ok(pass) => pass,
            Err((pass, refusal)) => return Err((pass, newest, transcript, refusal)),
        };
        match self.make_live(alloc, cells, newest, transcript) {
            Ok(made) => Ok(made),
            Err((newest, transcript, refusal)) => Err((pass, newest, transcript, refusal)),
        }
    }

    /// Keeps a live run, where the bench has begun a call.
    fn make_live(
        &mut self,
        alloc: Global,
        cells: &Cells,
        newest: Record,
        transcript: Transcript,
    ) -> Result<(Pass<B>, Receipt<B>), (Record, Transcript, BenchRefusal)>
        requires cells { cells.now.names ≡ B.names }
        requires running { (self.old.stopped ≡ false) × Makes new_core self.old.calls self.old.core }
        requires room { length self.old.calls < cells.now.limit }
        ensures ok { IfOk result
            (λ r. Enters cells.now.limit self.old self.new (seen_all self.old.calls) r.0 r.1 (lived newest transcript)) }
        ensures refused { IfErr result
            (λ r. RefusesBegun (λ core why. committed_live core newest transcript ≡ Err why) self.old self.new r.2) }
        ensures back { IfErr result (λ r. (r.0 ≡ newest) × (r.1 ≡ transcript)) }
    {
        // The call shows the proof which lines these are.
        let _lines = newest.verdict();
        let Ok(call) = Call::of_live(alloc, &newest, &transcript) else {
            return Err((newest, transcript, BenchRefusal::Memory));
        };
        let Locked {
            core,
            calls,
            notes,
            stopped,
            of: _,
        } = self;
        let Ok(prepared) = prepare(alloc, cells, calls, notes, call) else {
            return Err((newest, transcript, BenchRefusal::Memory));
        };
        match core.commit_live(alloc, newest, transcript) {
            Ok(()) => {}
            Err((Refusal::Memory, newest, transcript)) => {
                return Err((newest, transcript, BenchRefusal::Memory));
            }
            Err((refusal, newest, transcript)) => {
                return Err((newest, transcript, BenchRefusal::Edit(refusal)));
            }
        }
        match conclude(calls, notes, stopped, cells, prepared) {
            Ok(made) => return Ok(made),
            Err(call) => {
                let (newest, transcript) = call.into_live();
                return Err((newest, transcript, BenchRefusal::HistoryFull));
            }
        }
    }
}

impl<B: Room> Locked<B> {
    /// The answer of the world, if it has one.
    fn answer(&self, alloc: Global, question: &Question) -> Result<Option<Answer>, AllocError>
        ensures { IfOk result (λ a. a ≡ look self.now.core.world question.now) }
    {
        self.core.answer(alloc, question)
    }

    /// The answer to a question. The first question for a pattern is a call of its own, any other is a look.
    pub fn ask(
        &mut self,
        alloc: Global,
        cells: &Cells,
        pass: Pass<B>,
        question: &Question,
    ) -> Result<(Pass<B>, Receipt<B>, Answer), (Pass<B>, BenchRefusal)>
        requires { cells.now.names ≡ B.names }
        ensures ok { IfOk result (λ r. MatchOption (look self.old.core.world question.now)
            (Enters cells.now.limit self.old self.new pass r.0 r.1 (asked question.now r.2))
            (λ _. Looks self.old self.new pass r.0 r.1 question.now r.2)) }
        ensures refused { IfErr result (λ r. Refuses never cells.now.limit self.old self.new pass r.0 r.1) }
        ensures not_full { IfErr result
            (λ r. IsSome (look self.old.core.world question.now) → self.old.stopped ≡ false → r.1 ≢ HistoryFull) }
    {
        let pass = match self.admit(pass) {
            Ok(pass) => pass,
            Err(refused) => return Err(refused),
        };
        let found = self.len();
        match self.answer(alloc, question) {
            Ok(Some(answer)) => Ok((pass, Receipt::of_front(found), answer)),
            Ok(None) => self.ask_first(alloc, cells, pass, question),
            Err(_) => Err((pass, BenchRefusal::Memory)),
        }
    }

    /// The tests that workers judge, which changes nothing.
    pub fn tests(
        &mut self,
        alloc: Global,
        pass: Pass<B>,
        work: Work,
    ) -> Result<(Pass<B>, Seq<TestId>), (Pass<B>, BenchRefusal)>
        ensures same { self.new ≡ self.old }
        ensures ok { IfOk result (λ r. Lists work self.old pass r.0 r.1) }
        ensures refused { IfErr result (λ r. (limit : ℕ) → Refuses never limit self.old self.new pass r.0 r.1) }
    {
        let pass = match self.admit(pass) {
            Ok(pass) => pass,
            Err(refused) => return Err(refused),
        };
        match self.listed(alloc, work) {
            Ok(tests) => Ok((pass, tests)),
            Err(_) => Err((pass, BenchRefusal::Memory)),
        }
    }

    /// The transcript of a test, if it has one, which changes nothing.
    pub fn transcript(
        &mut self,
        alloc: Global,
        pass: Pass<B>,
        test: &TestId,
    ) -> Result<(Pass<B>, Option<Transcript>), (Pass<B>, BenchRefusal)>
        ensures same { self.new ≡ self.old }
        ensures ok { IfOk result (λ r. Recalls test.now self.old pass r.0 r.1) }
        ensures refused { IfErr result (λ r. (limit : ℕ) → Refuses never limit self.old self.new pass r.0 r.1) }
    {
        let pass = match self.admit(pass) {
            Ok(pass) => pass,
            Err(refused) => return Err(refused),
        };
        match self.recalled(alloc, test) {
            Ok(transcript) => Ok((pass, transcript)),
            Err(_) => Err((pass, BenchRefusal::Memory)),
        }
    }

    /// A copy of the transcript of a test, if it has one.
    fn recalled(&self, alloc: Global, test: &TestId) -> Result<Option<Transcript>, AllocError>
        ensures { IfOk result (λ t. t ≡ transcript_of self.now.core.world test.now) }
    {
        match self.core.transcript(test) {
            Some(transcript) => Ok(Some(transcript.copy(alloc)?)),
            None => Ok(None),
        }
    }

    /// The selected tests, or the pending ones.
    fn listed(&self, alloc: Global, work: Work) -> Result<Seq<TestId>, AllocError>
        ensures { IfOk result (λ l. l ≡ tests_of work self.now.core) }
    {
        match work {
            Work::Live => self.core.selected(alloc),
            Work::Rejudge => match self.core.report(alloc)? {
                Reply::Sum(_, _) => Ok(Seq::new(alloc)),
                Reply::Pending(tests) => Ok(tests),
            },
        }
    }

    /// Asks the first question for a pattern, as a call of its own.
    fn ask_first(
        &mut self,
        alloc: Global,
        cells: &Cells,
        pass: Pass<B>,
        question: &Question,
    ) -> Result<(Pass<B>, Receipt<B>, Answer), (Pass<B>, BenchRefusal)>
        requires cells { cells.now.names ≡ B.names }
        requires first { look self.old.core.world question.now ≡ None }
        ensures ok { IfOk result (λ r. Enters cells.now.limit self.old self.new pass r.0 r.1 (asked question.now r.2)) }
        ensures refused { IfErr result (λ r. Refuses never cells.now.limit self.old self.new pass r.0 r.1) }
    {
        let pass = match self.begin(cells, pass) {
            Ok(pass) => pass,
            Err(refused) => return Err(refused),
        };
        match self.make_ask(alloc, cells, question) {
            Ok((seen, receipt, reading)) => Ok((seen, receipt, Answer::Reading(reading))),
            Err(refusal) => Err((pass, refusal)),
        }
    }

    /// Asks the first question for a pattern, where the bench has begun a call: how the pattern is read.
    fn make_ask(
        &mut self,
        alloc: Global,
        cells: &Cells,
        question: &Question,
    ) -> Result<(Pass<B>, Receipt<B>, Reading), BenchRefusal>
        requires cells { cells.now.names ≡ B.names }
        requires running { (self.old.stopped ≡ false) × Makes new_core self.old.calls self.old.core }
        requires room { length self.old.calls < cells.now.limit }
        requires first { look self.old.core.world question.now ≡ None }
        ensures ok { IfOk result (λ r. Enters cells.now.limit self.old self.new (seen_all self.old.calls) r.0 r.1
            (asked question.now (read_as r.2))) }
        ensures refused { IfErr result (RefusesBegun never self.old self.new) }
    {
        let Ok(call) = Call::of_ask(alloc, question, &Answer::Absent) else {
            return Err(BenchRefusal::Memory);
        };
        let Locked {
            core,
            calls,
            notes,
            stopped,
            of: _,
        } = self;
        let Ok(mut prepared) = prepare(alloc, cells, calls, notes, call) else {
            return Err(BenchRefusal::Memory);
        };
        let Ok(reading) = read_first(core, alloc, question) else {
            return Err(BenchRefusal::Memory);
        };
        prepared.tell(reading);
        match finish(calls, notes, stopped, cells, prepared) {
            Ok((pass, receipt)) => return Ok((pass, receipt, reading)),
            Err(refusal) => return Err(refusal),
        }
    }

    /// The calls, which begin with what a pass has seen; or the locked value again, where the pass has seen more calls.
    pub fn into_history(mut self, pass: &mut Pass<B>) -> Result<History, Locked<B>>
        ensures pass { pass.new ≡ pass.old }
        ensures ok { IfOk result (λ h. (h ≡ self.calls) × IsLegal h) }
        ensures begins { OnOk result ((pass.old.count ≤ length self.calls) × HasSeenBeginningOf pass.old self.calls) }
        ensures err { IfErr result (λ l. (l ≡ self) × (length self.calls < pass.old.count) × IsLegal self.calls) }
    {
        if self.len() < pass.seen() {
            return Err(self);
        }
        let _seen = self.show(pass.twin());
        let Locked {
            core: _,
            calls,
            notes: _,
            stopped: _,
            of: _,
        } = self;
        Ok(History { calls })
    }
}

/// How a pattern is read that is asked for the first time, and whose answer then stays in the book.
fn read_first(core: &mut Core, alloc: Global, question: &Question) -> Result<Reading, AllocError>
    requires { look core.old.world question.now ≡ None }
    ensures ok { IfOk result (λ r. IsAskedOf core.old core.new question.now (read_as r)) }
    ensures err { OnErr result (core.new ≡ core.old) }
{
    match core.ask(alloc, question) {
        Ok(Answer::Reading(reading)) => Ok(reading),
        Ok(_) => unreachable!(),
        Err(_) => Err(AllocError),
    }
}
