//! The bench that callers share.
ghost use Rattle.std.specs.Prelude.{◌≡◌, ◌⊎◌, ◌≤◌, [], length, Err, Some, None, IfOk, IfErr, IfSome, IfNone};
ghost use Rattle.dg_core.specs.Core.{edited_core, committed_live};
ghost use Rattle.dg_bench.specs.History.{IsLegal};
ghost use Rattle.dg_bench.specs.Seen.{HasSeenBeginningOf, seen_all};
ghost use Rattle.dg_bench.specs.Made.{IsMade, IsLook};
ghost use Rattle.dg_bench.specs.Refusals.{HasSeenMore, IsRefused, never};
ghost use Rattle.dg_bench.specs.Work.{IsListed, IsRecalled};
ghost use Rattle.dg_bench.specs.declared.call.Call.TheVariants.{Edit as edited, Ask as asked, Commit as committed, Live as lived, Report as reported};

use crate::call::Call;
use crate::cells::Cells;
use crate::history::History;
use crate::locked::Locked;
use crate::pass::Pass;
use crate::receipt::Receipt;
use crate::refusal::BenchRefusal;
use crate::room::Room;
use crate::work::Work;
use dg_bytes::Seq;
use dg_core::Reply;
use dg_records::Record;
use dg_transcript::Transcript;
use dg_world::{Answer, Edit, Question, TestId};
use std::alloc::{AllocError, Global};
use std::marker::Model;
use std::sync::{Mutex, Wait};

/// One lock round a core and its calls so far, and a cell for each place of the history. Contracts see how many calls the
/// history may have.
pub struct Bench<B: Room> {
    cells: Cells,
    locked: Mutex<Locked<B>>,
}

/// Written by hand, and so one call for whoever lets it go.
impl<B: Room> Drop for Bench<B> {
    fn drop(self) {
        let Bench {
            cells: _,
            locked: _,
        } = self;
    }
}

impl<B: Room> Model for Bench<B> {
    ghost use Rattle.std.specs.Prelude.{◌≡◌, ℕ};

    ghost Value = { ℕ };

    ghost view = { λ b. b.cells.limit };

    ghost invariant = { λ b. b.cells.names ≡ B.names };
}

impl<B: Room> Bench<B> {
    /// A bench over these cells, with a new core and no calls.
    pub(crate) fn over(alloc: Global, cells: Cells) -> Result<Bench<B>, AllocError>
        requires { cells.names ≡ B.names }
        ensures { IfOk result (λ limit. limit ≡ cells.limit) }
    {
        Ok(Bench {
            locked: Mutex::new(Locked::new(alloc)?),
            cells,
        })
    }

    /// A pass that has seen nothing.
    pub fn pass(&self) -> Pass<B>
        ensures { result ≡ seen_all [] }
    {
        Pass::of_note(0, None)
    }

    /// Makes an edit. The pass has then seen a legal list of calls that begins with all that it had seen and ends with this
    /// edit; the receipt is of its place. `Edit` where the world refuses it, for another cause than want of memory.
    pub fn edit(
        &self,
        rt: &impl Wait,
        alloc: Global,
        pass: Pass<B>,
        edit: Edit,
    ) -> Result<(Pass<B>, Receipt<B>), (Pass<B>, BenchRefusal)>
        ensures ok { IfOk result (λ r. IsMade pass r.0 r.1 (edited edit)) }
        ensures refused { IfErr result (λ r. IsRefused (λ core why. edited_core core edit ≡ Err why) pass r.0 r.1) }
    {
        self.locked.lock(rt).edit(alloc, &self.cells, pass, edit)
    }

    /// The answer to a question. The first question for a pattern is a call of the history, as an edit is. Any other is a
    /// look: the answer is that of the world which the calls make that the pass has then seen.
    pub fn ask(
        &self,
        rt: &impl Wait,
        alloc: Global,
        pass: Pass<B>,
        question: &Question,
    ) -> Result<(Pass<B>, Receipt<B>, Answer), (Pass<B>, BenchRefusal)>
        ensures ok { IfOk result (λ r. IsMade pass r.0 r.1 (asked question.now r.2) ⊎ IsLook pass r.0 r.1 question.now r.2) }
        ensures refused { IfErr result (λ r. IsRefused never pass r.0 r.1) }
    {
        self.locked.lock(rt).ask(alloc, &self.cells, pass, question)
    }

    /// Keeps a record in the place of the one that its test had, as an edit is made. A record that isn't kept comes back.
    pub fn commit(
        &self,
        rt: &impl Wait,
        alloc: Global,
        pass: Pass<B>,
        newest: Record,
    ) -> Result<(Pass<B>, Receipt<B>), (Pass<B>, Record, BenchRefusal)>
        ensures ok { IfOk result (λ r. IsMade pass r.0 r.1 (committed newest)) }
        ensures refused { IfErr result (λ r. IsRefused never pass r.0 r.2) }
        ensures back { IfErr result (λ r. r.1 ≡ newest) }
    {
        self.locked
            .lock(rt)
            .commit(alloc, &self.cells, pass, newest)
    }

    /// Keeps a live run: its record, and its transcript as that of its test, as an edit is made. Where they aren't kept both
    /// come back; `Edit` where there is no room for the transcript.
    pub fn commit_live(
        &self,
        rt: &impl Wait,
        alloc: Global,
        pass: Pass<B>,
        newest: Record,
        transcript: Transcript,
    ) -> Result<(Pass<B>, Receipt<B>), (Pass<B>, Record, Transcript, BenchRefusal)>
        ensures ok { IfOk result (λ r. IsMade pass r.0 r.1 (lived newest transcript)) }
        ensures refused { IfErr result
            (λ r. IsRefused (λ core why. committed_live core newest transcript ≡ Err why) pass r.0 r.3) }
        ensures back { IfErr result (λ r. (r.1 ≡ newest) × (r.2 ≡ transcript)) }
    {
        self.locked
            .lock(rt)
            .commit_live(alloc, &self.cells, pass, newest, transcript)
    }

    /// Reports, as an edit is made. What it answers is what the calls before it give: the sum, or the pending tests.
    pub fn report(
        &self,
        rt: &impl Wait,
        alloc: Global,
        pass: Pass<B>,
    ) -> Result<(Pass<B>, Receipt<B>, Reply), (Pass<B>, BenchRefusal)>
        ensures ok { IfOk result (λ r. IsMade pass r.0 r.1 (reported r.2)) }
        ensures refused { IfErr result (λ r. IsRefused never pass r.0 r.1) }
    {
        self.locked.lock(rt).report(alloc, &self.cells, pass)
    }

    /// The tests that workers judge: those of the world which the calls make that the pass has then seen. It is no call of
    /// the history.
    pub fn tests(
        &self,
        rt: &impl Wait,
        alloc: Global,
        pass: Pass<B>,
        work: Work,
    ) -> Result<(Pass<B>, Seq<TestId>), (Pass<B>, BenchRefusal)>
        ensures ok { IfOk result (λ r. IsListed work pass r.0 r.1) }
        ensures refused { IfErr result (λ r. IsRefused never pass r.0 r.1) }
    {
        self.locked.lock(rt).tests(alloc, pass, work)
    }

    /// The transcript of a test, if it has one: that of the world which the calls make that the pass has then seen. It is no call of
    /// the history.
    pub fn transcript(
        &self,
        rt: &impl Wait,
        alloc: Global,
        pass: Pass<B>,
        test: &TestId,
    ) -> Result<(Pass<B>, Option<Transcript>), (Pass<B>, BenchRefusal)>
        ensures ok { IfOk result (λ r. IsRecalled test.now pass r.0 r.1) }
        ensures refused { IfErr result (λ r. IsRefused never pass r.0 r.1) }
    {
        self.locked.lock(rt).transcript(alloc, pass, test)
    }

    /// The call of a receipt, with its reply; none for the receipt of a look. It takes no lock.
    pub fn call_at<'a>(&'a self, receipt: &mut Receipt<B>) -> Option<&'a Call>
        ensures same { receipt.new ≡ receipt.old }
        ensures call { IfSome result (λ c. receipt.old.call ≡ Some c.now) }
        ensures front { IfNone result (receipt.old.call ≡ None) }
    {
        let number = receipt.number;
        let Some(note) = &mut receipt.note else {
            return None;
        };
        Some(&self.cells.place(number, note).call)
    }

    /// The history: a legal list of calls, which begins with what the pass has seen. The bench comes back where the pass has
    /// seen more calls.
    pub fn into_history(self, pass: &mut Pass<B>) -> Result<History, Bench<B>>
        ensures same { pass.new ≡ pass.old }
        ensures history { IfOk result (λ h. IsLegal h × (pass.old.count ≤ length h) × HasSeenBeginningOf pass.old h) }
        ensures back { IfErr result (λ bench. (bench ≡ self) × HasSeenMore pass.old) }
    {
        let Bench { cells, locked } = self;
        match locked.into_inner().into_history(pass) {
            Ok(history) => Ok(history),
            Err(locked) => Err(Bench {
                cells,
                locked: Mutex::new(locked),
            }),
        }
    }
}
