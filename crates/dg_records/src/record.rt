//! Records: verdicts with all that they were read from.
ghost use Rattle.std.specs.Prelude.{◌≡◌, IfOk, IsTrue, ◌↔◌};
ghost use Rattle.dg_records.specs.Truth.{IsTrueRecord, Agree, holds};

use crate::reads::Reads;
use dg_bytes::Seq;
use dg_results::Verdict;
use dg_world::{Read, TestId, World};
use std::alloc::{AllocError, Global};
use std::marker::Model;

/// A test, what was read in judging it, and its verdict. It is the verdict in every source that
/// gives these answers.
pub struct Record {
    test: TestId,
    reads: Reads,
    verdict: Verdict,
}

impl Drop for Record {
    fn drop(self) {
        let Record {
            test: _,
            reads: _,
            verdict: _,
        } = self;
    }
}

impl Model for Record {
    ghost use Rattle.dg_records.specs.Truth.{RecordView, IsTrueRecord};

    ghost Value = { RecordView };

    ghost view = { λ r. record { test = r.test; reads = r.reads; verdict = r.verdict } };

    ghost invariant = { λ r. IsTrueRecord r.test r.reads r.verdict };
}

impl Record {
    /// A record of a verdict that is true.
    pub fn from_parts(test: TestId, reads: Seq<Read>, verdict: Verdict) -> Record
        requires { IsTrueRecord test reads verdict }
        ensures { result ≡ record { test = test; reads = reads; verdict = verdict } }
    {
        Record {
            test,
            reads: Reads::new(reads),
            verdict,
        }
    }

    /// The same record. From now on a copy costs no copy of what was read, where there is room for what is shared.
    pub fn shared(self, alloc: Global) -> Record
        ensures { result ≡ self }
    {
        let Record {
            test,
            reads,
            verdict,
        } = self;
        Record {
            test,
            reads: reads.shared(alloc),
            verdict,
        }
    }

    /// The test.
    pub fn test(&self) -> &TestId
        ensures { result.now ≡ self.now.test }
    {
        &self.test
    }

    /// What was read, in order.
    pub fn reads(&self) -> &[Read]
        ensures { result.now ≡ self.now.reads }
    {
        self.reads.as_slice()
    }

    /// The verdict, which is the one in every source that gives the answers that were read.
    pub fn verdict(&self) -> &Verdict
        ensures lines { result.now ≡ self.now.verdict }
        ensures is_true { IsTrueRecord self.now.test self.now.reads self.now.verdict }
    {
        &self.verdict
    }

    /// Whether each question that was read still has the same answer in a world.
    pub fn holds_in(&self, world: &World) -> bool
        ensures agree { IsTrue result ↔ Agree self.now.reads world.now }
        ensures test { result ≡ holds world.now self.now }
    {
        self.reads
            .as_slice()
            .iter()
            .all(|read| world.agrees(&read.question, &read.answer))
    }

    /// An equal record, or want of memory.
    pub fn copy(&self, alloc: Global) -> Result<Record, AllocError>
        ensures { IfOk result (λ r. r ≡ self.now) }
    {
        Ok(Record {
            test: self.test.copy(alloc)?,
            reads: self.reads.copy(alloc)?,
            verdict: self.verdict.copy(alloc)?,
        })
    }
}
