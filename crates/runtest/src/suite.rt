//! A bench that a suite's files are put into.
ghost use Rattle.std.specs.Prelude.{◌≡◌, OnOk};
ghost use Rattle.dg_bench.specs.Refusals.{SeesMore};
ghost use Rattle.runtest.specs.Runs.{Adds};

use dg_bench::{Bench, BenchRefusal, Pass, Room, Work};
use dg_bytes::Seq;
use dg_folders::{Intake, RunFault};
use dg_world::{Edit, Refusal, TestId};
use std::alloc::Global;
use std::sync::Wait;
use std::{mem, str};

/// A bench that a suite's files are put into.
pub(crate) struct Suite<'a, B: Room, R: Wait> {
    rt: &'a R,
    alloc: Global,
    bench: &'a Bench<B>,
    pass: Pass<B>,
    is_full: bool,
}

impl<B: Room, R: Wait> Drop for Suite<'_, B, R> {
    fn drop(self) {
        let Suite {
            rt: _,
            alloc: _,
            bench: _,
            pass: _,
            is_full: _,
        } = self;
    }
}

impl<B: Room, R: Wait> Intake for Suite<'_, B, R> {
    fn take(&mut self, edit: Edit) -> Result<(), Refusal> {
        self.put(edit)
    }
}

impl<'a, B: Room, R: Wait> Suite<'a, B, R> {
    /// No files yet.
    pub(crate) fn new(rt: &'a R, alloc: Global, bench: &'a Bench<B>) -> Suite<'a, B, R> {
        Suite {
            rt,
            alloc,
            bench,
            pass: bench.pass(),
            is_full: false,
        }
    }

    /// Makes an edit, or changes nothing.
    pub(crate) fn put(&mut self, edit: Edit) -> Result<(), Refusal>
        ensures { OnOk result (Adds edit self.old.pass self.new.pass) }
    {
        let pass = mem::replace(&mut self.pass, self.bench.pass());
        match self.bench.edit(self.rt, self.alloc, pass, edit) {
            Ok((pass, _receipt)) => {
                self.pass = pass;
                Ok(())
            }
            Err((pass, refusal)) => {
                self.pass = pass;
                Err(self.refusal_of(refusal))
            }
        }
    }

    /// Why an edit was not made. That the history is full is kept.
    fn refusal_of(&mut self, refusal: BenchRefusal) -> Refusal {
        match refusal {
            BenchRefusal::Edit(refusal) => refusal,
            BenchRefusal::Memory => Refusal::Memory,
            BenchRefusal::HistoryFull | BenchRefusal::Shorter { seen: _, found: _ } => {
                self.is_full = true;
                Refusal::TooMany
            }
        }
    }

    /// The fault of a suite that was not taken whole.
    pub(crate) fn fault(&self, fault: RunFault) -> RunFault {
        if self.is_full {
            RunFault::HistoryFull
        } else {
            fault
        }
    }

    /// The selected tests, in order.
    pub(crate) fn tests(&mut self) -> Result<Seq<TestId>, RunFault>
        ensures { OnOk result (SeesMore self.old.pass self.new.pass) }
    {
        let pass = mem::replace(&mut self.pass, self.bench.pass());
        match self.bench.tests(self.rt, self.alloc, pass, Work::Live) {
            Ok((pass, tests)) => {
                self.pass = pass;
                Ok(tests)
            }
            Err((pass, refusal)) => {
                self.pass = pass;
                match refusal {
                    BenchRefusal::Memory => Err(RunFault::Memory),
                    _ => Err(RunFault::HistoryFull),
                }
            }
        }
    }

    /// A pass that has seen all edits.
    pub(crate) fn into_pass(self) -> Pass<B>
        ensures { result ≡ self.entry.pass }
    {
        let Suite {
            rt: _,
            alloc: _,
            bench: _,
            pass,
            is_full: _,
        } = self;
        pass
    }
}

/// The fault of a test that needs a pattern which was read and can't be built.
pub(crate) fn pattern_lost(alloc: Global, test: &TestId) -> RunFault {
    let board = match text_of(alloc, test.board().as_slice()) {
        Ok(board) => board,
        Err(fault) => return fault,
    };
    match text_of(alloc, test.script().as_slice()) {
        Ok(script) => RunFault::PatternLost(board, script),
        Err(fault) => fault,
    }
}

/// The text of a path or a name, which a line's words gave.
pub(crate) fn text_of(alloc: Global, bytes: &[u8]) -> Result<String, RunFault> {
    match str::from_utf8(bytes) {
        Ok(text) => Ok(String::from_str(alloc, text)?),
        Err(_) => Err(RunFault::Read(String::new(alloc))),
    }
}
