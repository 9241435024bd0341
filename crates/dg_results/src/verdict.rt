//! The lines of a judged test, and how many there are of each class.
ghost use Rattle.std.specs.Prelude.{◌≡◌, IfOk};
ghost use Rattle.dg_results.specs.Tally.{count_of, tally_of, sum_of, FitTogether};

use crate::class::Class;
use dg_bytes::{Bytes, Seq, TryCopy};
use std::alloc::{AllocError, Global};
use std::marker::Model;

/// A line of a test: written as the class, a colon, a space and the message.
#[derive(Drop, PartialEq, Eq)]
pub struct Line {
    pub class: Class,
    pub message: Bytes,
}

impl Line {
    /// An equal line, or want of memory.
    pub fn copy(&self, alloc: Global) -> Result<Line, AllocError>
        ensures { IfOk result (λ line. line ≡ self.now) }
    {
        Ok(Line {
            class: self.class,
            message: self.message.copy(alloc)?,
        })
    }
}

impl TryCopy for Line {
    fn copy(&self, alloc: Global) -> Result<Line, AllocError> {
        Line::copy(self, alloc)
    }
}

/// The lines that a test wrote. A contract sees the list of them.
#[derive(PartialEq, Eq)]
pub struct Verdict {
    lines: Seq<Line>,
}

impl Drop for Verdict {
    fn drop(self) {
        let Verdict { lines: _ } = self;
    }
}

impl Model for Verdict {
    ghost use Rattle.std.specs.Prelude.{List};
    ghost use Rattle.dg_results.specs.declared.verdict.Line.{Line};

    ghost Value = { List Line };

    ghost view = { λ v. v.lines };

    ghost inverse = { λ lines. record { lines = lines } };
}

impl Verdict {
    /// Takes lines.
    pub(crate) fn of(lines: Seq<Line>) -> Verdict
        ensures { result ≡ lines }
    {
        Verdict { lines }
    }

    /// The lines in order.
    pub fn lines(&self) -> &[Line]
        ensures { result.now ≡ self.now }
    {
        self.lines.as_slice()
    }

    /// An equal verdict, or want of memory.
    pub fn copy(&self, alloc: Global) -> Result<Verdict, AllocError>
        ensures { IfOk result (λ verdict. verdict ≡ self.now) }
    {
        Ok(Verdict {
            lines: self.lines.copy(alloc)?,
        })
    }

    /// How many lines there are of each result class. Message lines don't count.
    pub fn tally(&self) -> Tally
        ensures { result ≡ tally_of self.now }
    {
        Tally {
            passes: self.count(Class::Pass),
            failures: self.count(Class::Fail),
            unexpected_successes: self.count(Class::XPass),
            expected_failures: self.count(Class::XFail),
            unknown_successes: self.count(Class::KPass),
            known_failures: self.count(Class::KFail),
            unresolved: self.count(Class::Unresolved),
            untested: self.count(Class::Untested),
            unsupported: self.count(Class::Unsupported),
        }
    }

    /// How many lines there are of a class.
    fn count(&self, class: Class) -> usize
        ensures { result ≡ count_of class self.now }
    {
        self.lines
            .as_slice()
            .iter()
            .filter(|line| line.class == class)
            .count()
    }
}

impl TryCopy for Verdict {
    fn copy(&self, alloc: Global) -> Result<Verdict, AllocError> {
        Verdict::copy(self, alloc)
    }
}

/// How many lines there are of each result class, in the order of a report.
#[derive(Clone, Copy, Debug, PartialEq, Eq)]
pub struct Tally {
    pub passes: usize,
    pub failures: usize,
    pub unexpected_successes: usize,
    pub expected_failures: usize,
    pub unknown_successes: usize,
    pub known_failures: usize,
    pub unresolved: usize,
    pub untested: usize,
    pub unsupported: usize,
}

impl Tally {
    /// Both counts of each class together.
    pub fn plus(self, other: Tally) -> Tally
        requires { FitTogether self other }
        ensures { result ≡ sum_of self other }
    {
        Tally {
            passes: self.passes + other.passes,
            failures: self.failures + other.failures,
            unexpected_successes: self.unexpected_successes + other.unexpected_successes,
            expected_failures: self.expected_failures + other.expected_failures,
            unknown_successes: self.unknown_successes + other.unknown_successes,
            known_failures: self.known_failures + other.known_failures,
            unresolved: self.unresolved + other.unresolved,
            untested: self.untested + other.untested,
            unsupported: self.unsupported + other.unsupported,
        }
    }
}
