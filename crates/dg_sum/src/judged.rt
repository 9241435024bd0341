//! A test with its verdict.
ghost use Rattle.std.specs.Prelude.{◌≡◌};
ghost use Rattle.dg_sum.specs.Block.{block_of};

use crate::block::Block;
use dg_results::Verdict;
use dg_world::TestId;
use std::marker::Model;

/// A test, the lines that it wrote, and their block, all lent. A contract sees the test and its lines.
#[derive(Drop)]
pub struct Judged<'a> {
    test: &'a TestId,
    verdict: &'a Verdict,
    block: &'a Block,
}

impl<'a> Model for Judged<'a> {
    ghost use Rattle.std.specs.Prelude.{◌≡◌};
    ghost use Rattle.dg_sum.specs.Block.{block_of};
    ghost use Rattle.dg_sum.specs.Judged.{Judged};

    ghost Value = { Judged };

    ghost view = { λ j. record { test = j.test.now; verdict = j.verdict.now } };

    ghost invariant = { λ j. j.block.now ≡ block_of (record { test = j.test.now; verdict = j.verdict.now }) };
}

impl<'a> Judged<'a> {
    /// A test with its lines, and the block that these make.
    pub fn new(test: &'a TestId, verdict: &'a Verdict, block: &'a Block) -> Judged<'a>
        requires { block.now ≡ block_of (record { test = test.now; verdict = verdict.now }) }
        ensures { result ≡ record { test = test.now; verdict = verdict.now } }
    {
        Judged {
            test,
            verdict,
            block,
        }
    }

    /// The test.
    pub fn test(&self) -> &TestId
        ensures { result.now ≡ self.now.test }
    {
        self.test
    }

    /// Its block in a report.
    pub(crate) fn block(&self) -> &Block
        ensures { result.now ≡ block_of self.now }
    {
        self.block
    }
}
