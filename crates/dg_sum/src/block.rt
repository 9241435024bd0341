//! The block of a report that belongs to one test.
ghost use Rattle.std.specs.Prelude.{◌≡◌, IfOk};
ghost use Rattle.dg_sum.specs.Block.{block_of};

use crate::lines::{has_unexpected, write_test};
use crate::page::Page;
use dg_bytes::Bytes;
use dg_results::{Tally, Verdict};
use dg_world::TestId;
use std::alloc::{AllocError, Global};

/// What each report has of a judged test, made once for all of them: its text, the counts of its lines, and whether one of
/// these is of an unexpected class.
pub struct Block {
    pub(crate) text: Bytes,
    pub(crate) tally: Tally,
    pub(crate) is_unexpected: bool,
}

impl Drop for Block {
    fn drop(self) {
        let Block {
            text: _,
            tally: _,
            is_unexpected: _,
        } = self;
    }
}

impl Block {
    /// The block of a test that has these lines.
    pub fn of(alloc: Global, test: &TestId, verdict: &Verdict) -> Result<Block, AllocError>
        ensures { IfOk result (λ b. b ≡ block_of (record { test = test.now; verdict = verdict.now })) }
    {
        let mut text = Page::new(alloc);
        write_test(&mut text, test, verdict)?;
        Ok(Block {
            text: text.into_bytes(),
            tally: verdict.tally(),
            is_unexpected: has_unexpected(verdict),
        })
    }
}
