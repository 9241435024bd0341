//! Tests: a board and a script.
ghost use Rattle.std.specs.Prelude.{◌≡◌, false, IfOk, IfErr, IsTrue, ◌↔◌, ◌⊎◌, ◌&&◌};
ghost use Rattle.dg_world.specs.Name.{is_name, is_single_part};
ghost use Rattle.dg_world.specs.Test.{test_of};

use crate::name::{Name, is_name, is_single_part};
use crate::refusal::Refusal;
use dg_bytes::Bytes;
use std::alloc::{AllocError, Global};
use std::marker::Model;

/// A test: a board, which is one part of at most 64 bytes, and a script, which is a name.
#[derive(Debug, PartialEq, Eq, PartialOrd, Ord, Hash)]
pub struct TestId {
    script: Name,
    board: Name,
}

impl Model for TestId {
    ghost use Rattle.std.specs.Prelude.{IsTrue};
    ghost use Rattle.dg_world.specs.Name.{is_single_part};
    ghost use Rattle.dg_world.specs.Test.{TestView};

    ghost Value = { TestView };

    ghost view = { λ t. record { board = t.board; script = t.script } };

    ghost inverse = { λ t. record { board = t.board; script = t.script } };

    ghost invariant = { λ t. IsTrue (is_single_part t.board) };
}

impl Drop for TestId {
    fn drop(self) {
        let TestId {
            board: _,
            script: _,
        } = self;
    }
}

impl TestId {
    /// The test of a script on a board. `BadName` if the board is not one part of at most 64 bytes or the script is no
    /// name, `Memory` if there is no room for them.
    #[tactic(auto, using(crate::proofs::NameLemmas::name_from_single_part))]
    pub fn new(alloc: Global, board: &[u8], script: &[u8]) -> Result<TestId, Refusal>
        ensures ok { IfOk result (λ t. (t.board ≡ board.now) × (t.script ≡ script.now)) }
        ensures bad { (result ≡ Err Refusal.BadName) ↔ ((is_single_part board.now && is_name script.now) ≡ false) }
        ensures which { IfErr result (λ r. (r ≡ Refusal.BadName) ⊎ (r ≡ Refusal.Memory)) }
    {
        if !is_single_part(board) || !is_name(script) {
            return Err(Refusal::BadName);
        }
        Ok(TestId {
            board: Name::from_valid(Bytes::from_slice(alloc, board)?),
            script: Name::from_valid(Bytes::from_slice(alloc, script)?),
        })
    }

    /// The test of a script on a board, if these bytes are such. They move in.
    #[tactic(auto, using(crate::proofs::NameLemmas::name_from_single_part))]
    pub fn from_bytes(board: Bytes, script: Bytes) -> Option<TestId>
        ensures { result ≡ test_of board script }
    {
        if is_single_part(board.as_slice()) && is_name(script.as_slice()) {
            Some(TestId {
                board: Name::from_valid(board),
                script: Name::from_valid(script),
            })
        } else {
            None
        }
    }

    /// The test of a script on a board that is one part of at most 64 bytes.
    pub(crate) fn of(board: Name, script: Name) -> TestId
        requires { IsTrue (is_single_part board) }
        ensures { result ≡ record { board = board; script = script } }
    {
        TestId { board, script }
    }

    /// The board: one part of at most 64 bytes.
    pub fn board(&self) -> &Name
        ensures board { result.now ≡ self.now.board }
        ensures part { IsTrue (is_single_part self.now.board) }
    {
        &self.board
    }

    /// The script.
    pub fn script(&self) -> &Name
        ensures { result.now ≡ self.now.script }
    {
        &self.script
    }

    /// The same test, of which a copy costs no copy of the names' bytes.
    pub fn kept(self, alloc: Global) -> Result<TestId, AllocError>
        ensures { IfOk result (λ t. t ≡ self) }
    {
        let TestId { board, script } = self;
        Ok(TestId {
            board: board.kept(alloc)?,
            script: script.kept(alloc)?,
        })
    }

    /// An equal test, or want of memory.
    pub fn copy(&self, alloc: Global) -> Result<TestId, AllocError>
        ensures { IfOk result (λ t. t ≡ self.now) }
    {
        Ok(TestId {
            board: self.board.copy(alloc)?,
            script: self.script.copy(alloc)?,
        })
    }

    /// Whether these are the same test.
    pub fn is(&self, other: &TestId) -> bool
        ensures { IsTrue result ↔ (self.now ≡ other.now) }
    {
        *self == *other
    }
}
