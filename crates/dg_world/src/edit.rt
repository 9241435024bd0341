//! Edits of the world.
ghost use Rattle.std.specs.Prelude.{◌≡◌, IfOk};

use crate::selection::Selection;
use dg_bytes::{Bytes, TryCopy};
use std::alloc::{AllocError, Global};

/// An edit of the world.
#[derive(Drop, PartialEq, Eq)]
pub enum Edit {
    /// Puts a file of this name with these bytes, in place of one that is there.
    PutFile(Bytes, Bytes),
    /// Removes the file of this name.
    RemoveFile(Bytes),
    /// Selects what is run.
    Select(Selection),
    /// Makes a text the transcript of a test, in place of one that is there: the board, the script, and the text.
    PutTranscript(Bytes, Bytes, Bytes),
    /// Removes the transcript of a test: the board and the script.
    DropTranscript(Bytes, Bytes),
}

impl Edit {
    /// An equal edit, or want of memory.
    pub fn copy(&self, alloc: Global) -> Result<Edit, AllocError>
        ensures { IfOk result (λ e. e ≡ self.now) }
    {
        Ok(match self {
            Edit::PutFile(name, bytes) => Edit::PutFile(name.copy(alloc)?, bytes.copy(alloc)?),
            Edit::RemoveFile(name) => Edit::RemoveFile(name.copy(alloc)?),
            Edit::Select(selection) => Edit::Select(selection.copy(alloc)?),
            Edit::PutTranscript(board, script, text) => Edit::PutTranscript(
                board.copy(alloc)?,
                script.copy(alloc)?,
                text.copy(alloc)?,
            ),
            Edit::DropTranscript(board, script) => {
                Edit::DropTranscript(board.copy(alloc)?, script.copy(alloc)?)
            }
        })
    }
}
