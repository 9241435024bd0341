//! A core with one script, which answers what a live run asks of it.
use crate::parts::parts;
use anyhow::Result;
use dg_bytes::{Bytes, TryCopy};
use dg_core::{Core, Reply};
use dg_gate::{AskFault, Asker};
use dg_world::{Answer, Edit, Question, TestId};
use std::alloc::{AllocError, Global};

/// The board of each test.
const BOARD: &[u8] = b"unix";

/// The script of each test.
const SCRIPT: &[u8] = b"t/a.exp";

/// The line of a report behind which the lines of the script come.
const RUNNING: &[u8] = b"Running t/a.exp ...";

/// A core with one script.
pub struct Desk {
    pub alloc: Global,
    pub core: Core,
}

impl Drop for Desk {
    fn drop(self) {
        let Desk { alloc: _, core: _ } = self;
    }
}

impl Asker for Desk {
    ghost use Rattle.dg_core.specs.Core.{IsAskedOf};

    ghost step = { λ before question answer after. IsAskedOf before.core after.core question answer };

    fn ask(&mut self, question: &Question) -> Result<Answer, AskFault> {
        match self.core.ask(self.alloc, question) {
            Ok(answer) => Ok(answer),
            Err(_) => Err(AskFault::Memory),
        }
    }
}

/// The test of the script.
pub fn test(alloc: Global) -> Result<TestId> {
    Ok(TestId::new(alloc, BOARD, SCRIPT)?)
}

impl Desk {
    /// A new core with this script.
    pub fn new(alloc: Global, script: &[u8]) -> Result<Desk> {
        let mut core = Core::new(alloc)?;
        let name = Bytes::from_slice(alloc, SCRIPT)?;
        core.edit(
            alloc,
            Edit::PutFile(name, Bytes::from_slice(alloc, script)?),
        )?;
        Ok(Desk { alloc, core })
    }

    /// Makes a text the transcript of the test.
    pub fn put(&mut self, text: &Bytes) -> Result<()> {
        let alloc = self.alloc;
        let (board, script) = test_names(alloc)?;
        let edit = Edit::PutTranscript(board, script, text.copy(alloc)?);
        Ok(self.core.edit(alloc, edit)?)
    }

    /// Drops the transcript of the test.
    pub fn drop_transcript(&mut self) -> Result<()> {
        let alloc = self.alloc;
        let (board, script) = test_names(alloc)?;
        Ok(self.core.edit(alloc, Edit::DropTranscript(board, script))?)
    }

    /// The report and its status, where no test is pending and nothing was evaluated.
    pub fn report(&self) -> Result<Option<(Bytes, u8)>, AllocError> {
        match self.core.report(self.alloc)? {
            Reply::Sum(text, status) if self.core.evaluations() == 0 => Ok(Some((text, status))),
            _ => Ok(None),
        }
    }
}

/// The board and the script of the test.
fn test_names(alloc: Global) -> Result<(Bytes, Bytes), AllocError> {
    Ok((
        Bytes::from_slice(alloc, BOARD)?,
        Bytes::from_slice(alloc, SCRIPT)?,
    ))
}

/// The lines of the script in a report, with `; ` between them.
pub fn lines_in(alloc: Global, report: &[u8]) -> Result<Bytes, AllocError> {
    let mut told = Bytes::new(alloc);
    let mut runs = false;
    for line in parts(alloc, report, b'\n')? {
        if runs && line.is_empty() {
            break;
        }
        if runs {
            if !told.is_empty() {
                told.extend(b"; ")?;
            }
            told.extend(line)?;
        }
        runs = runs || line == RUNNING;
    }
    Ok(told)
}
