//! The cells of a bench that is being opened.
ghost use Rattle.std.specs.Prelude.{◌≡◌, ◌<◌, ◌≤◌, IfOk};

use crate::bench::Bench;
use crate::cells::Cells;
use crate::room::Room;
use std::alloc::{AllocError, Global};

/// The cells of a bench, which has no name yet.
#[derive(Drop)]
pub struct Opened {
    pub cells: Cells,
}

impl Opened {
    /// Empty cells, for as many calls as the history may have.
    pub fn new(alloc: Global, limit: usize) -> Result<Opened, AllocError>
        requires { (0 < limit) × (limit ≤ 262144) }
        ensures { IfOk result (λ o. o.cells.limit ≡ limit) }
    {
        Ok(Opened {
            cells: Cells::new(alloc, limit)?,
        })
    }

    /// The bench over these cells, with a new core and no calls. Its name is that of the cells: whoever calls picks it.
    pub fn named<B: Room>(self, alloc: Global) -> Result<Bench<B>, AllocError>
        requires { self.cells.names ≡ B.names }
        ensures { IfOk result (λ limit. limit ≡ self.cells.limit) }
    {
        let Opened { cells } = self;
        Bench::over(alloc, cells)
    }
}
