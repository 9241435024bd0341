//! The cells of the places of a history, in blocks that are made as they are needed.
ghost use Rattle.std.specs.Prelude.{ℕ, ◌≡◌, ◌<◌, ◌/◌, Some, IfOk, IfSome, slice_get};
ghost use Rattle.once_cell.specs.Once.{cell_name};
ghost use Rattle.dg_bench.specs.declared.place.Place.{Place as Held};
ghost use Rattle.dg_bench.specs.declared.cells.TheConstants.{BLOCK};
ghost use Rattle.dg_bench.specs.Cells.{HasBlock, Sees};

use crate::note::PlaceNote;
use crate::place::Place;
use once_cell::race::{Note, OnceBox};
use std::alloc::{AllocError, Global};
use std::marker::Model;

/// How many cells a block has.
pub const BLOCK: usize = 512;

/// Cells of places that stand one behind the other. Contracts see their names.
#[derive(Drop)]
pub struct Block {
    cells: Vec<OnceBox<Place>>,
}

impl Model for Block {
    ghost use Rattle.std.specs.Prelude.{◌≡◌, ℕ, List, length, map};
    ghost use Rattle.once_cell.specs.Once.{cell_name};
    ghost use Rattle.dg_bench.specs.declared.cells.TheConstants.{BLOCK};

    ghost Value = { List ℕ };

    ghost view = { λ b. map cell_name b.cells.items };

    ghost invariant = { λ b. length b.cells.items ≡ BLOCK };
}

impl Block {
    /// Empty cells.
    fn new(alloc: Global) -> Result<Block, AllocError> {
        let mut cells = Vec::new(alloc);
        cells.resize_with(BLOCK, || OnceBox::new(alloc))?;
        Ok(Block { cells })
    }

    /// One of the cells.
    fn cell(&self, at: usize) -> &OnceBox<Place>
        requires { at < BLOCK }
        ensures { slice_get self.now at ≡ Some (cell_name result.now) }
    {
        &self.cells[at]
    }
}

/// The cells of the places of a bench. Contracts see how many places there are, and the names of the cells of the blocks.
#[derive(Drop)]
pub struct Cells {
    limit: usize,
    blocks: Vec<OnceBox<Block>>,
}

impl Model for Cells {
    ghost use Rattle.std.specs.Prelude.{◌≤◌, ◌*◌, length, map};
    ghost use Rattle.once_cell.specs.Once.{cell_name};
    ghost use Rattle.dg_bench.specs.declared.cells.TheConstants.{BLOCK};
    ghost use Rattle.dg_bench.specs.Cells.{Named};

    ghost Value = { Named };

    ghost view = { λ c. record { limit = c.limit; names = map cell_name c.blocks.items } };

    ghost invariant = { λ c. c.limit ≤ BLOCK * length c.blocks.items };
}

impl Cells {
    /// Empty cells of so many places.
    pub(crate) fn new(alloc: Global, limit: usize) -> Result<Cells, AllocError>
        ensures { IfOk result (λ c. c.limit ≡ limit) }
    {
        let mut blocks = Vec::new(alloc);
        blocks.resize_with(limit.div_ceil(BLOCK), || OnceBox::new(alloc))?;
        Ok(Cells { limit, blocks })
    }

    /// How many places there are.
    pub(crate) fn limit(&self) -> usize
        ensures { result ≡ self.now.limit }
    {
        self.limit
    }

    /// The cell of the block of a place.
    fn block(&self, number: usize) -> &OnceBox<Block>
        requires { number < self.now.limit }
        ensures { slice_get self.now.names (number / BLOCK) ≡ Some (cell_name result.now) }
    {
        &self.blocks[number / BLOCK]
    }

    /// Makes the block of a place, where it isn't there yet.
    pub(crate) fn make_room(&self, alloc: Global, number: usize) -> Result<Note<Block>, AllocError>
        requires { number < self.now.limit }
        ensures { IfOk result (HasBlock self.now.names number) }
    {
        let cell = self.block(number);
        let mut note = cell.note();
        if let Some(_) = cell.get_as(&mut note) {
            return Ok(note);
        }
        match Box::new(alloc, Block::new(alloc)?) {
            Ok(block) => {
                // One that came there meanwhile stays.
                let _ours = cell.set_as(block, &mut note);
                Ok(note)
            }
            Err(_) => Err(AllocError),
        }
    }

    /// Puts what is given into a place, whose block is there. None where the place has a value already.
    pub(crate) fn put(
        &self,
        number: usize,
        mut block: Note<Block>,
        value: Box<Place>,
    ) -> Option<PlaceNote>
        requires within { number < self.now.limit }
        requires block { HasBlock self.now.names number block }
        ensures { IfSome result (λ n. Sees self.now.names number n value.value) }
    {
        let Some(cells) = self.block(number).get_as(&mut block) else {
            unreachable!();
        };
        let cell = cells.cell(number % BLOCK);
        let mut place = cell.note();
        match cell.set_as(value, &mut place) {
            Ok(()) => Some(PlaceNote { block, place }),
            Err(_) => None,
        }
    }

    /// What stands in a place of which a note knows it.
    pub(crate) fn place<'a>(&'a self, number: usize, note: &mut PlaceNote) -> &'a Place
        requires known { (p : Held) × Sees self.now.names number note.old p }
        ensures same { note.new ≡ note.old }
        ensures value { note.old.place.known ≡ Some result.now }
    {
        match self.blocks[number / BLOCK].get_as(&mut note.block) {
            Some(cells) => match cells.cell(number % BLOCK).get_as(&mut note.place) {
                Some(place) => place,
                None => unreachable!(),
            },
            None => unreachable!(),
        }
    }
}
