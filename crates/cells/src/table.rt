//! A table of cells of one type: what both stores are.
ghost use Rattle.std.specs.Prelude.{◌≡◌, ◌≤◌, length};
ghost use Rattle.cells.specs.Cells.{Sound, table_meaning};
ghost use Rattle.cells.specs.Fill.{Filled};
ghost use Rattle.cells.specs.Laws.{table_sized};
ghost use Rattle.std.proofs.Common.{rules};

use super::cell::Cell;
use super::cell_list::CellList;
use super::part::Part;
use super::sources::Sources;
use level::Level;
use std::alloc::Global;
use store::{LEAVES, NewStoreFault, PartKind, Store, StoreFault};

/// A store whose cells are of one type.
#[derive(Drop)]
pub struct CellTable<C: Cell> {
    cells: CellList<C>,
    ghost sound: { Sound C.dangles cells.list.items },
}

// Fills a row for each cell, in order: a cell reads only the rows before its own. Leaves and working table are what `settle`
// was lent.
fn fill<C: Cell, L: Level>(cells: &[C], leaves: &[L], work: &mut [L])
    requires sound { Sound C.Cell.dangles cells.now }
    requires wide { length leaves.now ≡ 1088 }
    requires long { length cells.now ≤ length work.old }
    ensures { Filled L.Level C.Cell.letter cells.now leaves.now work.old work.new (length cells.now) }
{
    for (i, cell) in cells.iter().enumerate() {
        let sources = Sources {
            leaves,
            signals: &work[..i],
        };
        work[i] = cell.level(&sources);
    }
}

impl<C: Cell> Store for CellTable<C> {
    const COSTS: [usize; 7] = C::COSTS;

    ghost COSTS = { C.COSTS };

    ghost means = { λ t. table_meaning C.letter t.cells.list.items t.cells.limit };

    ghost sized = { λ s. table_sized C.letter s.cells.list.items s.cells.limit };

    ghost bounded = { Prim.search rules };

    fn new(heap: Global, cells: usize) -> Result<CellTable<C>, NewStoreFault> {
        let cells = CellList::new(heap, cells)?;
        Ok(CellTable { cells })
    }

    fn cost(kind: PartKind) -> usize {
        C::cost(kind)
    }

    fn count(&self) -> usize {
        self.cells.len()
    }

    fn place(&mut self, code: u8, a: usize, b: usize) -> Result<usize, StoreFault> {
        let kind = PartKind::try_from(code)?;
        let part = Part::over(kind, a, b, self.cells.len())?;
        if self.cells.room() < Self::cost(kind) {
            return Err(StoreFault::Full);
        }
        Ok(C::expand(part, &mut self.cells))
    }

    fn settle<L: Level>(&self, leaves: &[L], work: &mut [L]) -> Result<(), StoreFault> {
        if leaves.len() < LEAVES || work.len() < self.cells.len() {
            return Err(StoreFault::ShortTable);
        }
        fill(&self.cells.list, &leaves[..LEAVES], work);
        Ok(())
    }
}
