//! A cell of the NAND table: each part becomes the cells of its pattern.
ghost use Rattle.std.specs.Prelude.{◌≡◌, ◌+◌, ◌≤◌, true, ◌++◌, map, length};
ghost use Rattle.cells.specs.Nands.{nand_dangles, nand_letter};
ghost use Rattle.cells.specs.Patterns.{nand_costs, stage_cell, wired};

use super::cell::Cell;
use super::cell_list::CellList;
use super::part::Part;
use super::pattern::{Stage, pattern};
use super::sources::Sources;
use level::Level;
use store::PartKind;

/// A constant, a leaf by its number, or the NAND of two signals before the cell.
// Signals by number and no boxes: the numbers are what a store answers, and many cells may read one signal.
#[derive(Clone, Copy, PartialEq, Eq, Debug)]
pub enum NandCell {
    Zero,
    One,
    Leaf(u32),
    Nand(u32, u32),
}

// Adds the cells of a pattern over a part's operands.
fn lay(stages: &[Stage], part: Part, cells: &mut CellList<NandCell>)
    requires wired { wired part.kind 0 stages.now ≡ true }
    requires fits { length cells.old.list.items + length stages.now ≤ cells.old.limit }
    ensures items { cells.new.list.items ≡ cells.old.list.items ++ map (stage_cell part (length cells.old.list.items)) stages.now }
    ensures limit { cells.new.limit ≡ cells.old.limit }
{
    // `as` and no `try_from`: the check proves that no bit is lost.
    let base = cells.len() as u32;
    for stage in stages {
        cells.push(stage.over(part, base));
    }
}

impl Cell for NandCell {
    const COSTS: [usize; 7] = [1, 1, 1, 1, 2, 3, 4];

    ghost COSTS = { nand_costs };

    ghost letter = { nand_letter };

    ghost dangles = { nand_dangles };

    fn cost(kind: PartKind) -> usize {
        Self::COSTS[usize::from(kind.code())]
    }

    fn level<L: Level>(self, sources: &Sources<L>) -> L {
        match self {
            NandCell::Zero => L::zero(),
            NandCell::One => L::one(),
            NandCell::Leaf(n) => sources.leaf(n),
            NandCell::Nand(a, b) => sources.signal(a).and(sources.signal(b)).not(),
        }
    }

    fn expand(part: Part, cells: &mut CellList<NandCell>) -> usize {
        lay(pattern(part.kind), part, cells);
        cells.len() - 1
    }
}
