//! A part with its operands: what a table is asked to place, and a cell of the gate table.
ghost use Rattle.std.specs.Prelude.{◌≡◌, ℕ, ◌<◌, ◌≤◌, true, false, MatchResult};
ghost use Rattle.store.specs.declared.part.PartKind.{PartKind};
ghost use Rattle.store.specs.declared.faults.StoreFault.TheVariants.{NoSuchOperand};
ghost use Rattle.store.specs.Faults.{store_told};
ghost use Rattle.store.specs.Meaning.{Meaning};
ghost use Rattle.store.specs.Parts.{kind_at, missing};
ghost use Rattle.store.specs.Place.{place_refusal};
ghost use Rattle.cells.specs.Read.{gate_costs, gate_dangles, gate_letter, part_of};

use super::cell::Cell;
use super::cell_list::CellList;
use super::sources::Sources;
use level::Level;
use store::{LEAVES, PartKind, StoreFault};

/// A part over the operands that it uses; one that it does not use is 0.
// No enum with the operands in its cases: the NAND patterns take operands by their places, whatever the kind.
#[derive(Clone, Copy, PartialEq, Eq, Debug)]
pub struct Part {
    pub kind: PartKind,
    pub first: u32,
    pub second: u32,
}

// An operand, where it is below its limit.
fn operand(n: usize, limit: usize) -> Result<u32, StoreFault>
    requires { limit ≤ 1048576 }
    ensures { MatchResult result (λ v. (n < limit) × (v ≡ n)) (λ e. (limit ≤ n) × (e ≡ NoSuchOperand)) }
{
    if n < limit {
        // `as` and no `try_from`: the check proves that no bit is lost, and a second failure would never come.
        Ok(n as u32)
    } else {
        Err(StoreFault::NoSuchOperand)
    }
}

impl Part {
    /// The part of a kind over the operands that it uses, where these are there in a table of so many cells.
    pub(crate) fn over(kind: PartKind, a: usize, b: usize, size: usize) -> Result<Part, StoreFault>
        requires { size ≤ 1048576 }
        ensures { MatchResult result
            (λ part. (part ≡ part_of kind a b) × (missing kind a b size ≡ false))
            (λ e. (e ≡ NoSuchOperand) × (missing kind a b size ≡ true)) }
    {
        // An operand that the kind does not take may be anything, so each is looked at only where it is taken.
        let (first, second) = match kind {
            PartKind::Zero | PartKind::One => (0, 0),
            PartKind::Leaf => (operand(a, LEAVES)?, 0),
            PartKind::Not => (operand(a, size)?, 0),
            PartKind::And | PartKind::Or | PartKind::Xor => (operand(a, size)?, operand(b, size)?),
        };
        Ok(Part {
            kind,
            first,
            second,
        })
    }
}

impl Cell for Part {
    const COSTS: [usize; 7] = [1, 1, 1, 1, 1, 1, 1];

    ghost COSTS = { gate_costs };

    ghost letter = { gate_letter };

    ghost dangles = { gate_dangles };

    fn cost(kind: PartKind) -> usize {
        Self::COSTS[usize::from(kind.code())]
    }

    fn level<L: Level>(self, sources: &Sources<L>) -> L {
        let (a, b) = (self.first, self.second);
        match self.kind {
            PartKind::Zero => L::zero(),
            PartKind::One => L::one(),
            PartKind::Leaf => sources.leaf(a),
            PartKind::Not => sources.signal(a).not(),
            PartKind::And => sources.signal(a).and(sources.signal(b)),
            PartKind::Or => sources.signal(a).or(sources.signal(b)),
            PartKind::Xor => sources.signal(a).xor(sources.signal(b)),
        }
    }

    fn expand(part: Part, cells: &mut CellList<Part>) -> usize {
        cells.push(part)
    }
}
