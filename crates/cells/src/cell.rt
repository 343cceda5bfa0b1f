//! One cell of a table, whatever the table holds.
ghost use Rattle.std.specs.Prelude.{◌≡◌, ℕ, ◌+◌, ◌<◌, ◌≤◌, Bool, false, List, length};
ghost use Rattle.level.specs.declared.letter.Letter.{Letter};
ghost use Rattle.store.specs.Parts.{price};
ghost use Rattle.store.specs.Settle.{column};
ghost use Rattle.cells.specs.Cells.{Expanded};
ghost use Rattle.cells.specs.Read.{gate_dangles};

use super::cell_list::CellList;
use super::part::Part;
use super::sources::Sources;
use level::Level;
use store::PartKind;

/// A cell of a table, whose signal has the cell's place for its number. The module is private, so no crate above can call what
/// has a `requires` here.
pub trait Cell: Copy {
    /// What each part costs in cells of this type, by its code.
    const COSTS: [usize; 7];

    /// The same costs, for clauses. The check holds the two to one another in each type of cell.
    ghost COSTS: { List ℕ };

    /// The letter of the cell, given the letters of the leaves and of the signals before it.
    ghost letter: { Self → List Letter → List Letter → Letter };

    /// Whether the cell names a leaf or a signal that is not there, where so many signals stand before it.
    ghost dangles: { ℕ → Self → Bool };

    /// What a part costs in cells of this type.
    // No body here: the constant of a type that is known is a table of the program's, and that of a type parameter is laid on the
    // stack anew at each call, which made placing slower.
    fn cost(kind: PartKind) -> usize
        ensures { result ≡ price COSTS kind };

    /// The level of the cell.
    fn level<L: Level>(self, sources: &Sources<L>) -> L
        requires { dangles (length sources.now.signals.now) self ≡ false }
        ensures { (k : ℕ) → k < L.Level.LANES → L.Level.letters result k ≡ letter self (column L.Level k sources.now.leaves.now) (column L.Level k sources.now.signals.now) };

    /// Adds the cells that stand for a part, and answers the signal of the last.
    fn expand(part: Part, cells: &mut CellList<Self>) -> usize
        requires there { gate_dangles (length cells.old.list.items) part ≡ false }
        requires fits { length cells.old.list.items + price COSTS part.kind ≤ cells.old.limit }
        ensures expanded { Expanded letter dangles (price COSTS) part cells.old.list.items cells.new.list.items result }
        ensures limit { cells.new.limit ≡ cells.old.limit };
}
