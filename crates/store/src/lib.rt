//! The interface of a store: a table that circuits are placed in, part by part, and settled.
//!
//! A store means a rule that takes the letters of 1,088 leaves to a list of letters, one for each signal number, and
//! a number of free cells. Code above is generic over `Store` and is proved against that meaning alone.
#![tactic(auto)]

ghost use Rattle.std.specs.Prelude.{◌≡◌, ℕ, ◌+◌, ◌≤◌, List, [], ◌∷◌, length, Some, MatchResult};
ghost use Rattle.level.specs.declared.letter.Letter.{Letter};
ghost use Rattle.store.specs.declared.part.PartKind.{PartKind};
ghost use Rattle.store.specs.declared.part.PartKind.TheVariants.{Zero, One, Leaf, Not, And, Or, Xor};
ghost use Rattle.store.specs.Faults.{store_told, NotMade};
ghost use Rattle.store.specs.Laws.{StoreLaws};
ghost use Rattle.store.specs.Meaning.{Meaning};
ghost use Rattle.store.specs.Parts.{code_of, price};
ghost use Rattle.store.specs.Place.{Placed, place_refusal};
ghost use Rattle.store.specs.Settle.{Settled, settle_refusal};

mod faults;
mod part;

pub use faults::{NewStoreFault, StoreFault};
use level::Level;
pub use part::PartKind;
use std::alloc::Global;

/// How many leaves a circuit has at most.
pub const LEAVES: usize = 1088;

/// How many cells a store has at most.
pub const MOST_CELLS: usize = 1_048_576;

/// A table of cells with numbered signals.
pub trait Store {
    /// What each part costs at most, in cells, by its code.
    const COSTS: [usize; 7];

    /// The same costs, for clauses. The check holds the two to one another in each store.
    ghost COSTS: { List ℕ };

    /// The letters of the signals for any letters of the leaves, how many signals there are, and how many cells are free.
    ghost means: { Self → Meaning };

    /// An empty store with so many free cells, at most 1,048,576.
    fn new(heap: Global, cells: usize) -> Result<Self, NewStoreFault>
    where
        Self: Sized,
        ensures { MatchResult result
            (λ s. ((means s).size ≡ 0) × ((means s).free ≡ cells))
            (λ e. NotMade cells e) };

    /// What a part costs at most, in cells.
    fn cost(kind: PartKind) -> usize
        ensures { result ≡ price COSTS kind }
    {
        Self::COSTS[usize::from(kind.code())]
    }

    /// How many signals there are.
    fn count(&self) -> usize
        ensures { result ≡ (means self.now).size };

    /// Adds the part of a code over two operands, of which it takes those that it uses, and answers its signal.
    // Numbers and no struct of a `PartKind` and its operands: they may come from anywhere, and a code that names no part
    // or an operand that is not there has to be refused.
    fn place(&mut self, code: u8, a: usize, b: usize) -> Result<usize, StoreFault>
        ensures { MatchResult result
            (λ signal. Placed (price COSTS) code a b (means self.old) (means self.new) signal)
            (λ e. (place_refusal (price COSTS) code a b (means self.old) ≡ Some (store_told e)) × (self.new ≡ self.old)) };

    /// Fills the first rows of the working table, one for each signal, with the signals' levels for those of the leaves.
    // Two slices and no type of its own: both tables are lent by the caller, for this call.
    fn settle<L: Level>(&self, leaves: &[L], work: &mut [L]) -> Result<(), StoreFault>
        ensures { MatchResult result
            (λ _. Settled L.Level (means self.now) leaves.now work.old work.new)
            (λ e. (settle_refusal (means self.now) (length leaves.now) (length work.old) ≡ Some (store_told e)) × (work.new ≡ work.old)) };

    /// The rule gives a letter for each signal.
    ghost sized: { (s : Self) (leaves : List Letter) → length ((means s).signals leaves) ≡ (means s).size };

    /// Signals and free cells are few.
    ghost bounded: { (s : Self) → (means s).size + (means s).free ≤ 1048576 };
}

/// The laws of codes and refusals: a code names its kind again, and of the refusals that speak against a part the one
/// of the lowest number is told. And which kinds `PartKind::ALL` lists.
pub fn store_laws()
    ensures laws { StoreLaws }
    ensures all { PartKind.ALL ≡ Zero ∷ One ∷ Leaf ∷ Not ∷ And ∷ Or ∷ Xor ∷ [] }
{}
