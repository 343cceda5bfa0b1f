//! A database whose rows were found sound.
ghost use Rattle.std.specs.Prelude.{◌≡◌, ◌+◌, ◌==◌, length, Some, IfOk, IfErr};
ghost use Rattle.std.proofs.Props.{props};
ghost use Rattle.least.specs.Each.{IsRow};
ghost use Rattle.database.specs.Rows.{Database, target};
ghost use Rattle.database.specs.Soundness.{Sound};
ghost use Rattle.control.specs.Databases.{rows_of, Hold};
ghost use Rattle.control.specs.Points.{rank, rank_of, base, offset, input_bits, held_bits, all_bits, register_bits, point_count};
ghost use Rattle.control.specs.Usable.{Usable, made_prop};
ghost use Rattle.design.specs.Derived.{FirstNaming, in_row, Placed};

use crate::places::Places;
use crate::sound::is_sound;
use crate::used::rows_in_use;
use control::Rows;
use database::class_code;
use grammar::Class;

/// Why a database is not taken: its rows are not sound.
#[derive(Clone, Copy, PartialEq, Eq, Debug)]
pub struct Unsound;

/// A sound database, lent: the rows in use, which nobody can change while they are lent, and what is reckoned of them once.
#[derive(Drop)]
pub struct Design<'a> {
    text: &'a [u8],
    rows: Rows<'a>,
    places: Places,
    pub ghost sound: { ∥ Sound (length text.now) (rows_of rows) ∥₁ },
    pub ghost usable: { Usable (rows_of rows) } by { Prim.hlevel (props, made_prop) },
    pub ghost placed: { Placed (rows_of rows) places } by { Prim.hlevel props },
}

impl<'a> Design<'a> {
    /// The design of the rows that the tables hold, with zero rows behind them, whatever their lengths. It is refused if what they hold is
    /// not a sound database whose names are parts of the text.
    pub fn new(text: &'a [u8], tables: Rows<'a>) -> Result<Design<'a>, Unsound>
        ensures taken { IfOk result (λ d. Sound (length text.now) (rows_of d.rows) × Hold (rows_of d.rows) (rows_of tables.entry)) }
        ensures text { IfOk result (λ d. d.text.now ≡ text.now) }
        ensures same { IfOk result (λ r. (d : Database) → Sound (length text.now) d → Hold d (rows_of tables.entry) → rows_of r.rows ≡ d) }
        ensures refused { IfErr result (λ _. (d : Database) → Sound (length text.now) d → Hold d (rows_of tables.entry) → ⊥) }
    {
        let rows = rows_in_use(&tables);
        if !is_sound(&rows, text.len()) {
            return Err(Unsound);
        }
        let places = Places::of(&rows);
        Ok(Design { text, rows, places })
    }

    /// The text that names symbols.
    pub fn text(&self) -> &'a [u8]
        ensures { result.now ≡ self.now.text.now }
    {
        self.text
    }

    /// The rows in use.
    pub fn rows(&self) -> Rows<'a>
        ensures { result ≡ self.now.rows }
    {
        self.rows
    }

    /// Whether a symbol is of a class.
    pub fn is_of_class(&self, symbol: usize, class: Class) -> bool
        ensures { result ≡ (rank_of (rows_of self.now.rows) symbol == rank (Some class)) }
    {
        let row = self.rows.symbol(symbol);
        row.class == class_code(class)
    }

    /// The bits of the inputs.
    pub fn input_bits(&self) -> usize
        ensures { result ≡ input_bits (rows_of self.now.rows) }
    {
        self.places.input_bits
    }

    /// The bits of inputs and memory.
    pub fn held_bits(&self) -> usize
        ensures { result ≡ held_bits (rows_of self.now.rows) }
    {
        self.places.held_bits
    }

    /// The bits of the memory.
    #[tactic(auto, using(crate::proofs::BitCounts::inputs_within))]
    pub fn register_bits(&self) -> usize
        ensures { result ≡ register_bits (rows_of self.now.rows) }
    {
        self.held_bits() - self.input_bits()
    }

    /// How many points there are: the bits of all symbols, and the steps.
    pub fn point_count(&self) -> usize
        ensures { result ≡ point_count (rows_of self.now.rows) }
    {
        self.all_bits() + self.rows.steps.len()
    }

    /// The bits of all symbols.
    pub fn all_bits(&self) -> usize
        ensures { result ≡ all_bits (rows_of self.now.rows) }
    {
        self.places.all_bits
    }

    /// The first point of a symbol.
    pub fn base(&self, symbol: usize) -> usize
        requires row { IsRow (rows_of self.now.rows).symbols symbol }
        ensures { IsRow (rows_of self.now.rows).symbols symbol → result ≡ base (rows_of self.now.rows) symbol }
    {
        in_row(&self.places.bases, symbol)
    }

    /// The first target that names a symbol, or 0 if none does.
    pub fn first_target(&self, symbol: usize) -> usize
        requires row { IsRow (rows_of self.now.rows).symbols symbol }
        ensures { IsRow (rows_of self.now.rows).symbols symbol → FirstNaming (rows_of self.now.rows) symbol 1 result }
    {
        in_row(&self.places.firsts, symbol)
    }

    /// The next target that names the same symbol as this one, or 0 if none does.
    pub fn next_target(&self, n: usize) -> usize
        requires row { IsRow (rows_of self.now.rows).targets n }
        ensures { IsRow (rows_of self.now.rows).targets n → FirstNaming (rows_of self.now.rows) (target (rows_of self.now.rows) n).symbol (n + 1) result }
    {
        in_row(&self.places.nexts, n)
    }

    /// The bit of its statement's value that a target begins with.
    pub fn offset(&self, n: usize) -> usize
        requires row { IsRow (rows_of self.now.rows).targets n }
        ensures { IsRow (rows_of self.now.rows).targets n → result ≡ offset (rows_of self.now.rows) n }
    {
        in_row(&self.places.offsets, n)
    }
}

// The number that stands in the row of that number.
fn in_row(numbers: &[usize], n: usize) -> usize
    requires row { IsRow numbers.now n }
    ensures { result ≡ in_row numbers.now n }
{
    numbers[n - 1]
}
