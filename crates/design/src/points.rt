//! Where the bits of symbols stand among the points.
ghost use Rattle.std.specs.Prelude.{◌≡◌, ℕ};
ghost use Rattle.least.specs.Each.{IsRow};
ghost use Rattle.database.specs.Codes.{class_of};
ghost use Rattle.control.specs.Databases.{rows_of};
ghost use Rattle.control.specs.Points.{rank, rank_of, bits_where, base, all_bits, input_bits, held_bits};
ghost use Rattle.control.specs.Usable.{Usable};
ghost use Rattle.design.specs.Derived.{in_row};
ghost use Rattle.design.specs.Inner.{before};

use control::Rows;
use database::{SYMBOLS, class_of};
use grammar::Class;

// The place of a class in the order of points, from its code.
fn rank(class: usize) -> usize
    ensures { result ≡ rank (class_of class) }
{
    match class_of(class) {
        None => 0,
        Some(Class::Input) => 1,
        Some(Class::Memory) => 2,
        Some(Class::Bus) => 3,
        Some(Class::Output) => 4,
    }
}

// Whether a symbol has a lower rank, or that rank and a lower number.
fn is_before(rows: &Rows<'_>, place: usize, number: usize, symbol: usize) -> bool
    ensures { result ≡ before (rows_of rows.now) place number symbol }
{
    let own = rank(rows.symbol(symbol).class);
    own < place || (own == place && symbol < number)
}

// The bits of the symbols of lower ranks, and of those of that rank that have lower numbers.
fn bits_before(rows: &Rows<'_>, place: usize, number: usize) -> usize
    requires { Usable (rows_of rows.now) }
    ensures { result ≡ bits_where (rows_of rows.now) (λ z. before (rows_of rows.now) place number z) }
{
    let mut bits = 0;
    for (index, symbol) in rows.symbols.iter().enumerate() {
        if is_before(rows, place, number, index + 1) {
            bits += symbol.width;
        }
    }
    bits
}

// The first point of a symbol.
#[tactic(auto, unfolding(control::specs::Points::base))]
fn base(rows: &Rows<'_>, symbol: usize) -> usize
    requires { Usable (rows_of rows.now) }
    ensures { result ≡ base (rows_of rows.now) symbol }
{
    bits_before(rows, rank(rows.symbol(symbol).class), symbol)
}

// Of each symbol its first point.
pub(crate) fn bases(rows: &Rows<'_>) -> [usize; SYMBOLS]
    requires { Usable (rows_of rows.now) }
    ensures { (y : ℕ) → IsRow (rows_of rows.now).symbols y → in_row result y ≡ base (rows_of rows.now) y }
{
    let mut bases = [0; SYMBOLS];
    for index in 0..rows.symbols.len() {
        bases[index] = base(rows, index + 1);
    }
    bases
}

// The bits of the inputs.
pub(crate) fn input_bits(rows: &Rows<'_>) -> usize
    requires { Usable (rows_of rows.now) }
    ensures { result ≡ input_bits (rows_of rows.now) }
{
    bits_before(rows, 2, 0)
}

// The bits of inputs and memory.
pub(crate) fn held_bits(rows: &Rows<'_>) -> usize
    requires { Usable (rows_of rows.now) }
    ensures { result ≡ held_bits (rows_of rows.now) }
{
    bits_before(rows, 3, 0)
}

// The bits of all symbols.
pub(crate) fn all_bits(rows: &Rows<'_>) -> usize
    requires { Usable (rows_of rows.now) }
    ensures { result ≡ all_bits (rows_of rows.now) }
{
    bits_before(rows, 5, 0)
}
