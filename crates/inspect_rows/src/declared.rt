//! The rows of symbols.
ghost use Rattle.std.specs.Prelude.{◌+◌, ◌≤◌, sum_by};
ghost use Rattle.symbols.specs.Items.{most_declared_bits};
ghost use Rattle.database.specs.Rows.{no_symbol};
ghost use Rattle.database.specs.Soundness.{SymbolSound};
ghost use Rattle.control.specs.Deciding.{Decides};
ghost use Rattle.inspect_rows.specs.Inner.{EachRow, InOrder};

use database::{SymbolRow, class_of};
use symbols::{MOST_DECLARED_BITS, is_width};

// Whether the name of a symbol ends there, or before. Its place and its length may be any numbers, and are not added.
fn ends_by(symbol: SymbolRow, end: usize) -> bool
    ensures { Decides result (symbol.place + symbol.length ≤ end) }
{
    symbol.length <= end && symbol.place <= end - symbol.length
}

// Whether a symbol has a class, a width, and a name in a text of so many bytes.
fn symbol_is_sound(symbol: SymbolRow, bytes: usize) -> bool
    ensures { Decides result (SymbolSound bytes symbol) }
{
    class_of(symbol.class).is_some()
        && is_width(symbol.width)
        && 1 <= symbol.length
        && ends_by(symbol, bytes)
}

// Whether all symbols are so.
pub(crate) fn symbols_are_sound(symbols: &[SymbolRow], bytes: usize) -> bool
    ensures { Decides result (EachRow no_symbol (SymbolSound bytes) symbols.now) }
{
    for symbol in symbols {
        if !symbol_is_sound(*symbol, bytes) {
            return false;
        }
    }
    true
}

// Whether the name of each symbol ends before that of the next.
pub(crate) fn names_are_in_order(symbols: &[SymbolRow]) -> bool
    ensures { Decides result (InOrder symbols.now) }
{
    for i in 1..symbols.len() {
        if !ends_by(symbols[i - 1], symbols[i].place) {
            return false;
        }
    }
    true
}

// Whether not too many bits are declared together. Widths may be any numbers, so their sum stops at the largest number.
pub(crate) fn bits_are_few(symbols: &[SymbolRow]) -> bool
    ensures { Decides result (sum_by (λ x. x.width) symbols.now ≤ most_declared_bits) }
{
    let mut bits: usize = 0;
    for symbol in symbols {
        bits = bits.saturating_add(symbol.width);
    }
    bits <= MOST_DECLARED_BITS
}
