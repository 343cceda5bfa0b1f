//! Declarations: what they declare, and their faults.
ghost use Rattle.std.specs.Prelude.{◌≡◌, ◌+◌, ◌-◌, ◌^◌, ◌&&◌, min, sum_by, nat_le, nat_lt, ◌==◌};
ghost use Rattle.least.specs.Order.{Notes};
ghost use Rattle.symbols.specs.Items.{most_declared_bits, is_width, written, declared_width, declared_bits, redeclared, no_width, width_faults, overflows, item_faults, items_faults};

use crate::names::index_of;
use grammar::{Item, Name, Number};
use least::{Least, Rule};

/// How wide a symbol or a side can be.
pub const MOST_BITS: usize = 32;

/// How many symbols there can be.
pub const MOST_SYMBOLS: usize = 64;

/// How many bits can be declared together.
pub const MOST_DECLARED_BITS: usize = 1024;

/// Whether it is a width, which is 1 to 32.
pub fn is_width(n: usize) -> bool
    ensures { result ≡ is_width n }
{
    1 <= n && n <= MOST_BITS
}

/// The width that is written: a name alone declares one bit.
pub fn written_width(width: Option<Number>) -> usize
    ensures { result ≡ written width }
{
    match width {
        None => 1,
        Some(n) => usize::from(n.value),
    }
}

// The width that an item declares, if it is one.
pub(crate) fn declared_width(item: Item) -> Option<usize>
    ensures { result ≡ declared_width item }
{
    let width = written_width(item.width);
    if is_width(width) { Some(width) } else { None }
}

// The bits that an item declares: what is no width declares none.
fn declared_bits(item: Item) -> usize
    ensures { result ≡ declared_bits item }
{
    let width = written_width(item.width);
    if is_width(width) { width } else { 0 }
}

/// Notes that an integer is no width.
pub fn note_width(n: Number, least: &mut Least)
    ensures { Notes least.old (no_width n) least.new }
{
    least.note_if(!is_width(usize::from(n.value)), n.place, Rule::OutOfRange);
}

// Notes that the width of an item, if one is written, is no width.
fn note_item_width(width: Option<Number>, least: &mut Least)
    ensures { Notes least.old (width_faults width) least.new }
{
    if let Some(n) = width {
        note_width(n, least);
    }
}

/// Notes that a name is declared already, by one of the items before it. It is looked up only if that would be told: a text too
/// long for the table of symbols can declare thousands of names.
#[tactic(auto, using(least::proofs::Notes::untold))]
pub fn note_name(text: &[u8], before: &[Item], name: Name, least: &mut Least)
    ensures { Notes least.old (redeclared text.now before.now name) least.new }
{
    if least.would_tell(name.place, Rule::Redeclared) {
        let declared = index_of(text, name, before).is_some();
        least.note_if(declared, name.place, Rule::Redeclared);
    }
}

/// Whether a row, so many standing before it, is the first beyond a table's size. Notes at a place that it is.
pub fn note_overflow(rows: usize, size: usize, place: usize, least: &mut Least) -> bool
    ensures notes { Notes least.old (overflows rows size place) least.new }
    ensures value { result ≡ (rows == size) }
{
    let over = rows == size;
    least.note_if(over, place, Rule::Overflow);
    over
}

// Whether so many bits more are those by which the declared bits pass 1,024.
fn pass(bits: usize, more: usize) -> bool
    ensures { result ≡ (nat_le bits most_declared_bits && nat_lt most_declared_bits (bits + more)) }
{
    bits <= MOST_DECLARED_BITS && MOST_DECLARED_BITS < bits.saturating_add(more)
}

// Notes the faults of an item behind others, which declare so many bits.
fn note_item(text: &[u8], before: &[Item], item: Item, bits: usize, least: &mut Least)
    requires { bits ≡ min (sum_by declared_bits before.now) (2 ^ 64 - 1) }
    ensures { Notes least.old (item_faults text.now before.now item) least.new }
{
    let place = item.name.place;
    note_name(text, before, item.name, least);
    note_item_width(item.width, least);
    note_overflow(before.len(), MOST_SYMBOLS, place, least);
    least.note_if(pass(bits, declared_bits(item)), place, Rule::Overflow);
}

/// Notes the faults of all items.
pub fn note_items(text: &[u8], items: &[Item], least: &mut Least)
    ensures { Notes least.old (items_faults text.now items.now) least.new }
{
    let mut bits: usize = 0;
    for (i, item) in items.iter().enumerate() {
        note_item(text, &items[0..i], *item, bits, least);
        bits = bits.saturating_add(declared_bits(*item));
    }
}
