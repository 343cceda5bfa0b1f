//! References: which symbol, and which of its bits.
ghost use Rattle.std.specs.Prelude.{◌≡◌};
ghost use Rattle.least.specs.Order.{Notes};
ghost use Rattle.symbols.specs.Widths.{unless_faulty};
ghost use Rattle.symbols.specs.References.{may_stand, item_at, symbol_at, symbol_width, bus_of, is_late, subscript_faults, bits_width, reference_faults, reference_width};

use crate::items::declared_width;
use crate::names::index_of;
use crate::widths::width_unless;
use grammar::{Class, Item, Name, Reference, Subscript};
use least::{Least, Rule};

/// How a reference stands.
#[derive(Clone, Copy, PartialEq, Eq)]
pub enum Standing {
    /// In an expression.
    Read,
    /// As a target of a transfer.
    Loaded,
    /// As a target of a connection.
    Driven,
}

// Whether a symbol of a class may stand so.
fn may_stand(standing: Standing, class: Class) -> bool
    ensures { result ≡ may_stand standing class }
{
    match (standing, class) {
        (Standing::Read, Class::Input | Class::Memory | Class::Bus) => true,
        (Standing::Loaded, Class::Memory) => true,
        (Standing::Driven, Class::Output | Class::Bus) => true,
        _ => false,
    }
}

// The item with an index from 0.
fn item_at(items: &[Item], index: usize) -> Item
    ensures { result ≡ item_at items.now index }
{
    match items.get(index) {
        Some(item) => *item,
        None => Item {
            class: Class::Input,
            name: Name { place: 0, len: 0 },
            width: None,
        },
    }
}

/// The symbol that a name stands for there, by its index from 0.
pub fn symbol_at(text: &[u8], items: &[Item], standing: Standing, name: Name) -> Option<usize>
    ensures { result ≡ symbol_at text.now items.now standing name }
{
    let found = index_of(text, name, items)?;
    if may_stand(standing, item_at(items, found).class) {
        Some(found)
    } else {
        None
    }
}

/// The width of a symbol that was found.
pub fn symbol_width(items: &[Item], found: Option<usize>) -> Option<usize>
    ensures { result ≡ symbol_width items.now found }
{
    declared_width(item_at(items, found?))
}

/// The index of a symbol that was found, if it is a bus.
pub fn bus_of(items: &[Item], found: Option<usize>) -> Option<usize>
    ensures { result ≡ bus_of items.now found }
{
    match item_at(items, found?).class {
        Class::Bus => found,
        _ => None,
    }
}

// Whether a bus that is read is not declared before the first that is driven.
fn is_late(first: Option<usize>, bus: Option<usize>) -> bool
    ensures { result ≡ is_late first bus }
{
    match (first, bus) {
        (Some(first), Some(k)) => first <= k,
        _ => false,
    }
}

// The width of the bits that a subscript names. Notes that they are not bits of the symbol.
fn note_subscript(
    width: Option<usize>,
    subscript: Option<Subscript>,
    least: &mut Least,
) -> Option<usize>
    ensures notes { Notes least.old (subscript_faults width subscript) least.new }
    ensures value { result ≡ unless_faulty (subscript_faults width subscript) (bits_width width subscript) }
{
    match (width, subscript) {
        (Some(w), Some(s)) => {
            let first = usize::from(s.first);
            let last = usize::from(s.last);
            if last < first || w <= last {
                least.note(s.place, Rule::OffEnds);
                None
            } else {
                Some(last - first + 1)
            }
        }
        _ => width,
    }
}

/// The width of a reference, unless it is faulty. Notes its faults; of the buses that its statement drives, if any, `first` is declared
/// first.
pub fn note_reference(
    text: &[u8],
    items: &[Item],
    standing: Standing,
    first: Option<usize>,
    reference: Reference,
    least: &mut Least,
) -> Option<usize>
    ensures notes { Notes least.old (reference_faults text.now items.now standing first reference) least.new }
    ensures value { result ≡ unless_faulty (reference_faults text.now items.now standing first reference) (reference_width text.now items.now standing reference) }
{
    let found = symbol_at(text, items, standing, reference.name);
    let late = is_late(first, bus_of(items, found));
    least.note_if(found.is_none(), reference.name.place, Rule::Undeclared);
    least.note_if(late, reference.name.place, Rule::BusOrder);
    let width = note_subscript(symbol_width(items, found), reference.subscript, least);
    width_unless(late, width)
}
