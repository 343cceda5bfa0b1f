//! The nodes of expressions.
ghost use Rattle.std.specs.Prelude.{◌≡◌, ℕ, ◌≤◌, length, Some, IfErr, OnOk, option_map, vec_items};
ghost use Rattle.grammar.specs.Room.{Reserved};
ghost use Rattle.least.specs.Order.{Notes};
ghost use Rattle.symbols.specs.Items.{no_width};
ghost use Rattle.symbols.specs.Widths.{unless_faulty};
ghost use Rattle.rules.specs.Strings.{string_at};
ghost use Rattle.rules.specs.Nodes.{first_bus, form_faults, form_width, node_faults, node_width, nodes_faults, widths as all_widths};
ghost use Rattle.rules.specs.Inner.{known_by};

use crate::measures::{BitString, NO_SIDE, NO_STRING, Side};
use grammar::{Form, Item, Node, Number};
use least::Least;
use std::alloc::AllocError;
use symbols::{
    Standing, is_width, note_beside, note_joined, note_overflow, note_reference, note_width,
    row_at, width_unless,
};

/// How many nodes there can be.
pub const MOST_NODES: usize = 512;

// What nodes are judged by.
#[derive(Clone, Copy)]
pub(crate) struct Facts<'a> {
    pub text: &'a [u8],
    pub items: &'a [Item],
    pub sides: &'a [Side],
    pub strings: &'a [BitString],
}

// The first bus that a node's statement drives.
fn first_bus(sides: &[Side], driven: Option<usize>) -> Option<usize>
    ensures { result ≡ first_bus sides.now driven }
{
    row_at(sides, driven?, NO_SIDE).bus
}

// The width of the string whose last integer stands in that row.
fn string_width(strings: &[BitString], row: usize) -> Option<usize>
    ensures { result ≡ (string_at strings.now row).width }
{
    row_at(strings, row, NO_STRING).width
}

// The width of a constant that is written with it, unless it is faulty. Notes that it is no width.
fn note_sized(width: Number, least: &mut Least) -> Option<usize>
    ensures notes { Notes least.old (no_width width) least.new }
    ensures value { result ≡ unless_faulty (no_width width) (Some width.value) }
{
    let bits = usize::from(width.value);
    note_width(width, least);
    width_unless(!is_width(bits), Some(bits))
}

// The width of the bits of an operand joined into one.
fn one_bit(width: Option<usize>) -> Option<usize>
    ensures { result ≡ option_map (λ _. 1) width }
{
    width.map(|_| 1)
}

// The width that a node's form makes of the widths of the nodes before it, unless it is faulty. Notes the form's faults.
fn note_form(
    facts: &Facts,
    widths: &[Option<usize>],
    node: Node,
    least: &mut Least,
) -> Option<usize>
    ensures notes { Notes least.old (form_faults (known_by facts.now) widths.now node node.form) least.new }
    ensures value { result ≡ unless_faulty (form_faults (known_by facts.now) widths.now node node.form) (form_width (known_by facts.now) widths.now node.form) }
{
    match node.form {
        Form::Bits(reference) => note_reference(
            facts.text,
            facts.items,
            Standing::Read,
            first_bus(facts.sides, node.driven),
            reference,
            least,
        ),
        Form::Literal(last) => string_width(facts.strings, last),
        Form::Sized(width, _) => note_sized(width, least),
        Form::Comma(a, b) => note_beside(
            row_at(widths, a, None),
            row_at(widths, b, None),
            node.place,
            least,
        ),
        Form::Join(_, a, b) => note_joined(
            row_at(widths, a, None),
            row_at(widths, b, None),
            node.place,
            least,
        ),
        Form::Not(a) => row_at(widths, a, None),
        Form::Reduce(_, a) => one_bit(row_at(widths, a, None)),
    }
}

// The width of a node behind others, unless it is faulty. Notes its faults.
fn note_node(
    facts: &Facts,
    widths: &[Option<usize>],
    node: Node,
    least: &mut Least,
) -> Option<usize>
    ensures notes { Notes least.old (node_faults (known_by facts.now) widths.now node) least.new }
    ensures value { result ≡ node_width (known_by facts.now) widths.now node }
{
    let width = note_form(facts, widths, node, least);
    let over = note_overflow(widths.len(), MOST_NODES, node.place, least);
    width_unless(over, width)
}

// Measures all nodes. Notes their faults.
pub(crate) fn note_nodes(
    facts: &Facts,
    nodes: &[Node],
    widths: &mut Vec<Option<usize>>,
    least: &mut Least,
) -> Result<(), AllocError>
    ensures notes { OnOk result (Notes least.old (nodes_faults (known_by facts.now) nodes.now) least.new) }
    ensures values { OnOk result (vec_items widths.new ≡ all_widths (known_by facts.now) nodes.now) }
    ensures memory { (limit : ℕ) → Reserved limit widths.old → Reserved limit widths.new }
    ensures room { (limit : ℕ) → Reserved limit widths.old → length nodes.now ≤ limit → IfErr result (λ _. ⊥) }
{
    widths.clear();
    for node in nodes {
        let width = note_node(facts, widths, *node, least);
        widths.push(width)?;
    }
    Ok(())
}
