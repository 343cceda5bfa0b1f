//! The rows of nodes.
ghost use Rattle.std.specs.Prelude.{◌≡◌, ◌+◌, ◌-◌, ◌^◌, ◌<◌, Some};
ghost use Rattle.symbols.specs.declared.references.Standing.TheVariants.{Read};
ghost use Rattle.database.specs.Rows.{no_node};
ghost use Rattle.database.specs.Soundness.{IsWidth, NamesBits, NoName, Operator, Joins, NodeBy, NodeSound};
ghost use Rattle.control.specs.Databases.{rows_of};
ghost use Rattle.control.specs.Deciding.{Decides};
ghost use Rattle.inspect_rows.specs.Inner.{EachRow};

use crate::looked_up::names_bits;
use control::Rows;
use database::{NodeRow, NodeSign};
use symbols::{Standing, is_width};

// Whether a node has no name.
fn has_no_name(node: NodeRow) -> bool
    ensures { Decides result (NoName node) }
{
    node.symbol == 0 && node.first == 0 && node.last == 0
}

// Whether a node has neither a name nor a value.
fn is_operator(node: NodeRow) -> bool
    ensures { Decides result (Operator node) }
{
    has_no_name(node) && node.value == 0
}

// Whether a node names as many bits as it has.
fn is_name(rows: &Rows, node: NodeRow) -> bool
    requires { IsWidth node.width }
    ensures { Decides result (NamesBits (rows_of rows.now) Read node.symbol node.first node.last × (node.width ≡ node.last - node.first + 1) × (node.value ≡ 0)) }
{
    names_bits(rows, Standing::Read, node.symbol, node.first, node.last)
        && node.width - 1 == node.last - node.first
        && node.value == 0
}

// Whether the value of a node has no more bits than the node.
fn is_constant(node: NodeRow) -> bool
    requires { IsWidth node.width }
    ensures { Decides result (NoName node × (node.value < 2 ^ node.width)) }
{
    has_no_name(node) && node.value < 1 << node.width
}

// Whether two sides next to each other are so wide. Widths may be any numbers, and are not added.
fn are_beside(a: usize, b: usize, width: usize) -> bool
    ensures { Decides result (width ≡ a + b) }
{
    a <= width && b == width - a
}

// Whether two sides can be joined bit by bit, and are so wide then.
fn are_joined(a: usize, b: usize, width: usize) -> bool
    ensures { Decides result (Joins a b width) }
{
    (a == b || a == 1 || b == 1) && width == a.max(b)
}

// Whether a node keeps what one of its sign does, by the widths of its operands.
fn is_of_sign(rows: &Rows, sign: NodeSign, node: NodeRow, a: usize, b: usize) -> bool
    requires { IsWidth node.width }
    ensures { Decides result (NodeBy (Some sign) (rows_of rows.now) node a b) }
{
    match sign {
        NodeSign::Name => is_name(rows, node),
        NodeSign::Constant => is_constant(node),
        NodeSign::Comma => is_operator(node) && are_beside(a, b, node.width),
        NodeSign::And | NodeSign::Or | NodeSign::Xor => {
            is_operator(node) && are_joined(a, b, node.width)
        }
        NodeSign::Not => is_operator(node) && node.width == a,
        NodeSign::AndReduce | NodeSign::OrReduce | NodeSign::XorReduce => {
            is_operator(node) && node.width == 1
        }
    }
}

// Whether a node has a width and a sign, and keeps what one of its sign does.
fn node_is_sound(rows: &Rows, row: NodeRow) -> bool
    ensures { Decides result (NodeSound (rows_of rows.now) row) }
{
    let left = rows.node(row.left).width;
    let right = rows.node(row.right).width;
    match NodeSign::from_code(row.sign) {
        Some(sign) => is_width(row.width) && is_of_sign(rows, sign, row, left, right),
        None => false,
    }
}

// Whether all nodes are so.
pub(crate) fn nodes_are_sound(rows: &Rows) -> bool
    ensures { Decides result (EachRow no_node (NodeSound (rows_of rows.now)) rows.now.nodes.now) }
{
    for node in rows.nodes {
        if !node_is_sound(rows, *node) {
            return false;
        }
    }
    true
}
