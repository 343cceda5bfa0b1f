//! Expressions as rows of nodes.
ghost use Rattle.std.specs.Prelude.{◌≡◌};
ghost use Rattle.control.specs.Databases.{rows_of};
ghost use Rattle.database.specs.Expressions.{Expression, operands_of, row_shape, shapes};
ghost use Rattle.control.specs.Deciding.{Decides};
ghost use Rattle.inspect_layout.specs.Inner.{LastOfShape};

use control::Rows;
use database::{NodeRow, NodeSign};

// The last node of an expression: a leaf; a node behind its only operand; a node behind its right operand, with the row of the left.
#[derive(Clone, Copy)]
enum Last {
    Leaf,
    Unary,
    Binary(usize),
}

// How many operands a sign takes.
fn operands_of(sign: NodeSign) -> usize
    ensures { result ≡ operands_of sign }
{
    match sign {
        NodeSign::Name | NodeSign::Constant => 0,
        NodeSign::Not | NodeSign::AndReduce | NodeSign::OrReduce | NodeSign::XorReduce => 1,
        NodeSign::Comma | NodeSign::And | NodeSign::Or | NodeSign::Xor => 2,
    }
}

// How many operands a node takes, if it is one.
fn operands(node: NodeRow) -> Option<usize>
    ensures { result ≡ (row_shape node).operands }
{
    Some(operands_of(NodeSign::from_code(node.sign)?))
}

// What a node of that row is as the last of an expression, if it can be.
#[tactic(auto, using(crate::proofs::Shapes::no_unary, crate::proofs::Shapes::no_binary))]
fn last_of(node: NodeRow, root: usize) -> Option<Last>
    ensures { LastOfShape (row_shape node) root result }
{
    let end = root.checked_sub(1)?;
    match operands(node)? {
        0 if node.left == 0 && node.right == 0 => Some(Last::Leaf),
        1 if node.left == end && node.right == 0 => Some(Last::Unary),
        2 if node.left < end && node.right == end => Some(Last::Binary(node.left)),
        _ => None,
    }
}

// Whether the rows behind `before`, up to `root`, are those of one expression, whose root stands last.
pub(crate) fn is_expression(rows: &Rows<'_>, before: usize, root: usize) -> bool
    ensures { Decides result (Expression (shapes (rows_of rows.now)) before root) }
{
    match last_of(rows.node(root), root) {
        Some(Last::Leaf) => before == root - 1,
        Some(Last::Unary) => is_expression(rows, before, root - 1),
        Some(Last::Binary(left)) => {
            is_expression(rows, before, left) && is_expression(rows, left, root - 1)
        }
        None => false,
    }
}
