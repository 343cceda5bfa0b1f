//! The targets of each statement, in the order of the statements.
ghost use Rattle.std.specs.Prelude.{◌≡◌, sum_by, All};
ghost use Rattle.control.specs.Databases.{rows_of};
ghost use Rattle.database.specs.Soundness.{IsBus, SideSound, target_width};
ghost use Rattle.control.specs.Deciding.{Decides};
ghost use Rattle.inspect_layout.specs.Inner.{InOrder, NamesBelow, OperandsFirst, ReadsBelow};
ghost use Rattle.inspect_layout.specs.Layout.{StepsInOrder, TargetsInOrder};

use crate::owned::split_own;
use control::Rows;
use database::{NodeRow, NodeSign, StatementRow, TargetRow, class_of};
use grammar::Class;

// Whether a symbol is a bus.
fn is_bus(rows: &Rows<'_>, number: usize) -> bool
    ensures { Decides result (IsBus (rows_of rows.now) number) }
{
    matches!(class_of(rows.symbol(number).class), Some(Class::Bus))
}

// Whether a node, if it is a name, names no bus from that number on.
fn names_below(rows: &Rows<'_>, node: NodeRow, bound: usize) -> bool
    ensures { Decides result (NamesBelow (rows_of rows.now) node bound) }
{
    match NodeSign::from_code(node.sign) {
        Some(NodeSign::Name) => node.symbol < bound || !is_bus(rows, node.symbol),
        _ => true,
    }
}

// Whether the node of that number, with those below it, reads no bus from `bound` on.
fn reads_below(rows: &Rows<'_>, number: usize, bound: usize) -> bool
    requires { OperandsFirst (rows_of rows.now) }
    ensures { Decides result (ReadsBelow (rows_of rows.now) number bound) }
{
    if number == 0 || rows.nodes.len() < number {
        return true;
    }
    let node = rows.node(number);
    if !names_below(rows, node, bound) {
        return false;
    }
    reads_below(rows, node.left, bound) && reads_below(rows, node.right, bound)
}

// Whether a target may be driven by that value, as far as the order of buses goes.
fn is_in_order(rows: &Rows<'_>, value: usize, target: TargetRow) -> bool
    requires { OperandsFirst (rows_of rows.now) }
    ensures { Decides result (InOrder (rows_of rows.now) value target) }
{
    !is_bus(rows, target.symbol) || reads_below(rows, value, target.symbol)
}

// The same of all targets of a statement.
fn are_in_order(rows: &Rows<'_>, value: usize, own: &[TargetRow]) -> bool
    requires { OperandsFirst (rows_of rows.now) }
    ensures { Decides result (All (InOrder (rows_of rows.now) value) own.now) }
{
    for target in own {
        if !is_in_order(rows, value, *target) {
            return false;
        }
    }
    true
}

// Whether some targets have so many bits together.
fn are_wide(own: &[TargetRow], width: usize) -> bool
    ensures { Decides result (sum_by target_width own.now ≡ width) }
{
    let mut left = width;
    for target in own {
        let more = target.last.saturating_sub(target.first);
        if left <= more {
            return false;
        }
        left -= more + 1;
    }
    left == 0
}

// Whether the side of a statement with these targets is sound.
fn is_sound(rows: &Rows<'_>, statement: StatementRow, own: &[TargetRow]) -> bool
    requires { OperandsFirst (rows_of rows.now) }
    ensures { Decides result (SideSound (rows_of rows.now) statement own.now) }
{
    are_wide(own, rows.node(statement.value).width) && are_in_order(rows, statement.value, own)
}

/// Whether targets are those of the statements, in their order, and their sides are sound. Asked only where the steps are laid, since
/// the operands of each node stand before it then.
#[tactic(auto, using(crate::proofs::Operands::operands_first, crate::proofs::Sides::statement_turn, crate::proofs::Sides::statements_end))]
pub fn targets_are_laid(rows: &Rows<'_>) -> bool
    requires { StepsInOrder (rows_of rows.now) }
    ensures { Decides result (TargetsInOrder (rows_of rows.now)) }
{
    let mut targets = rows.targets;
    for (passed, statement) in rows.statements.iter().enumerate() {
        let (own, others) = split_own(targets, passed + 1);
        if !is_sound(rows, *statement, own) {
            return false;
        }
        targets = others;
    }
    targets.is_empty()
}
