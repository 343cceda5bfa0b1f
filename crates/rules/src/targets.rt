//! The targets of statements.
ghost use Rattle.std.specs.Prelude.{◌≡◌, ℕ, ◌≤◌, length, None, IfErr, OnOk, vec_items};
ghost use Rattle.grammar.specs.Room.{Reserved};
ghost use Rattle.least.specs.Order.{Notes};
ghost use Rattle.rules.specs.Targets.{standing_by, target_standing, bus_up_to, own_faults, own_width, own_bus, side_up_to, target_faults, targets_faults, sides as all_sides};

use crate::measures::{NO_SIDE, Side};
use grammar::{Item, Statement, StatementKind, Target};
use least::Least;
use std::alloc::AllocError;
use symbols::{
    Standing, bus_of, last_of, note_overflow, note_reference, note_up_to, symbol_at, width_unless,
};

/// How many targets there can be.
pub const MOST_TARGETS: usize = 512;

// How the targets of a statement of that kind stand.
fn standing_by(kind: StatementKind) -> Standing
    ensures { result ≡ standing_by kind }
{
    match kind {
        StatementKind::Connection => Standing::Driven,
        StatementKind::Transfer => Standing::Loaded,
    }
}

/// How a target stands: by the kind of its statement.
pub fn target_standing(statements: &[Statement], target: Target) -> Standing
    ensures { result ≡ target_standing statements.now target }
{
    let row = target.statement;
    if 0 < row && row <= statements.len() {
        standing_by(statements[row - 1].kind)
    } else {
        Standing::Driven
    }
}

// Which of the buses up to a target is declared first.
fn bus_up_to(comma: Option<usize>, before: Option<usize>, own: Option<usize>) -> Option<usize>
    ensures { result ≡ bus_up_to comma before own }
{
    match (comma, before, own) {
        (Some(_), Some(a), Some(b)) => Some(a.min(b)),
        (Some(_), Some(a), None) => Some(a),
        _ => own,
    }
}

// What targets are judged by.
#[derive(Clone, Copy)]
pub(crate) struct Assigned<'a> {
    pub text: &'a [u8],
    pub items: &'a [Item],
    pub statements: &'a [Statement],
}

// The width of a target behind so many, unless it is faulty. Notes its own faults.
fn note_own(by: &Assigned, rows: usize, target: Target, least: &mut Least) -> Option<usize>
    ensures notes { Notes least.old (own_faults by.now.text.now by.now.items.now by.now.statements.now rows target) least.new }
    ensures value { result ≡ own_width by.now.text.now by.now.items.now by.now.statements.now rows target }
{
    let standing = target_standing(by.statements, target);
    let width = note_reference(by.text, by.items, standing, None, target.reference, least);
    let over = note_overflow(rows, MOST_TARGETS, target.reference.name.place, least);
    width_unless(over, width)
}

// The index of the symbol that a target names, if it is a bus.
fn own_bus(by: &Assigned, target: Target) -> Option<usize>
    ensures { result ≡ own_bus by.now.text.now by.now.items.now by.now.statements.now target }
{
    let standing = target_standing(by.statements, target);
    bus_of(
        by.items,
        symbol_at(by.text, by.items, standing, target.reference.name),
    )
}

// The side up to a target, from the sides up to those before it. Notes the target's faults.
fn note_target(by: &Assigned, before: &[Side], target: Target, least: &mut Least) -> Side
    ensures notes { Notes least.old (target_faults by.now.text.now by.now.items.now by.now.statements.now before.now target) least.new }
    ensures value { result ≡ side_up_to by.now.text.now by.now.items.now by.now.statements.now before.now target }
{
    let last = last_of(before, NO_SIDE);
    let own = note_own(by, before.len(), target, least);
    let width = note_up_to(target.comma, last.width, own, least);
    let bus = bus_up_to(target.comma, last.bus, own_bus(by, target));
    Side { width, bus }
}

// Measures the sides up to each target. Notes the faults of all targets.
pub(crate) fn note_targets(
    by: &Assigned,
    targets: &[Target],
    sides: &mut Vec<Side>,
    least: &mut Least,
) -> Result<(), AllocError>
    ensures notes { OnOk result (Notes least.old (targets_faults by.now.text.now by.now.items.now by.now.statements.now targets.now) least.new) }
    ensures values { OnOk result (vec_items sides.new ≡ all_sides by.now.text.now by.now.items.now by.now.statements.now targets.now) }
    ensures memory { (limit : ℕ) → Reserved limit sides.old → Reserved limit sides.new }
    ensures room { (limit : ℕ) → Reserved limit sides.old → length targets.now ≤ limit → IfErr result (λ _. ⊥) }
{
    sides.clear();
    for target in targets {
        let side = note_target(by, sides, *target, least);
        sides.push(side)?;
    }
    Ok(())
}
