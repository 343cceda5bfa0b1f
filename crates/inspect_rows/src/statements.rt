//! The rows of statements and targets.
ghost use Rattle.std.specs.Prelude.{◌≡◌, ◌⊎◌, Some};
ghost use Rattle.rules.specs.Targets.{standing_by};
ghost use Rattle.database.specs.Rows.{no_statement, no_target, node as node_of};
ghost use Rattle.database.specs.Soundness.{StatementBy, StatementSound, TargetSound};
ghost use Rattle.control.specs.Databases.{rows_of};
ghost use Rattle.control.specs.Deciding.{Decides};
ghost use Rattle.inspect_rows.specs.Inner.{EachRow};

use crate::looked_up::names_bits;
use control::Rows;
use database::{StatementRow, TargetRow, statement_kind};
use grammar::StatementKind;
use symbols::Standing;

// Whether there is no condition, or it has one bit.
fn is_one_bit(rows: &Rows, condition: usize) -> bool
    ensures { Decides result ((condition ≡ 0) ⊎ ((node_of (rows_of rows.now) condition).width ≡ 1)) }
{
    condition == 0 || rows.node(condition).width == 1
}

// Whether a statement has what one of its kind has.
fn is_of_kind(rows: &Rows, kind: StatementKind, statement: StatementRow) -> bool
    ensures { Decides result (StatementBy (Some kind) (rows_of rows.now) statement) }
{
    match kind {
        StatementKind::Connection => statement.condition == 0,
        StatementKind::Transfer => { 1 <= statement.step && is_one_bit(rows, statement.condition) }
    }
}

// Whether a statement is of one of the kinds, and its step is there, if it stands in one.
fn statement_is_sound(rows: &Rows, statement: StatementRow) -> bool
    ensures { Decides result (StatementSound (rows_of rows.now) statement) }
{
    match statement_kind(statement.kind) {
        Some(kind) => { statement.step <= rows.steps.len() && is_of_kind(rows, kind, statement) }
        None => false,
    }
}

// Whether all statements are so.
pub(crate) fn statements_are_sound(rows: &Rows) -> bool
    ensures { Decides result (EachRow no_statement (StatementSound (rows_of rows.now)) rows.now.statements.now) }
{
    for statement in rows.statements {
        if !statement_is_sound(rows, *statement) {
            return false;
        }
    }
    true
}

// How the targets of a statement of that kind stand.
fn standing_by(kind: StatementKind) -> Standing
    ensures { result ≡ standing_by kind }
{
    match kind {
        StatementKind::Connection => Standing::Driven,
        StatementKind::Transfer => Standing::Loaded,
    }
}

// Whether a target names bits of a symbol that may stand as the targets of its statement do.
fn target_is_sound(rows: &Rows, target: TargetRow) -> bool
    ensures { Decides result (TargetSound (rows_of rows.now) target) }
{
    match statement_kind(rows.statement(target.statement).kind) {
        Some(kind) => names_bits(
            rows,
            standing_by(kind),
            target.symbol,
            target.first,
            target.last,
        ),
        None => false,
    }
}

// Whether all targets are so.
pub(crate) fn targets_are_sound(rows: &Rows) -> bool
    ensures { Decides result (EachRow no_target (TargetSound (rows_of rows.now)) rows.now.targets.now) }
{
    for target in rows.targets {
        if !target_is_sound(rows, *target) {
            return false;
        }
    }
    true
}
