//! The readers of connections, transfers, branches and steps.
#![tactic(auto, using(crate::proofs::Steps::steps))]

ghost use Rattle.std.specs.Prelude.{◌≡◌, ◌<◌, length, OnOk, Some};
ghost use Rattle.words.specs.declared.token.Sign.TheVariants.{Comma, Semicolon};
ghost use Rattle.grammar.specs.Rules.{conn, step as step_rule, targets as targets_rule, stmt, branch as branch_rule, action as action_rule, ref, integer, integers, ◌then◌, mark, series as series_rule, expr};
ghost use Rattle.grammar.specs.Reading.{read};
ghost use Rattle.grammar.specs.Promise.{deepest};
ghost use Rattle.grammar.specs.Drafts.{row_lists, with_target, target_at, ref_of, targets_place, target_rows, value_rows, head_at, conn_rows, stmt_rows, branch_rows, series_rows, action_rows, step_rows};
ghost use Rattle.cursor.specs.Told.{Wrote, Gave, RowsRoomKept};
ghost use Rattle.statements.specs.Parts.{conditional as conditional_rule, assignment as assignment_rule, condition_branch, next_target_rows, condition_given, assigned_rows, conditional_rows, assignment_rows, one_exit, next_exit_rows, exits_written, condition_branch_rows};

use cursor::{AnyInteger, Cursor, Stop};
use grammar::{Condition, Exit, Leaving, Listed, Rows, Statement, StatementKind, Step, Target};
use terms::{expression, reference};
use words::{Keyword, Sign};

// What is known of a statement when its sign is read.
#[derive(Clone, Copy)]
struct Head {
    place: usize,
    step: Option<usize>,
    kind: StatementKind,
    condition: Option<Condition>,
}

/// Reads a connection behind CONTROLRESET.
pub fn connection(cursor: &mut Cursor<'_>, rows: &mut Rows) -> Result<(), Stop>
    ensures told { Wrote (read deepest conn cursor.old) conn_rows (row_lists rows.old) result cursor.new (row_lists rows.new) }
    ensures forward { OnOk result (length cursor.new < length cursor.old) }
    ensures room { RowsRoomKept result cursor.old cursor.new rows.old rows.new }
{
    let place = targets(cursor, rows)?;
    let head = Head {
        place,
        step: None,
        kind: StatementKind::Connection,
        condition: None,
    };
    assigned(cursor, rows, Sign::Equal, head)
}

/// Reads a control step with its action.
pub fn step(cursor: &mut Cursor<'_>, rows: &mut Rows) -> Result<(), Stop>
    ensures told { Wrote (read deepest step_rule cursor.old) step_rows (row_lists rows.old) result cursor.new (row_lists rows.new) }
    ensures forward { OnOk result (length cursor.new < length cursor.old) }
    ensures room { RowsRoomKept result cursor.old cursor.new rows.old rows.new }
{
    let number = rows.steps.len() + 1;
    let integer = cursor.take(AnyInteger)?;
    let leaving = action(cursor, rows, number)?;
    cursor.take(Sign::Dot)?;
    rows.steps.push(Step { integer, leaving })?;
    Ok(())
}

// Reads a target of the statement that comes next, and answers the place of its name.
fn one_target(cursor: &mut Cursor<'_>, rows: &mut Rows, comma: Option<usize>) -> Result<usize, Stop>
    ensures told { Gave (read deepest ref cursor.old) (λ r d. ((ref_of r).name.place, with_target d (target_at d comma r))) (row_lists rows.old) result cursor.new (row_lists rows.new) }
    ensures forward { OnOk result (length cursor.new < length cursor.old) }
    ensures room { RowsRoomKept result cursor.old cursor.new rows.old rows.new }
{
    let reference = reference(cursor)?;
    rows.targets.push(Target {
        statement: rows.statements.len() + 1,
        comma,
        reference,
    })?;
    Ok(reference.name.place)
}

// Reads a comma and the target behind it.
fn next_target(cursor: &mut Cursor<'_>, rows: &mut Rows) -> Result<(), Stop>
    ensures told { Wrote (read deepest (mark Comma then ref) cursor.old) next_target_rows (row_lists rows.old) result cursor.new (row_lists rows.new) }
    ensures forward { OnOk result (length cursor.new < length cursor.old) }
    ensures room { RowsRoomKept result cursor.old cursor.new rows.old rows.new }
{
    let comma = cursor.take(Sign::Comma)?;
    one_target(cursor, rows, Some(comma))?;
    Ok(())
}

// Reads the targets of the statement that comes next, and answers the place of the first.
fn targets(cursor: &mut Cursor<'_>, rows: &mut Rows) -> Result<usize, Stop>
    ensures told { Gave (read deepest targets_rule cursor.old) (λ ts d. (targets_place ts, target_rows ts d)) (row_lists rows.old) result cursor.new (row_lists rows.new) }
    ensures forward { OnOk result (length cursor.new < length cursor.old) }
    ensures room { RowsRoomKept result cursor.old cursor.new rows.old rows.new }
{
    let place = one_target(cursor, rows, None)?;
    while cursor.at(Sign::Comma) {
        next_target(cursor, rows)?;
    }
    Ok(place)
}

// Reads the value of a statement, and keeps the statement.
fn value(cursor: &mut Cursor<'_>, rows: &mut Rows, head: Head, sign: usize) -> Result<(), Stop>
    ensures told { Wrote (read deepest expr cursor.old) (value_rows (head_at head.place head.step head.kind head.condition sign)) (row_lists rows.old) result cursor.new (row_lists rows.new) }
    ensures forward { OnOk result (length cursor.new < length cursor.old) }
    ensures room { RowsRoomKept result cursor.old cursor.new rows.old rows.new }
{
    let last_target = rows.targets.len();
    expression(cursor, &mut rows.terms, Some(last_target))?;
    rows.statements.push(Statement {
        place: head.place,
        step: head.step,
        kind: head.kind,
        last_target,
        condition: head.condition,
        sign,
        value: rows.terms.nodes.len(),
    })?;
    Ok(())
}

// Reads the sign of a statement and the value behind it, and keeps the statement.
fn assigned(cursor: &mut Cursor<'_>, rows: &mut Rows, sign: Sign, head: Head) -> Result<(), Stop>
    ensures told { Wrote (read deepest (mark sign then expr) cursor.old) (assigned_rows head.place head.step head.kind head.condition) (row_lists rows.old) result cursor.new (row_lists rows.new) }
    ensures forward { OnOk result (length cursor.new < length cursor.old) }
    ensures room { RowsRoomKept result cursor.old cursor.new rows.old rows.new }
{
    let sign = cursor.take(sign)?;
    value(cursor, rows, head, sign)
}

// Reads the expression of a condition, and answers its node.
fn condition(cursor: &mut Cursor<'_>, rows: &mut Rows) -> Result<usize, Stop>
    ensures told { Gave (read deepest expr cursor.old) condition_given (row_lists rows.old) result cursor.new (row_lists rows.new) }
    ensures forward { OnOk result (length cursor.new < length cursor.old) }
    ensures room { RowsRoomKept result cursor.old cursor.new rows.old rows.new }
{
    expression(cursor, &mut rows.terms, None)?;
    Ok(rows.terms.nodes.len())
}

// Reads the condition of a transfer of the step, its sign and its value, and keeps the transfer.
fn conditional(
    cursor: &mut Cursor<'_>,
    rows: &mut Rows,
    place: usize,
    step: usize,
) -> Result<(), Stop>
    ensures told { Wrote (read deepest conditional_rule cursor.old) (conditional_rows place step) (row_lists rows.old) result cursor.new (row_lists rows.new) }
    ensures forward { OnOk result (length cursor.new < length cursor.old) }
    ensures room { RowsRoomKept result cursor.old cursor.new rows.old rows.new }
{
    let star = cursor.take(Sign::Star)?;
    cursor.take(Sign::LeftParen)?;
    let node = condition(cursor, rows)?;
    cursor.take(Sign::RightParen)?;
    let head = Head {
        place,
        step: Some(step),
        kind: StatementKind::Transfer,
        condition: Some(Condition { place: star, node }),
    };
    assigned(cursor, rows, Sign::Transfer, head)
}

// Reads what stands behind the targets of a statement of the step, and keeps the statement.
fn assignment(
    cursor: &mut Cursor<'_>,
    rows: &mut Rows,
    place: usize,
    step: usize,
) -> Result<(), Stop>
    ensures told { Wrote (read deepest assignment_rule cursor.old) (assignment_rows place step) (row_lists rows.old) result cursor.new (row_lists rows.new) }
    ensures forward { OnOk result (length cursor.new < length cursor.old) }
    ensures room { RowsRoomKept result cursor.old cursor.new rows.old rows.new }
{
    let head = Head {
        place,
        step: Some(step),
        kind: StatementKind::Transfer,
        condition: None,
    };
    if cursor.at(Sign::Equal) {
        let kind = StatementKind::Connection;
        assigned(cursor, rows, Sign::Equal, Head { kind, ..head })
    } else if cursor.at(Sign::Transfer) {
        assigned(cursor, rows, Sign::Transfer, head)
    } else {
        conditional(cursor, rows, place, step)
    }
}

// Reads a connection or a transfer of the step.
fn statement(cursor: &mut Cursor<'_>, rows: &mut Rows, step: usize) -> Result<(), Stop>
    ensures told { Wrote (read deepest stmt cursor.old) (stmt_rows step) (row_lists rows.old) result cursor.new (row_lists rows.new) }
    ensures forward { OnOk result (length cursor.new < length cursor.old) }
    ensures room { RowsRoomKept result cursor.old cursor.new rows.old rows.new }
{
    let place = targets(cursor, rows)?;
    assignment(cursor, rows, place, step)
}

// Reads an exit of the step.
fn exit(
    cursor: &mut Cursor<'_>,
    rows: &mut Rows,
    step: usize,
    comma: Option<usize>,
) -> Result<(), Stop>
    ensures told { Wrote (read deepest integer cursor.old) (one_exit step comma) (row_lists rows.old) result cursor.new (row_lists rows.new) }
    ensures forward { OnOk result (length cursor.new < length cursor.old) }
    ensures room { RowsRoomKept result cursor.old cursor.new rows.old rows.new }
{
    let integer = cursor.take(AnyInteger)?;
    let entered = Listed { comma, integer };
    rows.exits.push(Exit { step, entered })?;
    Ok(())
}

// Reads a comma and the exit behind it.
fn next_exit(cursor: &mut Cursor<'_>, rows: &mut Rows, step: usize) -> Result<(), Stop>
    ensures told { Wrote (read deepest (mark Comma then integer) cursor.old) (next_exit_rows step) (row_lists rows.old) result cursor.new (row_lists rows.new) }
    ensures forward { OnOk result (length cursor.new < length cursor.old) }
    ensures room { RowsRoomKept result cursor.old cursor.new rows.old rows.new }
{
    let comma = cursor.take(Sign::Comma)?;
    exit(cursor, rows, step, Some(comma))
}

// Reads the exits of the step.
fn exits(cursor: &mut Cursor<'_>, rows: &mut Rows, step: usize) -> Result<(), Stop>
    ensures told { Wrote (read deepest integers cursor.old) (exits_written step) (row_lists rows.old) result cursor.new (row_lists rows.new) }
    ensures forward { OnOk result (length cursor.new < length cursor.old) }
    ensures room { RowsRoomKept result cursor.old cursor.new rows.old rows.new }
{
    exit(cursor, rows, step, None)?;
    while cursor.at(Sign::Comma) {
        next_exit(cursor, rows, step)?;
    }
    Ok(())
}

// Reads the condition of a branch and the exits behind it.
fn condition_exits(cursor: &mut Cursor<'_>, rows: &mut Rows, step: usize) -> Result<Leaving, Stop>
    ensures told { Gave (read deepest condition_branch cursor.old) (condition_branch_rows step) (row_lists rows.old) result cursor.new (row_lists rows.new) }
    ensures forward { OnOk result (length cursor.new < length cursor.old) }
    ensures room { RowsRoomKept result cursor.old cursor.new rows.old rows.new }
{
    let node = condition(cursor, rows)?;
    cursor.take(Sign::RightParen)?;
    let place = cursor.take(Sign::Slash)?;
    cursor.take(Sign::LeftParen)?;
    exits(cursor, rows, step)?;
    cursor.take(Sign::RightParen)?;
    Ok(Leaving::Conditions(Condition { place, node }, rows.exits.len()))
}

// Reads the branch of the step.
fn branch(cursor: &mut Cursor<'_>, rows: &mut Rows, step: usize) -> Result<Leaving, Stop>
    ensures told { Gave (read deepest branch_rule cursor.old) (branch_rows step) (row_lists rows.old) result cursor.new (row_lists rows.new) }
    ensures forward { OnOk result (length cursor.new < length cursor.old) }
    ensures room { RowsRoomKept result cursor.old cursor.new rows.old rows.new }
{
    cursor.take(Sign::Branch)?;
    cursor.take(Sign::LeftParen)?;
    if cursor.at_list() {
        exits(cursor, rows, step)?;
        cursor.take(Sign::RightParen)?;
        Ok(Leaving::Plain)
    } else {
        condition_exits(cursor, rows, step)
    }
}

// Reads statements of the step with a `;` between, the last of which may be a branch.
fn series(cursor: &mut Cursor<'_>, rows: &mut Rows, step: usize) -> Result<Leaving, Stop>
    ensures told { Gave (read deepest (series_rule stmt Semicolon branch_rule) cursor.old) (series_rows step) (row_lists rows.old) result cursor.new (row_lists rows.new) }
    ensures forward { OnOk result (length cursor.new < length cursor.old) }
    ensures room { RowsRoomKept result cursor.old cursor.new rows.old rows.new }
{
    while !cursor.at(Sign::Branch) {
        statement(cursor, rows, step)?;
        if !cursor.at(Sign::Semicolon) {
            return Ok(Leaving::Next);
        }
        cursor.take(Sign::Semicolon)?;
    }
    branch(cursor, rows, step)
}

// Reads the action of the step.
fn action(cursor: &mut Cursor<'_>, rows: &mut Rows, step: usize) -> Result<Leaving, Stop>
    ensures told { Gave (read deepest action_rule cursor.old) (action_rows step) (row_lists rows.old) result cursor.new (row_lists rows.new) }
    ensures forward { OnOk result (length cursor.new < length cursor.old) }
    ensures room { RowsRoomKept result cursor.old cursor.new rows.old rows.new }
{
    if cursor.at(Keyword::Null) {
        cursor.take(Keyword::Null)?;
        Ok(Leaving::Next)
    } else if cursor.at(Keyword::DeadEnd) {
        cursor.take(Keyword::DeadEnd)?;
        Ok(Leaving::Dead)
    } else {
        series(cursor, rows, step)
    }
}
