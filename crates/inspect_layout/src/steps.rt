//! The statements, exits and nodes of each step, in the order of the steps.
ghost use Rattle.std.specs.Prelude.{◌≡◌, ◌≤◌, [], ◌∷◌, ◌++◌, All};
ghost use Rattle.control.specs.Databases.{rows_of};
ghost use Rattle.database.specs.Codes.{step_kind};
ghost use Rattle.database.specs.Expressions.{shapes};
ghost use Rattle.database.specs.Soundness.{HasExits, root as roots_of, statement_roots};
ghost use Rattle.control.specs.Deciding.{Decides};
ghost use Rattle.inspect_layout.specs.Inner.{EndsAt, LaidFrom, Passed};
ghost use Rattle.inspect_layout.specs.Layout.{StepsInOrder};

use crate::expressions::is_expression;
use crate::owned::split_own;
use control::Rows;
use database::{ExitRow, StatementRow, StepKind, StepRow};

// What stands behind some steps: statements, exits, and the nodes behind that row.
#[derive(Clone, Copy)]
struct Behind<'a> {
    statements: &'a [StatementRow],
    exits: &'a [ExitRow],
    before: usize,
}

// Where the expression with that root ends, if the rows behind `before` begin with it.
fn pass_expression(rows: &Rows<'_>, before: usize, root: usize) -> Option<usize>
    ensures { EndsAt (shapes (rows_of rows.now)) before (root ∷ []) result }
{
    is_expression(rows, before, root).then_some(root)
}

// The same of an expression that may be missing: its root is 0 then.
fn pass_root(rows: &Rows<'_>, before: usize, root: usize) -> Option<usize>
    ensures { EndsAt (shapes (rows_of rows.now)) before (roots_of root) result }
{
    if root == 0 {
        Some(before)
    } else {
        pass_expression(rows, before, root)
    }
}

// The same of the condition and the value of a statement.
#[tactic(auto, using(crate::proofs::Roots::ends_early, crate::proofs::Roots::ends_then))]
fn pass_statement(rows: &Rows<'_>, before: usize, statement: StatementRow) -> Option<usize>
    ensures { EndsAt (shapes (rows_of rows.now)) before (roots_of statement.condition ++ statement.value ∷ []) result }
{
    let middle = pass_root(rows, before, statement.condition)?;
    pass_expression(rows, middle, statement.value)
}

// The same of all statements.
fn pass_statements(rows: &Rows<'_>, before: usize, statements: &[StatementRow]) -> Option<usize>
    ensures { EndsAt (shapes (rows_of rows.now)) before (statement_roots statements.now) result }
{
    let mut end = before;
    for statement in statements {
        end = pass_statement(rows, end, *statement)?;
    }
    Some(end)
}

// Whether a step has so many exits.
fn has_exits(rows: &Rows<'_>, step: StepRow, exits: usize) -> bool
    ensures { Decides result (HasExits (step_kind step.kind) (rows_of rows.now) step exits) }
{
    match StepKind::from_code(step.kind) {
        Some(StepKind::Next | StepKind::DeadEnd) => exits == 0,
        Some(StepKind::Branch) => 1 <= exits,
        Some(StepKind::Conditions) => exits == rows.node(step.condition).width,
        None => false,
    }
}

// What stands behind a step and its own rows, if it has some.
fn pass_step<'a>(
    rows: &Rows<'_>,
    number: usize,
    step: StepRow,
    here: Behind<'a>,
) -> Option<Behind<'a>>
    requires { 1 ≤ number }
    ensures { Passed (rows_of rows.now) number step here.entry result }
{
    let (own, statements) = split_own(here.statements, number);
    let (left, exits) = split_own(here.exits, number);
    if !has_exits(rows, step, left.len()) {
        return None;
    }
    let middle = pass_statements(rows, here.before, own)?;
    let before = pass_root(rows, middle, step.condition)?;
    Some(Behind {
        statements,
        exits,
        before,
    })
}

// Whether all of these statements stand in no step.
fn are_of_none(statements: &[StatementRow]) -> bool
    ensures { Decides result (All (λ s. s.step ≡ 0) statements.now) }
{
    statements.iter().all(|s| s.step == 0)
}

// Whether what stands behind all steps are statements of none, with all nodes that are left.
#[tactic(auto, using(crate::proofs::Roots::one_end))]
fn ends(rows: &Rows<'_>, here: Behind<'_>) -> bool
    ensures { Decides result (LaidFrom (rows_of rows.now) 0 [] here.entry) }
{
    match pass_statements(rows, here.before, here.statements) {
        Some(end) if end == rows.nodes.len() => {
            here.exits.is_empty() && are_of_none(here.statements)
        }
        _ => false,
    }
}

/// Whether statements, exits and nodes are those of the steps, in their order.
#[tactic(auto, using(crate::proofs::Layouts::steps_end))]
pub fn steps_are_laid(rows: &Rows<'_>) -> bool
    ensures { Decides result (StepsInOrder (rows_of rows.now)) }
{
    let mut here = Behind {
        statements: rows.statements,
        exits: rows.exits,
        before: 0,
    };
    for (passed, step) in rows.steps.iter().enumerate() {
        match pass_step(rows, passed + 1, *step, here) {
            Some(behind) => here = behind,
            None => return false,
        }
    }
    ends(rows, here)
}
