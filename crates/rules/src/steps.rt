//! Steps, statements and exits.
ghost use Rattle.std.specs.Prelude.{◌≡◌, ℕ, ◌+◌, ◌^◌, ◌<◌, ◌≤◌, ◌&&◌, ◌==◌, length, IfSome, IfErr, None, OnOk, vec_items};
ghost use Rattle.grammar.specs.Room.{Reserved};
ghost use Rattle.least.specs.Order.{Notes};
ghost use Rattle.least.specs.Each.{last_of};
ghost use Rattle.rules.specs.Steps.{is_step, is_missing, missing, exit_faults, count_up_to, exit_count, counts as all_counts, exits_faults, condition_faults, statement_faults, statements_faults, branch_faults, goes_on, step_faults, steps_faults, resets_faults};

use crate::measures::{NO_SIDE, Side};
use grammar::{Condition, Exit, Leaving, Listed, Number, Statement, Step};
use least::{Least, Rule};
use std::alloc::AllocError;
use symbols::{last_of, note_overflow, note_unequal, row_at, width_unless};

/// How many steps there can be.
pub const MOST_STEPS: usize = 64;

/// How many statements there can be.
pub const MOST_STATEMENTS: usize = 256;

/// How many exits there can be.
pub const MOST_EXITS: usize = 512;

// Whether a step is written with that integer.
fn is_step(steps: &[Step], integer: u16) -> bool
    ensures { result ≡ is_step steps.now integer }
{
    for step in steps {
        if step.integer.value == integer {
            return true;
        }
    }
    false
}

// Whether a step of that integer is missing. Steps count from 1.
fn is_missing(steps: &[Step], integer: u16) -> bool
    ensures { result ≡ is_missing steps.now integer }
{
    integer == 0 || !is_step(steps, integer)
}

// Notes that a named step is missing.
fn note_missing(steps: &[Step], named: Number, least: &mut Least)
    ensures { Notes least.old (missing steps.now named) least.new }
{
    least.note_if(
        is_missing(steps, named.value),
        named.place,
        Rule::StepInteger,
    );
}

// How many integers a branch's list has up to one of them, from how many it has up to the one before.
fn count_up_to(comma: Option<usize>, before: Option<usize>) -> Option<usize>
    requires { IfSome before (λ n. n < 2 ^ 63) }
    ensures { result ≡ count_up_to comma before }
{
    match (comma, before) {
        (None, _) => Some(1),
        (Some(_), Some(n)) => Some(n + 1),
        (Some(_), None) => None,
    }
}

// How many integers the list of an exit has up to it, unless one is faulty, from how many those of the exits before it have. Notes its
// faults.
fn note_exit(
    steps: &[Step],
    before: &[Option<usize>],
    exit: Exit,
    least: &mut Least,
) -> Option<usize>
    requires { IfSome (last_of None before.now) (λ n. n ≤ length before.now) }
    ensures notes { Notes least.old (exit_faults steps.now (length before.now) exit) least.new }
    ensures value { result ≡ exit_count steps.now before.now exit }
{
    let entered = exit.entered.integer;
    let absent = is_missing(steps, entered.value);
    least.note_if(absent, entered.place, Rule::StepInteger);
    let over = note_overflow(before.len(), MOST_EXITS, entered.place, least);
    let count = count_up_to(exit.entered.comma, last_of(before, None));
    width_unless(over, width_unless(absent, count))
}

// Counts how many integers the list of each exit has up to it. Notes the faults of all exits.
pub(crate) fn note_exits(
    steps: &[Step],
    exits: &[Exit],
    counts: &mut Vec<Option<usize>>,
    least: &mut Least,
) -> Result<(), AllocError>
    ensures notes { OnOk result (Notes least.old (exits_faults steps.now exits.now) least.new) }
    ensures values { OnOk result (vec_items counts.new ≡ all_counts steps.now exits.now) }
    ensures memory { (limit : ℕ) → Reserved limit counts.old → Reserved limit counts.new }
    ensures room { (limit : ℕ) → Reserved limit counts.old → length exits.now ≤ limit → IfErr result (λ _. ⊥) }
{
    counts.clear();
    for exit in exits {
        let count = note_exit(steps, counts, *exit, least);
        counts.push(count)?;
    }
    Ok(())
}

// Notes that the condition of a statement is not one bit.
fn note_condition(widths: &[Option<usize>], condition: Option<Condition>, least: &mut Least)
    ensures { Notes least.old (condition_faults widths.now condition) least.new }
{
    if let Some(c) = condition {
        note_unequal(row_at(widths, c.node, None), Some(1), c.place, least);
    }
}

// Notes the faults of a statement behind so many.
fn note_statement(
    sides: &[Side],
    widths: &[Option<usize>],
    rows: usize,
    statement: Statement,
    least: &mut Least,
)
    ensures { Notes least.old (statement_faults sides.now widths.now rows statement) least.new }
{
    let targets = row_at(sides, statement.last_target, NO_SIDE).width;
    let value = row_at(widths, statement.value, None);
    note_overflow(rows, MOST_STATEMENTS, statement.place, least);
    note_condition(widths, statement.condition, least);
    note_unequal(targets, value, statement.sign, least);
}

// Notes the faults of all statements.
pub(crate) fn note_statements(
    sides: &[Side],
    widths: &[Option<usize>],
    statements: &[Statement],
    least: &mut Least,
)
    ensures { Notes least.old (statements_faults sides.now widths.now statements.now) least.new }
{
    for (rows, statement) in statements.iter().enumerate() {
        note_statement(sides, widths, rows, *statement, least);
    }
}

// Notes that the condition of a branch has not as many bits as its list has integers.
fn note_branch(
    widths: &[Option<usize>],
    counts: &[Option<usize>],
    leaving: Leaving,
    least: &mut Least,
)
    ensures { Notes least.old (branch_faults widths.now counts.now leaving) least.new }
{
    if let Leaving::Conditions(c, last) = leaving {
        note_unequal(
            row_at(widths, c.node, None),
            row_at(counts, last, None),
            c.place,
            least,
        );
    }
}

// Whether a step may pass control to the one behind it.
fn goes_on(leaving: Leaving) -> bool
    ensures { result ≡ goes_on leaving }
{
    matches!(leaving, Leaving::Next | Leaving::Conditions(_, _))
}

// Whether the last of so many steps, behind some, passes control on.
fn leaves_last(steps: usize, rows: usize, leaving: Leaving) -> bool
    requires { rows < steps }
    ensures { result ≡ (rows + 1 == steps && goes_on leaving) }
{
    rows + 1 == steps && goes_on(leaving)
}

// Notes the faults of a step of so many, behind some.
fn note_step(
    widths: &[Option<usize>],
    counts: &[Option<usize>],
    steps: usize,
    rows: usize,
    step: Step,
    least: &mut Least,
)
    requires { rows < steps }
    ensures { Notes least.old (step_faults widths.now counts.now steps rows step) least.new }
{
    let place = step.integer.place;
    let is_next = usize::from(step.integer.value) == rows + 1;
    let last_goes_on = leaves_last(steps, rows, step.leaving);
    least.note_if(!is_next, place, Rule::StepInteger);
    least.note_if(last_goes_on, place, Rule::LastStep);
    note_overflow(rows, MOST_STEPS, place, least);
    note_branch(widths, counts, step.leaving, least);
}

// Notes the faults of all steps.
pub(crate) fn note_steps(
    widths: &[Option<usize>],
    counts: &[Option<usize>],
    steps: &[Step],
    least: &mut Least,
)
    ensures { Notes least.old (steps_faults widths.now counts.now steps.now) least.new }
{
    for (rows, step) in steps.iter().enumerate() {
        note_step(widths, counts, steps.len(), rows, *step, least);
    }
}

// Notes which steps of CONTROLRESET are missing.
pub(crate) fn note_resets(steps: &[Step], resets: &[Listed], least: &mut Least)
    ensures { Notes least.old (resets_faults steps.now resets.now) least.new }
{
    for named in resets {
        note_missing(steps, named.integer, least);
    }
}
