//! The rows of steps and exits.
ghost use Rattle.std.specs.Prelude.{◌+◌, length, Some};
ghost use Rattle.database.specs.Codes.{step_kind};
ghost use Rattle.database.specs.Rows.{no_step, no_exit, step as step_of};
ghost use Rattle.database.specs.Soundness.{LeavesBy, StepSound, Closes, ExitSound};
ghost use Rattle.control.specs.Databases.{rows_of};
ghost use Rattle.control.specs.Deciding.{Decides};
ghost use Rattle.inspect_rows.specs.Inner.{EachRow};

use crate::looked_up::is_row;
use control::Rows;
use database::{ExitRow, StepKind, StepRow};

// Whether a step that is left so has that node for its conditions: 0 where it has none.
fn leaves_by(kind: Option<StepKind>, condition: usize) -> bool
    ensures { Decides result (LeavesBy kind condition) }
{
    match kind {
        Some(StepKind::Conditions) => 1 <= condition,
        Some(StepKind::Next | StepKind::Branch | StepKind::DeadEnd) => condition == 0,
        None => false,
    }
}

// Whether a step is left in one of the four ways, and marked for the reset or not.
fn step_is_sound(step: StepRow) -> bool
    ensures { Decides result (StepSound step) }
{
    leaves_by(StepKind::from_code(step.kind), step.condition) && step.reset <= 1
}

// Whether all steps are so.
pub(crate) fn steps_are_sound(steps: &[StepRow]) -> bool
    ensures { Decides result (EachRow no_step StepSound steps.now) }
{
    for step in steps {
        if !step_is_sound(*step) {
            return false;
        }
    }
    true
}

// Whether the last step passes control to no step behind it.
pub(crate) fn last_step_closes(rows: &Rows) -> bool
    ensures { Decides result (Closes (step_kind (step_of (rows_of rows.now) (length rows.now.steps.now)).kind)) }
{
    let last = rows.step(rows.steps.len());
    matches!(
        StepKind::from_code(last.kind),
        Some(StepKind::Branch | StepKind::DeadEnd)
    )
}

// Whether both steps of an exit are there.
fn exit_is_sound(rows: &Rows, exit: ExitRow) -> bool
    ensures { Decides result (ExitSound (rows_of rows.now) exit) }
{
    is_row(rows.steps, exit.left) && is_row(rows.steps, exit.entered)
}

// Whether all exits are so.
pub(crate) fn exits_are_sound(rows: &Rows) -> bool
    ensures { Decides result (EachRow no_exit (ExitSound (rows_of rows.now)) rows.now.exits.now) }
{
    for exit in rows.exits {
        if !exit_is_sound(rows, *exit) {
            return false;
        }
    }
    true
}
