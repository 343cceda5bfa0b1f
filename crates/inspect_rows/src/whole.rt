//! All rows.
ghost use Rattle.database.specs.Soundness.{Few};
ghost use Rattle.control.specs.Databases.{rows_of};
ghost use Rattle.control.specs.Deciding.{Decides};
ghost use Rattle.inspect_rows.specs.Inspection.{RowsSound};

use crate::declared::{bits_are_few, names_are_in_order, symbols_are_sound};
use crate::nodes::nodes_are_sound;
use crate::statements::{statements_are_sound, targets_are_sound};
use crate::steps::{exits_are_sound, last_step_closes, steps_are_sound};
use control::Rows;
use database::{EXITS, NODES, STATEMENTS, STEPS, SYMBOLS, TARGETS};

// Whether no table holds more rows than its size.
fn are_few(rows: &Rows) -> bool
    ensures { Decides result (Few (rows_of rows.now)) }
{
    rows.symbols.len() <= SYMBOLS
        && rows.steps.len() <= STEPS
        && rows.statements.len() <= STATEMENTS
        && rows.targets.len() <= TARGETS
        && rows.exits.len() <= EXITS
        && rows.nodes.len() <= NODES
}

/// Whether rows, which may hold anything, are what a sound database holds, row by row, where names are parts of a text of so many
/// bytes. How the rows are laid out, and what stands on the two sides of a statement, is not looked at.
pub fn rows_are_sound(rows: &Rows, bytes: usize) -> bool
    ensures { Decides result (RowsSound bytes (rows_of rows.now)) }
{
    are_few(rows)
        && symbols_are_sound(rows.symbols, bytes)
        && names_are_in_order(rows.symbols)
        && bits_are_few(rows.symbols)
        && !rows.steps.is_empty()
        && steps_are_sound(rows.steps)
        && last_step_closes(rows)
        && statements_are_sound(rows)
        && targets_are_sound(rows)
        && exits_are_sound(rows)
        && nodes_are_sound(rows)
}
