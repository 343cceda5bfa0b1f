//! The rows of six tables, and changes of them.

use crate::cases::Table;
use control::Rows;
use database::{ExitRow, NodeRow, StatementRow, StepRow, SymbolRow, TargetRow};
use listing::{Kept, Row};
use std::alloc::{AllocError, Global};

/// A row that is made of its columns.
pub(crate) trait Made: Row + Copy {
    /// The row with these columns; those that are not there are 0.
    fn of(columns: &[usize]) -> Self;
}

// The number of a column, or 0.
fn at(columns: &[usize], column: usize) -> usize {
    columns.get(column).copied().unwrap_or(0)
}

impl Made for SymbolRow {
    fn of(columns: &[usize]) -> SymbolRow {
        SymbolRow {
            class: at(columns, 0),
            width: at(columns, 1),
            place: at(columns, 2),
            length: at(columns, 3),
        }
    }
}

impl Made for StepRow {
    fn of(columns: &[usize]) -> StepRow {
        StepRow {
            kind: at(columns, 0),
            condition: at(columns, 1),
            reset: at(columns, 2),
        }
    }
}

impl Made for StatementRow {
    fn of(columns: &[usize]) -> StatementRow {
        StatementRow {
            step: at(columns, 0),
            kind: at(columns, 1),
            condition: at(columns, 2),
            value: at(columns, 3),
        }
    }
}

impl Made for TargetRow {
    fn of(columns: &[usize]) -> TargetRow {
        TargetRow {
            statement: at(columns, 0),
            symbol: at(columns, 1),
            first: at(columns, 2),
            last: at(columns, 3),
        }
    }
}

impl Made for ExitRow {
    fn of(columns: &[usize]) -> ExitRow {
        ExitRow {
            left: at(columns, 0),
            entered: at(columns, 1),
        }
    }
}

impl Made for NodeRow {
    fn of(columns: &[usize]) -> NodeRow {
        NodeRow {
            sign: at(columns, 0),
            symbol: at(columns, 1),
            first: at(columns, 2),
            last: at(columns, 3),
            left: at(columns, 4),
            right: at(columns, 5),
            width: at(columns, 6),
            value: at(columns, 7),
        }
    }
}

/// The place of a number in six tables: a table, a row from 1 and a column from 0.
#[derive(Clone, Copy)]
pub(crate) struct Place {
    pub table: Table,
    pub row: usize,
    pub column: usize,
}

// Puts a number into a column of a row, and answers what was there; 0 where there is no such row or column.
fn put_into<R: Made>(
    heap: Global,
    rows: &mut [R],
    place: Place,
    number: usize,
) -> Result<usize, AllocError> {
    let Place { row, column, .. } = place;
    let Some(row) = rows.get_mut(row.wrapping_sub(1)) else {
        return Ok(0);
    };
    let mut columns = row.columns(heap)?;
    let Some(there) = columns.get_mut(column) else {
        return Ok(0);
    };
    let before = *there;
    *there = number;
    *row = R::of(columns.as_slice());
    Ok(before)
}

/// Puts a number into that place, and answers what was there.
pub(crate) fn put(
    heap: Global,
    kept: &mut Kept,
    place: Place,
    number: usize,
) -> Result<usize, AllocError> {
    match place.table {
        Table::Symbols => put_into(heap, kept.symbols.as_mut_slice(), place, number),
        Table::Steps => put_into(heap, kept.steps.as_mut_slice(), place, number),
        Table::Statements => put_into(heap, kept.statements.as_mut_slice(), place, number),
        Table::Targets => put_into(heap, kept.targets.as_mut_slice(), place, number),
        Table::Exits => put_into(heap, kept.exits.as_mut_slice(), place, number),
        Table::Nodes => put_into(heap, kept.nodes.as_mut_slice(), place, number),
    }
}

/// The rows of the tables, lent.
pub(crate) fn lent(kept: &Kept) -> Rows<'_> {
    Rows {
        symbols: kept.symbols.as_slice(),
        steps: kept.steps.as_slice(),
        statements: kept.statements.as_slice(),
        targets: kept.targets.as_slice(),
        exits: kept.exits.as_slice(),
        nodes: kept.nodes.as_slice(),
    }
}

// The first rows of a table.
fn first<R>(rows: &[R], count: usize) -> &[R] {
    rows.get(..count).unwrap_or(&[])
}

/// The rows with the first of one table alone.
pub(crate) fn cut(rows: Rows<'_>, table: Table, count: usize) -> Rows<'_> {
    match table {
        Table::Symbols => Rows {
            symbols: first(rows.symbols, count),
            ..rows
        },
        Table::Steps => Rows {
            steps: first(rows.steps, count),
            ..rows
        },
        Table::Statements => Rows {
            statements: first(rows.statements, count),
            ..rows
        },
        Table::Targets => Rows {
            targets: first(rows.targets, count),
            ..rows
        },
        Table::Exits => Rows {
            exits: first(rows.exits, count),
            ..rows
        },
        Table::Nodes => Rows {
            nodes: first(rows.nodes, count),
            ..rows
        },
    }
}

// Lets a row, counted from 0, and the next one change places, if they are there.
fn swap_rows<R: Copy>(rows: &mut [R], row: usize) {
    let next = row.saturating_add(1);
    if row < next && next < rows.len() {
        rows.swap(row, next);
    }
}

/// Lets a row of a table, counted from 0, and the next one change places.
pub(crate) fn swap(kept: &mut Kept, table: Table, row: usize) {
    match table {
        Table::Symbols => swap_rows(kept.symbols.as_mut_slice(), row),
        Table::Steps => swap_rows(kept.steps.as_mut_slice(), row),
        Table::Statements => swap_rows(kept.statements.as_mut_slice(), row),
        Table::Targets => swap_rows(kept.targets.as_mut_slice(), row),
        Table::Exits => swap_rows(kept.exits.as_mut_slice(), row),
        Table::Nodes => swap_rows(kept.nodes.as_mut_slice(), row),
    }
}

/// Puts as many zero rows behind those of each table as it has at least.
pub(crate) fn lengthen(heap: Global, kept: &mut Kept) -> Result<(), AllocError> {
    let mut more = Kept::filled(heap, 0)?;
    kept.symbols.append(&mut more.symbols)?;
    kept.steps.append(&mut more.steps)?;
    kept.statements.append(&mut more.statements)?;
    kept.targets.append(&mut more.targets)?;
    kept.exits.append(&mut more.exits)?;
    kept.nodes.append(&mut more.nodes)
}
