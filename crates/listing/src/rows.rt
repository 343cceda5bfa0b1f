//! Rows of the six tables as numbers, and in print.

ghost use Rattle.std.specs.Prelude.{◌≡◌, ℕ, List, IfOk};
ghost use Rattle.listing.specs.Numbers.{symbol_numbers, step_numbers, statement_numbers, target_numbers, exit_numbers, node_numbers};

use database::{ExitRow, NodeRow, StatementRow, StepRow, SymbolRow, TargetRow};
use std::alloc::{AllocError, Global};
use std::io;

/// A row of one of the six tables.
pub trait Row {
    /// The numbers that the row's columns hold.
    ghost numbers: { Self → List ℕ };

    /// The name of the table.
    const TABLE: &'static str;

    /// The columns in their order.
    fn columns(&self, heap: Global) -> Result<Vec<usize>, AllocError>
        ensures { IfOk result (λ columns. columns.items ≡ numbers self.now) };
}

impl Row for SymbolRow {
    ghost numbers = { symbol_numbers };

    const TABLE: &'static str = "SYMBOLS";

    fn columns(&self, heap: Global) -> Result<Vec<usize>, AllocError> {
        Ok(vec![in heap; self.class, self.width, self.place, self.length]?)
    }
}

impl Row for StepRow {
    ghost numbers = { step_numbers };

    const TABLE: &'static str = "STEPS";

    fn columns(&self, heap: Global) -> Result<Vec<usize>, AllocError> {
        Ok(vec![in heap; self.kind, self.condition, self.reset]?)
    }
}

impl Row for StatementRow {
    ghost numbers = { statement_numbers };

    const TABLE: &'static str = "STATEMENTS";

    fn columns(&self, heap: Global) -> Result<Vec<usize>, AllocError> {
        Ok(vec![in heap; self.step, self.kind, self.condition, self.value]?)
    }
}

impl Row for TargetRow {
    ghost numbers = { target_numbers };

    const TABLE: &'static str = "TARGETS";

    fn columns(&self, heap: Global) -> Result<Vec<usize>, AllocError> {
        Ok(vec![in heap; self.statement, self.symbol, self.first, self.last]?)
    }
}

impl Row for ExitRow {
    ghost numbers = { exit_numbers };

    const TABLE: &'static str = "EXITS";

    fn columns(&self, heap: Global) -> Result<Vec<usize>, AllocError> {
        Ok(vec![in heap; self.left, self.entered]?)
    }
}

impl Row for NodeRow {
    ghost numbers = { node_numbers };

    const TABLE: &'static str = "NODES";

    fn columns(&self, heap: Global) -> Result<Vec<usize>, AllocError> {
        Ok(vec![in heap;
            self.sign,
            self.symbol,
            self.first,
            self.last,
            self.left,
            self.right,
            self.width,
            self.value,
        ]?)
    }
}

fn show_row<R: Row>(rt: &(impl Print + AllocGlobal), number: usize, row: &R) -> io::Result<()> {
    print!(rt; "{number}:")?;
    for column in row.columns(rt.alloc())? {
        print!(rt; " {column}")?;
    }
    println!(rt; "")
}

// Prints the table's name and how many rows are in use, and then each of those rows with its number.
pub(crate) fn show_rows<R: Row>(
    rt: &(impl Print + AllocGlobal),
    rows: &[R],
    count: usize,
) -> io::Result<()> {
    let table = R::TABLE;
    println!(rt; "{table} {count}")?;
    for (before, row) in rows.iter().take(count).enumerate() {
        show_row(rt, before.saturating_add(1), row)?;
    }
    Ok(())
}
