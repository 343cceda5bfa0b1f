//! The rows of tables that are in use.
ghost use Rattle.std.specs.Prelude.{◌↔◌, ◌≡◌, IsTrue};
ghost use Rattle.std.proofs.Common.{rules};
ghost use Rattle.database.specs.Rows.{no_symbol, no_step, no_statement, no_target, no_exit, no_node};
ghost use Rattle.control.specs.Databases.{rows_of, Begins, Hold};
ghost use Rattle.design.specs.Inner.{EndsInUse, AllEndInUse};

use control::Rows;
use database::{ExitRow, NodeRow, StatementRow, StepRow, SymbolRow, TargetRow};

// A row of a table.
trait TableRow: Copy {
    ghost unused: { Self };

    fn is_unused(&self) -> bool
        ensures { IsTrue result ↔ (self.now ≡ unused) };
}

impl TableRow for SymbolRow {
    ghost unused = { no_symbol };

    fn is_unused(&self) -> bool {
        *self == SymbolRow::default()
    }
}

impl TableRow for StepRow {
    ghost unused = { no_step };

    fn is_unused(&self) -> bool {
        *self == StepRow::default()
    }
}

impl TableRow for StatementRow {
    ghost unused = { no_statement };

    fn is_unused(&self) -> bool {
        *self == StatementRow::default()
    }
}

impl TableRow for TargetRow {
    ghost unused = { no_target };

    fn is_unused(&self) -> bool {
        *self == TargetRow::default()
    }
}

impl TableRow for ExitRow {
    ghost unused = { no_exit };

    fn is_unused(&self) -> bool {
        *self == ExitRow::default()
    }
}

impl TableRow for NodeRow {
    ghost unused = { no_node };

    fn is_unused(&self) -> bool {
        *self == NodeRow::default()
    }
}

// The rows of a table up to the last one that is not zero.
fn used<R: TableRow>(table: &[R]) -> &[R]
    ensures begins { Begins R.unused result.now table.now }
    ensures ends { EndsInUse R.unused result.now }
{
    let mut len = table.len();
    while len > 0 && table[len - 1].is_unused() {
        len -= 1;
    }
    &table[..len]
}

// The rows in use of each table.
pub(crate) fn rows_in_use<'a>(tables: &Rows<'a>) -> Rows<'a>
    ensures hold { Hold (rows_of result) (rows_of tables.now) }
    ensures ends { AllEndInUse (rows_of result) }
{
    Rows {
        symbols: used(tables.symbols),
        steps: used(tables.steps),
        statements: used(tables.statements),
        targets: used(tables.targets),
        exits: used(tables.exits),
        nodes: used(tables.nodes),
    }
}
