//! Six tables of rows, lent to be read.
ghost use Rattle.std.specs.Prelude.{◌≡◌};
ghost use Rattle.database.specs.Rows.{symbol, step, statement, target, exit, node};
ghost use Rattle.control.specs.Databases.{rows_of};

use database::{ExitRow, NodeRow, StatementRow, StepRow, SymbolRow, TargetRow};
use symbols::row_at;

/// The tables of a database, lent to be read: all of their rows, or those in use.
#[derive(Clone, Copy)]
pub struct Rows<'a> {
    pub symbols: &'a [SymbolRow],
    pub steps: &'a [StepRow],
    pub statements: &'a [StatementRow],
    pub targets: &'a [TargetRow],
    pub exits: &'a [ExitRow],
    pub nodes: &'a [NodeRow],
}

impl Rows<'_> {
    /// The symbol of that number, or a zero row.
    pub fn symbol(&self, n: usize) -> SymbolRow
        ensures { result ≡ symbol (rows_of self.now) n }
    {
        row_at(self.symbols, n, SymbolRow::default())
    }

    /// The step of that number, or a zero row.
    pub fn step(&self, n: usize) -> StepRow
        ensures { result ≡ step (rows_of self.now) n }
    {
        row_at(self.steps, n, StepRow::default())
    }

    /// The statement of that number, or a zero row.
    pub fn statement(&self, n: usize) -> StatementRow
        ensures { result ≡ statement (rows_of self.now) n }
    {
        row_at(self.statements, n, StatementRow::default())
    }

    /// The target of that number, or a zero row.
    pub fn target(&self, n: usize) -> TargetRow
        ensures { result ≡ target (rows_of self.now) n }
    {
        row_at(self.targets, n, TargetRow::default())
    }

    /// The exit of that number, or a zero row.
    pub fn exit(&self, n: usize) -> ExitRow
        ensures { result ≡ exit (rows_of self.now) n }
    {
        row_at(self.exits, n, ExitRow::default())
    }

    /// The node of that number, or a zero row.
    pub fn node(&self, n: usize) -> NodeRow
        ensures { result ≡ node (rows_of self.now) n }
    {
        row_at(self.nodes, n, NodeRow::default())
    }
}
