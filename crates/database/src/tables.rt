//! The six tables, lent by the caller.
ghost use Rattle.std.specs.Prelude.{◌≡◌, ℕ, ◌+◌, List, length, take, replicate, slice_index_or, vec_items};
ghost use Rattle.grammar.specs.Drafts.{draft_lists};
ghost use Rattle.least.specs.Each.{numbered};
ghost use Rattle.rules.specs.Strings.{strings as strings_of};
ghost use Rattle.rules.specs.Faults.{node_widths};
ghost use Rattle.database.specs.Rows.{counts_of};
ghost use Rattle.database.specs.Saying.{rows_by};
ghost use Rattle.database.specs.Tables.{table_lists, SameTables, is_short as short, filled, Zeroed, Holds, fitting};

use crate::rows::{ExitRow, NodeRow, StatementRow, StepRow, SymbolRow, TargetRow};
use crate::said::{Said, TableRow};
use grammar::Draft;
use rules::{MOST_EXITS, MOST_NODES, MOST_STATEMENTS, MOST_STEPS, MOST_TARGETS, Measures};
use symbols::MOST_SYMBOLS;

/// How many rows the table of symbols has at least.
pub const SYMBOLS: usize = MOST_SYMBOLS;

/// How many rows the table of steps has at least.
pub const STEPS: usize = MOST_STEPS;

/// How many rows the table of statements has at least.
pub const STATEMENTS: usize = MOST_STATEMENTS;

/// How many rows the table of targets has at least.
pub const TARGETS: usize = MOST_TARGETS;

/// How many rows the table of exits has at least.
pub const EXITS: usize = MOST_EXITS;

/// How many rows the table of nodes has at least.
pub const NODES: usize = MOST_NODES;

/// The six tables of a database.
#[derive(Drop)]
pub struct Tables<'a> {
    pub symbols: &'a mut [SymbolRow],
    pub steps: &'a mut [StepRow],
    pub statements: &'a mut [StatementRow],
    pub targets: &'a mut [TargetRow],
    pub exits: &'a mut [ExitRow],
    pub nodes: &'a mut [NodeRow],
}

/// How many rows of each table are in use.
#[derive(Clone, Copy, PartialEq, Eq)]
pub struct Counts {
    pub symbols: usize,
    pub steps: usize,
    pub statements: usize,
    pub targets: usize,
    pub exits: usize,
    pub nodes: usize,
}

// A row that is not in use.
fn unused<R: TableRow>() -> R
    ensures { result ≡ R.unused }
{
    R::default()
}

// The row of that index, of what is written.
fn row_of<R: TableRow>(said: &Said, written: &[R::Written], index: usize) -> R
    ensures { result ≡ slice_index_or (numbered (R.made said.now) written.now) index R.unused }
{
    match written.get(index) {
        Some(one) => R::make(said, index + 1, one),
        None => unused(),
    }
}

// Makes all rows of a table unused.
fn clear<R: TableRow>(table: &mut [R])
    ensures { table.new ≡ replicate (length table.old) R.unused }
{
    for index in 0..table.len() {
        table[index] = unused();
    }
}

// Writes the rows of what is written, as far as they fit, and makes the others unused.
fn write<R: TableRow>(said: &Said, written: &[R::Written], table: &mut [R])
    ensures { table.new ≡ filled R.unused (length table.old) (take (length table.old) (numbered (R.made said.now) written.now)) }
{
    for index in 0..table.len() {
        table[index] = row_of(said, written, index);
    }
}

impl<'a> Tables<'a> {
    /// Whether a table is shorter than its size.
    pub fn is_short(&self) -> bool
        ensures { result ≡ short (table_lists self.now) }
    {
        self.symbols.len() < SYMBOLS
            || self.steps.len() < STEPS
            || self.statements.len() < STATEMENTS
            || self.targets.len() < TARGETS
            || self.exits.len() < EXITS
            || self.nodes.len() < NODES
    }

    /// Makes all rows zero.
    pub fn zero(&mut self)
        ensures zeroed { Zeroed (table_lists self.old) (table_lists self.new) }
        ensures same { SameTables self.old self.new }
    {
        clear(self.symbols);
        clear(self.steps);
        clear(self.statements);
        clear(self.targets);
        clear(self.exits);
        clear(self.nodes);
    }

    /// Writes the rows of a draft, by what was measured of it, as far as the tables go, and makes all other rows zero.
    /// Counts the rows, with those for which there is no room.
    pub fn fill(&mut self, text: &[u8], draft: &Draft, measures: &Measures) -> Counts
        ensures counted { result ≡ counts_of (rows_by text.now (draft_lists draft.now) (vec_items measures.now.strings) (vec_items measures.now.widths)) }
        ensures holds { Holds (fitting (table_lists self.old) (rows_by text.now (draft_lists draft.now) (vec_items measures.now.strings) (vec_items measures.now.widths))) (table_lists self.old) (table_lists self.new) }
        ensures same { SameTables self.old self.new }
    {
        let said = Said {
            text,
            draft: *draft,
            strings: &measures.strings,
            widths: &measures.widths,
        };
        write(&said, draft.items, self.symbols);
        write(&said, draft.steps, self.steps);
        write(&said, draft.statements, self.statements);
        write(&said, draft.targets, self.targets);
        write(&said, draft.exits, self.exits);
        write(&said, draft.nodes, self.nodes);
        Counts {
            symbols: draft.items.len(),
            steps: draft.steps.len(),
            statements: draft.statements.len(),
            targets: draft.targets.len(),
            exits: draft.exits.len(),
            nodes: draft.nodes.len(),
        }
    }
}
