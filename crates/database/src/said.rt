//! The rows that a draft says.
ghost use Rattle.std.specs.Prelude.{◌≡◌, ℕ, unwrap_or};
ghost use Rattle.std.proofs.Common.{rules};
ghost use Rattle.symbols.specs.Widths.{width_at};
ghost use Rattle.database.specs.Rows.{no_symbol, no_step, no_statement, no_target, no_exit, no_node};
ghost use Rattle.database.specs.Saying as saying;

use crate::rows::{ExitRow, NodeRow, StatementRow, StepRow, SymbolRow, TargetRow};
use grammar::{Draft, Exit, Item, Node, Statement, Step, Target};
use rules::BitString;
use symbols::row_at;

// What rows are made from: a draft and its text, with its bit strings and the widths of its nodes.
#[derive(Clone, Copy)]
pub struct Said<'a> {
    pub text: &'a [u8],
    pub draft: Draft<'a>,
    pub strings: &'a [BitString],
    pub widths: &'a [Option<usize>],
}

// A row of a table. The default one is not in use; others are made of what is written, each with its number.
pub trait TableRow: Copy + Default {
    ghost use Rattle.database.specs.declared.said.Said.{Said};

    type Written;

    ghost unused: { Self };

    ghost made: { Said → ℕ → Self.Written → Self };

    fn make(said: &Said, number: usize, written: &Self::Written) -> Self
        ensures { result ≡ made said.now number written.now };

    ghost is_unused: { (row : Self) → Self.is_default row → row ≡ unused };
}

impl TableRow for SymbolRow {
    type Written = Item;

    ghost unused = { no_symbol };

    ghost made = { λ s n x. saying.symbol_row x };

    ghost is_unused = { Prim.search rules };

    fn make(_said: &Said, _number: usize, written: &Item) -> SymbolRow {
        SymbolRow::of(written)
    }
}

impl TableRow for StepRow {
    type Written = Step;

    ghost unused = { no_step };

    ghost made = { λ s n x. saying.step_row s.draft.resets.now n x };

    ghost is_unused = { Prim.search rules };

    fn make(said: &Said, number: usize, written: &Step) -> StepRow {
        StepRow::of(said.draft.resets, number, written)
    }
}

impl TableRow for StatementRow {
    type Written = Statement;

    ghost unused = { no_statement };

    ghost made = { λ s n x. saying.statement_row x };

    ghost is_unused = { Prim.search rules };

    fn make(_said: &Said, _number: usize, written: &Statement) -> StatementRow {
        StatementRow::of(written)
    }
}

impl TableRow for TargetRow {
    type Written = Target;

    ghost unused = { no_target };

    ghost made = { λ s n x. saying.target_row s.text.now s.draft.items.now s.draft.statements.now x };

    ghost is_unused = { Prim.search rules };

    fn make(said: &Said, _number: usize, written: &Target) -> TargetRow {
        TargetRow::of(said.text, said.draft.items, said.draft.statements, written)
    }
}

impl TableRow for ExitRow {
    type Written = Exit;

    ghost unused = { no_exit };

    ghost made = { λ s n x. saying.exit_row x };

    ghost is_unused = { Prim.search rules };

    fn make(_said: &Said, _number: usize, written: &Exit) -> ExitRow {
        ExitRow::of(written)
    }
}

impl TableRow for NodeRow {
    type Written = Node;

    ghost unused = { no_node };

    ghost made = { λ s n x. saying.node_row s.text.now s.draft.items.now s.strings.now (unwrap_or (width_at s.widths.now n) 0) x.form };

    ghost is_unused = { Prim.search rules };

    fn make(said: &Said, number: usize, written: &Node) -> NodeRow {
        NodeRow::of(
            said.text,
            said.draft.items,
            said.strings,
            row_at(said.widths, number, None).unwrap_or(0),
            written.form,
        )
    }
}
