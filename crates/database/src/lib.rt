//! The database of a module: six tables of rows, and the rows that a draft says.
#![tactic(auto)]

mod codes;
mod rows;
mod said;
mod tables;

pub use codes::{
    NodeSign, StepKind, class_code, class_of, code_laws, statement_code, statement_kind,
};
pub use rows::{ExitRow, NodeRow, StatementRow, StepRow, SymbolRow, TargetRow};
pub use tables::{Counts, EXITS, NODES, STATEMENTS, STEPS, SYMBOLS, TARGETS, Tables};
