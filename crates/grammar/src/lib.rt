//! The grammar of a module, and what reading a module text leaves for the rules: its draft.
#![tactic(auto)]

ghost use Rattle.grammar.specs.Laws.{GrammarLaws};

mod draft;
mod rows;

pub use draft::{
    Class, Condition, Draft, Exit, Form, Gate, Heading, Item, Leaving, Listed, Name, Node, Number,
    Reference, Rows, Statement, StatementKind, Step, Subscript, Target, Terms,
};

/// The laws of reading. A whole text of words is read as the module whose words they are, where that nests at most 16
/// deep. Otherwise the reader stops at the first word with which no module goes on, or at the sign that opens a
/// seventeenth nesting. No two modules have the same words. A step, a connection, an expression, a reference and a list
/// of integers are read likewise from the front of a list of words, within any number of nestings: as far as they go on.
pub fn grammar_laws()
    ensures { GrammarLaws }
{}
