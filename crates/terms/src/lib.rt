//! The readers of expressions, of references and of lists of integers.
#![tactic(auto)]

mod expressions;
mod lists;
mod references;

pub use expressions::expression;
pub use lists::integers;
pub use references::reference;
