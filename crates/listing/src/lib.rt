//! What programs that read a module text share: where the text is, six tables of their own, and rows in print.
#![tactic(auto)]

mod kept;
mod path;
mod rows;

pub use kept::Kept;
pub use path::module_path;
pub use rows::Row;
