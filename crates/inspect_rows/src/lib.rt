//! Whether the rows of a database can be relied on, row by row, whatever stands in them.
#![tactic(auto)]

mod declared;
mod looked_up;
mod nodes;
mod statements;
mod steps;
mod whole;

pub use whole::rows_are_sound;
