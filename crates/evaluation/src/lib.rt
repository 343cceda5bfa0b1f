//! The letters that a database settles: its working table, filled.
#![tactic(auto)]

mod filling;
mod targets;
mod values;
mod working;

pub use targets::{Joined, join_targets, step_level};
pub use values::{node_bit, or_bits};
pub use working::settle;
