//! The step engine: a database, played clock by clock in letters, for every kind of level.
#![tactic(auto)]

mod clock;
mod engine;
mod faults;
mod held;
mod levels;

pub use engine::Engine;
pub use faults::EngineFault;
pub use levels::{HELD_ROWS, WORKING_ROWS};
