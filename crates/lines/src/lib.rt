//! Bench lines: a line of the inputs' names, and lines of their values, played on the step engine.
#![tactic(auto)]

mod classes;
mod faults;
mod names;
mod play;
mod printing;
mod values;

pub use faults::LineFault;
pub use names::name_line;
pub use play::play_line;
pub use printing::LEAST_OUTPUT;
