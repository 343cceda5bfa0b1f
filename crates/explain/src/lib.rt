//! Refusals told to a person: in words, and with the line of the text.
#![tactic(auto)]

mod lines;
mod sentences;
mod spot;

pub use lines::{caret_below, line_shown};
pub use sentences::sentence;
pub use spot::Spot;
