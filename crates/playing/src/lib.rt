//! Calls played on a module text: the text is read, and the calls are made on what it says.
#![tactic(auto)]

mod faults;
mod play;

pub use faults::PlayFault;
pub use play::{play_text, rows};
