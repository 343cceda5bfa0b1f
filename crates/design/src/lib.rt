//! A database that is taken to be played or built.
#![tactic(auto)]

mod design;
mod places;
mod points;
mod sound;
mod targets;
mod used;

pub use design::{Design, Unsound};
