//! The rules of a module, held against its draft: which faults it has.
#![tactic(auto)]

ghost use Rattle.rules.specs.Laws.{StringsSay};

mod judging;
mod measures;
mod nodes;
mod steps;
mod strings;
mod targets;

pub use judging::judge;
pub use measures::{BitString, Measures, NO_STRING};
pub use nodes::MOST_NODES;
pub use steps::{MOST_EXITS, MOST_STATEMENTS, MOST_STEPS};
pub use targets::{MOST_TARGETS, target_standing};

/// The law of bit strings: a string is as wide as it has integers, and the bits of its value are these.
pub fn string_law()
    ensures { StringsSay }
{}
