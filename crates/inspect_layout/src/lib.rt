//! How the rows of lent tables lie: whether they stand in the order of a text.
#![tactic(auto)]

mod expressions;
mod owned;
mod steps;
mod targets;

pub use steps::steps_are_laid;
pub use targets::targets_are_laid;
