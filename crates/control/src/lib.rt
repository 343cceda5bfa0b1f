//! The rules of control steps: what a database means, clock by clock, whatever plays it.
#![tactic(auto)]

mod calls;
mod rows;

pub use calls::{Answer, Call};
pub use rows::Rows;
