//! Faults of the rules of a module, and which of many is told: the one at the earliest place and, of those there, the one
//! with the lowest number.
#![tactic(auto)]

ghost use Rattle.least.specs.Laws.{LeastLaws, ListLaws};

mod least;
mod rule;

pub use least::Least;
pub use rule::{Rule, RuleFault};

/// The laws of what is told of a list of faults: it is one of the list, and none of the list stands before it; it is told exactly
/// where the list has one; and no other is so.
pub fn least_laws()
    ensures { LeastLaws }
{}

/// The laws of lists judged from the front: what is found is what is found at one of the elements, seen with those before it; grown
/// answers are the only ones of which each is made from those before it; and rows have the numbers of their elements.
pub fn list_laws<A, B>()
    ensures { ListLaws A B }
{}
