//! That the rows of every accepted text are sound.
#![tactic(auto)]

ghost use Rattle.soundness.specs.Laws.{AcceptedAreSound, LayoutLaws, OneHeld};

/// The database of a text that keeps words, grammar and rules is sound.
pub fn soundness_law()
    ensures { AcceptedAreSound }
{}

/// The rows of every draft lie as they should, and the names that it declares are parts of its text, one
/// behind the other.
pub fn layout_law()
    ensures { LayoutLaws }
{}

/// Tables hold one sound database at most: none of its rows is all zero, as unused rows are.
pub fn held_law()
    ensures { OneHeld }
{}
