//! That the lines printed of every accepted text fit into 4,096 bytes.
#![tactic(auto)]

ghost use Rattle.fitting.specs.Laws.{NamesFit, LettersFit};

/// What is printed of an accepted text fits into 4,096 bytes: the line of its names, and any line of its letters.
pub fn fitting_law()
    ensures names { NamesFit }
    ensures letters { LettersFit }
{}
