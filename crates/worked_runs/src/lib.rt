//! Small modules, played clock by clock from their texts.
#![tactic(auto)]

ghost use Rattle.std.specs.Prelude.{All};
ghost use Rattle.worked_runs.specs.Cases.{Plays, cases};

/// What some small modules answer to calls, from the bytes of their texts: all answers are worked out, and there are no others.
pub fn worked_runs()
    ensures { All Plays cases }
{}
