//! The laws of the rules of control steps.
#![tactic(auto)]

ghost use Rattle.control.specs.Laws.{OneWay, OneRun, KnownStays, KnownStaysOpened, SoundIsUsable, PointsInOrder};

/// The rules settle the letters of every sound database, in one way only.
pub fn one_way_law()
    ensures { OneWay }
{}

/// Every list of calls has a run, whose answers, and the letters it leaves, are determined; and an answer of 0 or 1 stays where X's are made 0 or 1.
pub fn run_laws()
    ensures one { OneRun }
    ensures stays { KnownStays }
    ensures opened { KnownStaysOpened }
{}

/// The points are in the order of classes, and held ones in theirs.
pub fn point_law()
    ensures { PointsInOrder }
{}

/// What the soundness of a database says of each of its rows.
pub fn usable_law()
    ensures { SoundIsUsable }
{}
