//! What a level refuses.
ghost use Rattle.std.specs.Prelude.{Some};
ghost use Rattle.fault.specs.Print.{refusal_line};
ghost use Rattle.level.specs.Faults.{level_told};

use fault::{Fault, Layer, Refusal};
use std::error::Error;
use std::fmt;

/// Why the letter of a lane is not told.
#[derive(Clone, Copy, PartialEq, Eq, Debug)]
pub enum LevelFault {
    /// The lane does not exist.
    NoSuchLane,
}

impl Fault for LevelFault {
    ghost told = { level_told };

    fn refusal(&self) -> Refusal {
        match self {
            LevelFault::NoSuchLane => Layer::Bench.refusal(25),
        }
    }
}

/// The line that tells the refusal.
// Written at each fault that has a number, since no impl can stand for every `Fault`.
impl fmt::Display for LevelFault {
    ghost output = { λ fault. Some (refusal_line (level_told fault)) };

    fn fmt<W: fmt::Write>(&self, f: &mut fmt::Formatter<W>) -> fmt::Result {
        fmt::Display::fmt(&self.refusal(), f)
    }
}

impl Error for LevelFault {}
