//! Why the engine refuses.
ghost use Rattle.std.specs.Prelude.{◌≡◌, Some};
ghost use Rattle.fault.specs.Print.{refusal_line};
ghost use Rattle.engine.specs.declared.faults.EngineFault.TheVariants.{Unsound};
ghost use Rattle.engine.specs.Faults.{engine_told};

use fault::{Fault, Layer, Refusal};
use std::error::Error;
use std::fmt;

/// Why the engine refuses a database or a call.
#[derive(Clone, Copy, PartialEq, Eq, Debug)]
pub enum EngineFault {
    /// The rows of the database are not sound.
    Unsound,
    /// The held or the working table is shorter than its size.
    ShortTable,
    /// There is no such input or point, or the levels to open with are not one for each register bit.
    Missing,
}

impl Fault for EngineFault {
    ghost told = { engine_told };

    fn refusal(&self) -> Refusal {
        match self {
            EngineFault::Unsound => Layer::Bench.refusal(18),
            EngineFault::ShortTable => Layer::Bench.refusal(23),
            EngineFault::Missing => Layer::Bench.refusal(25),
        }
    }
}

/// The line that tells the refusal.
impl fmt::Display for EngineFault {
    ghost output = { λ fault. Some (refusal_line (engine_told fault)) };

    fn fmt<W: fmt::Write>(&self, f: &mut fmt::Formatter<W>) -> fmt::Result {
        fmt::Display::fmt(&self.refusal(), f)
    }
}

impl Error for EngineFault {}

impl From<design::Unsound> for EngineFault {
    ghost from_gives = { λ _ fault. fault ≡ Unsound };

    fn from(_: design::Unsound) -> EngineFault {
        EngineFault::Unsound
    }
}
