//! Why a line is refused.
ghost use Rattle.std.specs.Prelude.{◌≡◌, Some};
ghost use Rattle.fault.specs.Print.{refusal_line};
ghost use Rattle.lines.specs.declared.faults.LineFault.TheVariants.{ShortTable};
ghost use Rattle.lines.specs.Faults.{line_told};

use fault::{Fault, Layer, Refusal};
use std::error::Error;
use std::fmt;

/// Why a bench line is refused.
#[derive(Clone, Copy, PartialEq, Eq, Debug)]
pub enum LineFault {
    /// The held or the working table is shorter than its size.
    ShortTable,
    /// The output is shorter than 4,096 bytes, or than what is to be printed.
    ShortOutput,
    /// The line does not name the inputs.
    WrongNames,
    /// The line does not have a letter for each input bit.
    WrongValues,
}

impl Fault for LineFault {
    ghost told = { line_told };

    fn refusal(&self) -> Refusal {
        Layer::Bench.refusal(match self {
            LineFault::ShortTable => 23,
            LineFault::ShortOutput => 26,
            LineFault::WrongNames => 27,
            LineFault::WrongValues => 28,
        })
    }
}

/// The line that tells the refusal.
impl fmt::Display for LineFault {
    ghost output = { λ fault. Some (refusal_line (line_told fault)) };

    fn fmt<W: fmt::Write>(&self, f: &mut fmt::Formatter<W>) -> fmt::Result {
        fmt::Display::fmt(&self.refusal(), f)
    }
}

impl Error for LineFault {}
