//! Why calls are not played on a text.
ghost use Rattle.std.specs.Prelude.{◌≡◌, Some};
ghost use Rattle.playing.specs.declared.faults.PlayFault.TheVariants.{OutOfMemory, Read};
ghost use Rattle.playing.specs.Faults.{play_told, fault_line};

use fault::{Fault, Layer, Refusal};
use std::alloc::AllocError;
use std::{error, fmt};
use text::ReadFault;

/// Why no call is played. The rows of an accepted text are always taken, so that there is no case for rows that are not sound.
#[derive(Clone, Copy, PartialEq, Eq, Debug)]
pub enum PlayFault {
    /// There is no memory for the answers.
    OutOfMemory,
    /// The text is refused.
    Read(ReadFault),
}

impl Fault for PlayFault {
    ghost told = { play_told };

    fn refusal(&self) -> Refusal {
        match self {
            PlayFault::OutOfMemory => Layer::Bench.refusal(0),
            PlayFault::Read(fault) => fault.refusal(),
        }
    }
}

/// What a fault of reading prints; where memory is wanting for the answers, which breaks no rule, a sentence.
impl fmt::Display for PlayFault {
    ghost output = { λ fault. Some (fault_line fault) };

    fn fmt<W: fmt::Write>(&self, f: &mut fmt::Formatter<W>) -> fmt::Result {
        match self {
            PlayFault::OutOfMemory => f.write_str("no memory for the answers"),
            PlayFault::Read(fault) => fmt::Display::fmt(fault, f),
        }
    }
}

impl error::Error for PlayFault {}

impl From<ReadFault> for PlayFault {
    ghost from_gives = { λ e r. r ≡ Read e };

    fn from(e: ReadFault) -> PlayFault {
        PlayFault::Read(e)
    }
}

impl From<AllocError> for PlayFault {
    ghost from_gives = { λ _ r. r ≡ OutOfMemory };

    fn from(_e: AllocError) -> PlayFault {
        PlayFault::OutOfMemory
    }
}
