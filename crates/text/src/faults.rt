//! Why a module text is refused.
ghost use Rattle.std.specs.Prelude.{◌≡◌, Some};
ghost use Rattle.text.specs.declared.faults.ReadFault.TheVariants.{OutOfMemory};
ghost use Rattle.text.specs.Faults.{read_told, fault_line, from_draft};

use drafts::DraftFault;
use fault::{Fault, Layer, Refusal};
use least::RuleFault;
use std::alloc::AllocError;
use std::{error, fmt};

/// Why a module text is not read.
#[derive(Clone, Copy, PartialEq, Eq, Debug)]
pub enum ReadFault {
    /// There is no memory for a reader.
    OutOfMemory,
    /// A table is shorter than its size.
    ShortTable,
    /// The text is too long, or its words are wrong or no module's.
    Draft(DraftFault),
    /// The module breaks a rule.
    Rule(RuleFault),
}

impl Fault for ReadFault {
    ghost told = { read_told };

    fn refusal(&self) -> Refusal {
        match self {
            ReadFault::OutOfMemory => Layer::Text.refusal(0),
            ReadFault::ShortTable => Layer::Text.refusal(1),
            ReadFault::Draft(fault) => fault.refusal(),
            ReadFault::Rule(fault) => Refusal {
                number: fault.rule.number(),
                place: fault.place,
                layer: Layer::Text,
            },
        }
    }
}

/// The line that tells the refusal; where memory is wanting, which breaks no rule, a sentence.
impl fmt::Display for ReadFault {
    ghost output = { λ fault. Some (fault_line fault) };

    fn fmt<W: fmt::Write>(&self, f: &mut fmt::Formatter<W>) -> fmt::Result {
        match self {
            ReadFault::OutOfMemory => f.write_str("no memory for a reader of module texts"),
            ReadFault::Draft(fault) => fmt::Display::fmt(fault, f),
            fault => fmt::Display::fmt(&fault.refusal(), f),
        }
    }
}

impl error::Error for ReadFault {}

impl From<DraftFault> for ReadFault {
    ghost from_gives = { λ e r. r ≡ from_draft e };

    fn from(e: DraftFault) -> ReadFault {
        match e {
            DraftFault::OutOfMemory => ReadFault::OutOfMemory,
            fault => ReadFault::Draft(fault),
        }
    }
}

impl From<AllocError> for ReadFault {
    ghost from_gives = { λ _ r. r ≡ OutOfMemory };

    fn from(_e: AllocError) -> ReadFault {
        ReadFault::OutOfMemory
    }
}
