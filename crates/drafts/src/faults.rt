//! Why a text is refused.
ghost use Rattle.std.specs.Prelude.{◌≡◌, Some};
ghost use Rattle.fault.specs.declared.Layer.TheVariants.{Text};
ghost use Rattle.drafts.specs.declared.faults.DraftFault.TheVariants.{OutOfMemory};
ghost use Rattle.drafts.specs.Faults.{draft_told, fault_line, from_tokens};

use fault::{Fault, Layer, Refusal};
use std::alloc::AllocError;
use std::{error, fmt};
use words::{TokensFault, WordFault};

/// Why a module text is not read.
#[derive(Clone, Copy, PartialEq, Eq, Debug)]
pub enum DraftFault {
    /// There is no memory for a reader.
    OutOfMemory,
    /// The text has more than 16,384 bytes.
    LongText,
    /// A word of the text is wrong.
    Word(WordFault),
    /// At this place stands a word with which no module goes on, or the text ends early.
    Unexpected(usize),
    /// At this place stands the sign that opens the seventeenth nesting of an expression.
    TooDeep(usize),
}

// A refusal of this layer.
fn refusal_at(number: u8, place: usize) -> Refusal
    ensures { result ≡ record { number = number; place = place; layer = Text } }
{
    Refusal {
        number,
        place,
        layer: Layer::Text,
    }
}

impl Fault for DraftFault {
    ghost told = { draft_told };

    fn refusal(&self) -> Refusal {
        match self {
            DraftFault::OutOfMemory => refusal_at(0, 0),
            DraftFault::LongText => refusal_at(2, 0),
            DraftFault::Word(fault) => fault.refusal(),
            DraftFault::Unexpected(place) => refusal_at(6, *place),
            DraftFault::TooDeep(place) => refusal_at(7, *place),
        }
    }
}

/// The line that tells the refusal; where memory is wanting, which breaks no rule, a sentence.
impl fmt::Display for DraftFault {
    ghost output = { λ fault. Some (fault_line fault) };

    fn fmt<W: fmt::Write>(&self, f: &mut fmt::Formatter<W>) -> fmt::Result {
        match self {
            DraftFault::OutOfMemory => f.write_str("no memory for a reader of module texts"),
            fault => fmt::Display::fmt(&fault.refusal(), f),
        }
    }
}

impl error::Error for DraftFault {}

impl From<TokensFault> for DraftFault {
    ghost from_gives = { λ e r. r ≡ from_tokens e };

    fn from(e: TokensFault) -> DraftFault {
        match e {
            TokensFault::OutOfMemory => DraftFault::OutOfMemory,
            TokensFault::Word(fault) => DraftFault::Word(fault),
        }
    }
}

impl From<AllocError> for DraftFault {
    ghost from_gives = { λ _ r. r ≡ OutOfMemory };

    fn from(_e: AllocError) -> DraftFault {
        DraftFault::OutOfMemory
    }
}
