//! Why a text has no words.
ghost use Rattle.std.specs.Prelude.{◌≡◌, Some};
ghost use Rattle.fault.specs.Print.{refusal_line};
ghost use Rattle.words.specs.Faults.{word_told};
ghost use Rattle.words.specs.declared.faults.TokensFault.TheVariants.{OutOfMemory as NoMemory, Word as WordOf};

use fault::{Fault, Layer, Refusal};
use std::alloc::AllocFailed;
use std::{error, fmt};

/// What is wrong with a word, and the place of its first byte.
#[derive(Clone, Copy, PartialEq, Eq, Debug)]
pub enum WordFault {
    /// A byte begins no word.
    NoWord(usize),
    /// A name has more than 20 bytes.
    LongName(usize),
    /// An integer has more than five digits, or is above 65,535.
    LargeInteger(usize),
}

impl Fault for WordFault {
    ghost told = { word_told };

    fn refusal(&self) -> Refusal {
        let (number, place) = match self {
            WordFault::NoWord(place) => (3, *place),
            WordFault::LongName(place) => (4, *place),
            WordFault::LargeInteger(place) => (5, *place),
        };
        Refusal {
            number,
            place,
            layer: Layer::Text,
        }
    }
}

/// The line that tells the refusal.
impl fmt::Display for WordFault {
    ghost output = { λ fault. Some (refusal_line (word_told fault)) };

    fn fmt<W: fmt::Write>(&self, f: &mut fmt::Formatter<W>) -> fmt::Result {
        fmt::Display::fmt(&self.refusal(), f)
    }
}

impl error::Error for WordFault {}

/// Why the words of a text are not found.
#[derive(Clone, Copy, PartialEq, Eq, Debug)]
pub enum TokensFault {
    /// There is no memory for them.
    OutOfMemory,
    /// One of them is wrong.
    Word(WordFault),
}

impl From<WordFault> for TokensFault {
    ghost from_gives = { λ e r. r ≡ WordOf e };

    fn from(e: WordFault) -> TokensFault {
        TokensFault::Word(e)
    }
}

impl<T: Drop> From<AllocFailed<T>> for TokensFault {
    ghost from_gives = { λ _ r. r ≡ NoMemory };

    fn from(_e: AllocFailed<T>) -> TokensFault {
        TokensFault::OutOfMemory
    }
}
