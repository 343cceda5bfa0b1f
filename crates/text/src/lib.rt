//! A module text, read whole: its words, its grammar and its rules; and the database that it says.
#![tactic(auto)]

ghost use Rattle.text.specs.Laws.{ReadLaws};
ghost use Rattle.text.specs.Worked.{Worked};

mod faults;
mod reader;

pub use faults::ReadFault;
pub use reader::Reader;

/// The laws of reading. Into tables that are long enough, each text says a database or is refused, and not both; it says one database
/// at most, and it is refused by one fault at most.
pub fn read_laws()
    ensures { ReadLaws }
{}

/// What three small texts say, from their bytes to their rows: a register that is loaded under a condition; constants; bit strings.
pub fn worked_texts()
    ensures { Worked }
{}
