//! A module text, read: its words and its grammar. The draft that comes out says what the text says, row by row, before any
//! rule of a module is held against it.
#![tactic(auto)]

ghost use Rattle.std.specs.Prelude.{◌≡◌, ◌≢◌, ◌≤◌, ℕ, length, IfOk, IfErr};
ghost use Rattle.grammar.specs.Drafts.{row_lists};
ghost use Rattle.grammar.specs.Room.{Reserved, RowsReserved};
ghost use Rattle.drafts.specs.declared.faults.DraftFault.TheVariants.{OutOfMemory};
ghost use Rattle.drafts.specs.Parsed.{longest_text, Drafted, Undrafted, FewRows, IsDraft, front_place};
ghost use Rattle.drafts.specs.Inner.{IsStopped, stop_fault};
ghost use Rattle.drafts.specs.Laws.{DraftLaws};

use cursor::{Cursor, Stop};
use grammar::{Heading, Rows};
use parse::parse_module;
use words::{Token, read_tokens};

mod faults;
mod reader;

pub use faults::DraftFault;
pub use reader::Reader;

/// How many bytes a text has at most.
pub const LONGEST_TEXT: usize = 16_384;

// The place of the first of these words or, where none is left, the text's length.
fn place_of(rest: &[Token], text_len: usize) -> usize
    ensures { result ≡ front_place text_len rest.now }
{
    match rest {
        [token, ..] => token.place,
        [] => text_len,
    }
}

// Why reading stopped, with these words left of a text of that length.
fn fault_at(stop: Stop, rest: &[Token], text_len: usize) -> DraftFault
    ensures { result ≡ stop_fault stop (front_place text_len rest.now) }
{
    let place = place_of(rest, text_len);
    match stop {
        Stop::OutOfMemory => DraftFault::OutOfMemory,
        Stop::Unexpected => DraftFault::Unexpected(place),
        Stop::TooDeep => DraftFault::TooDeep(place),
    }
}

// Reads the module whose words these are, all those of a text of that length, into the rows, in place of those that they had; or
// finds where the words go wrong.
#[tactic(auto, using(crate::proofs::Words::accepted, crate::proofs::Words::stopped, crate::proofs::Words::left_over))]
fn read_module(words: &[Token], text_len: usize, rows: &mut Rows) -> Result<Heading, DraftFault>
    ensures accepted { IfOk result (λ heading. IsDraft words.now (record { heading = heading; rows = row_lists rows.new })) }
    ensures refused { IfErr result (IsStopped words.now text_len) }
    ensures memory { (limit : ℕ) → length words.now ≤ limit → RowsReserved limit rows.old → RowsReserved limit rows.new }
    ensures room { (limit : ℕ) → length words.now ≤ limit → RowsReserved limit rows.old → IfErr result (λ e. e ≢ OutOfMemory) }
    ensures few { (limit : ℕ) → length words.now ≤ limit → RowsReserved limit rows.old → IfOk result (λ heading. FewRows limit (record { heading = heading; rows = row_lists rows.new })) }
{
    rows.clear();
    let mut cursor = Cursor::new(words);
    let heading = match parse_module(&mut cursor, rows) {
        Ok(heading) => heading,
        Err(stop) => return Err(fault_at(stop, cursor.rest(), text_len)),
    };
    match cursor.rest() {
        [] => Ok(heading),
        rest => Err(DraftFault::Unexpected(place_of(rest, text_len))),
    }
}

// Reads a module text into the tables, in place of what they held, and answers the module's names; or answers why the text is
// refused, and where. Tables with memory for the longest text need no more.
fn read_text(text: &[u8], tokens: &mut Vec<Token>, rows: &mut Rows) -> Result<Heading, DraftFault>
    ensures accepted { IfOk result (λ heading. Drafted text.now (record { heading = heading; rows = row_lists rows.new })) }
    ensures refused { IfErr result (λ fault. fault ≢ OutOfMemory → Undrafted text.now fault) }
    ensures memory { Reserved longest_text tokens.old → RowsReserved longest_text rows.old → Reserved longest_text tokens.new × RowsReserved longest_text rows.new }
    ensures room { Reserved longest_text tokens.old → RowsReserved longest_text rows.old → IfErr result (λ e. e ≢ OutOfMemory) }
    ensures few { RowsReserved longest_text rows.old → IfOk result (λ heading. FewRows longest_text (record { heading = heading; rows = row_lists rows.new })) }
{
    if text.len() > LONGEST_TEXT {
        return Err(DraftFault::LongText);
    }
    read_tokens(text, tokens)?;
    read_module(tokens, text.len(), rows)
}

/// The laws of reading. Each text has a draft or a fault, only one of either, and not both.
pub fn draft_laws()
    ensures { DraftLaws }
{}
