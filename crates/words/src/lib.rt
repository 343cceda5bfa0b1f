//! The words of a module text.
#![tactic(auto)]

ghost use Rattle.std.specs.Prelude.{◌≤◌, ◌≢◌, length, OnOk, IfErr, vec_items, vec_len, vec_capacity};
ghost use Rattle.words.specs.declared.faults.TokensFault.TheVariants.{OutOfMemory};
ghost use Rattle.words.specs.Spelling.{Spelled};
ghost use Rattle.words.specs.Faults.{NoTokens};
ghost use Rattle.words.specs.Laws.{WordLaws};

mod faults;
mod front;
mod reader;
mod token;

pub use faults::{TokensFault, WordFault};
pub use reader::{Word, Words};
pub use token::{Keyword, Kind, Sign, Token};

/// Fills the table with the words of a text, in place of what it held, or finds the first wrong word. A table with memory
/// for as many words as the text has bytes needs no more.
#[tactic(auto, using(crate::proofs::Reading::begins_pushed, crate::proofs::Reading::reads_less))]
pub fn read_tokens(text: &[u8], tokens: &mut Vec<Token>) -> Result<(), TokensFault>
    ensures right { OnOk result (Spelled text.now (vec_items tokens.new)) }
    ensures wrong { IfErr result (NoTokens text.now) }
    ensures few { OnOk result (vec_len tokens.new ≤ length text.now) }
    ensures reserved { vec_capacity tokens.old ≤ vec_capacity tokens.new }
    ensures room { length text.now ≤ vec_capacity tokens.old → IfErr result (λ e. e ≢ OutOfMemory) }
{
    tokens.clear();
    let mut words = Words::new(text);
    while let Some(Word { kind, place, .. }) = words.next()? {
        tokens.push(Token { kind, place })?;
    }
    Ok(())
}

/// The laws of words. Each text has a list of words or a first wrong word, only one of either, and not both. Its words
/// and the separators between them, put together again in order, are the text.
pub fn word_laws()
    ensures { WordLaws }
{}
