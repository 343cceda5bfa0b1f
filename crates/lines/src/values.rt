//! The line of values that is read.
ghost use Rattle.std.specs.Prelude.{◌≡◌, ◌↔◌, ◌+◌, ◌≤◌, [], ◌∷◌, ◌++◌, ℕ, List, length, drop, Some, IfSome, IfNone, IsTrue};
ghost use Rattle.level.specs.declared.letter.Letter.{Letter as ALetter};
ghost use Rattle.least.specs.Each.{IsRow};
ghost use Rattle.control.specs.Databases.{rows_of};
ghost use Rattle.control.specs.Points.{base, width_of};
ghost use Rattle.control.specs.Letters.{Letters};
ghost use Rattle.lines.specs.Cursors.{Has, characters, space_before, from_list, KeptOutside};
ghost use Rattle.lines.specs.Lines.{letter_of, symbol_word, value_line};

use crate::classes::{is_of_class, points_of};
use design::Design;
use grammar::Class;
use level::Letter;

// The letter that a character stands for.
fn letter_of(byte: u8) -> Option<Letter>
    ensures { result ≡ letter_of byte }
{
    match byte {
        b'0' => Some(Letter::Zero),
        b'1' => Some(Letter::One),
        b'X' => Some(Letter::Unknown),
        _ => None,
    }
}

// Reads a letter for each place of a part, from that place of a line on. Answers the place behind them.
fn read_letters(line: &[u8], at: usize, letters: &mut [Letter]) -> Option<usize>
    requires place { at ≤ length line.now }
    ensures read { IfSome result (λ end. Has (characters letters.new) line.now at end) }
    ensures wrong { IfNone result ((word : List ALetter) (rest : List ℕ) → length word ≡ length letters.old → ¬ (drop at line.now ≡ characters word ++ rest)) }
{
    for i in 0..letters.len() {
        letters[i] = letter_of(*line.get(at + i)?)?;
    }
    Some(at + letters.len())
}

// Skips the space before a word that does not stand first.
fn skip_gap(line: &[u8], at: usize) -> Option<usize>
    requires place { at ≤ length line.now }
    ensures read { IfSome result (λ start. Has (space_before at) line.now at start) }
    ensures wrong { IfNone result ((rest : List ℕ) → ¬ (drop at line.now ≡ space_before at ++ rest)) }
{
    if at == 0 {
        return Some(0);
    }
    (*line.get(at)? == b' ').then_some(at + 1)
}

// Reads the letters of an input, and the space before them, from that place of a line on. Answers the place behind them.
fn read_input(
    design: &Design<'_>,
    line: &[u8],
    at: usize,
    symbol: usize,
    letters: &mut [Letter; 1024],
) -> Option<usize>
    requires row { IsRow (rows_of design.now.rows).symbols symbol }
    requires place { at ≤ length line.now }
    ensures read { IfSome result (λ end. Has (space_before at ++ symbol_word (rows_of design.now.rows) (from_list letters.new) symbol) line.now at end) }
    ensures kept { KeptOutside letters.old letters.new (base (rows_of design.now.rows) symbol) (base (rows_of design.now.rows) symbol + width_of (rows_of design.now.rows) symbol) }
    ensures wrong { IfNone result ((x : Letters) (rest : List ℕ) → ¬ (drop at line.now ≡ space_before at ++ (symbol_word (rows_of design.now.rows) x symbol ++ rest))) }
{
    let start = skip_gap(line, at)?;
    read_letters(line, start, &mut letters[points_of(design, symbol)])
}

// Whether a line ends at that place, by a byte 10 and nothing behind it.
fn ends_at(line: &[u8], at: usize) -> bool
    ensures { IsTrue result ↔ (drop at line.now ≡ 10 ∷ []) }
{
    at < line.len() && line[at] == b'\n' && at + 1 == line.len()
}

/// Reads the letters of the inputs, in the order of their points, if the line has them.
pub(crate) fn read_values(design: &Design<'_>, line: &[u8]) -> Option<[Letter; 1024]>
    ensures read { IfSome result (λ letters. line.now ≡ value_line (rows_of design.now.rows) (from_list letters)) }
    ensures wrong { IfNone result ((x : Letters) → ¬ (line.now ≡ value_line (rows_of design.now.rows) x)) }
{
    let mut letters = [Letter::Unknown; 1024];
    let mut at = 0;
    for symbol in 1..design.rows().symbols.len() + 1 {
        if is_of_class(design, symbol, Class::Input) {
            at = read_input(design, line, at, symbol, &mut letters)?;
        }
    }
    ends_at(line, at).then_some(letters)
}
