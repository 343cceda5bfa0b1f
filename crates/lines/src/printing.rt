//! The line of letters that is printed.
ghost use Rattle.std.specs.Prelude.{◌≡◌, ◌+◌, ◌*◌, ◌<◌, ◌≤◌, [], ◌∷◌, ◌++◌, length};
ghost use Rattle.least.specs.Each.{IsRow};
ghost use Rattle.control.specs.Databases.{rows_of};
ghost use Rattle.control.specs.Points.{symbols_of};
ghost use Rattle.control.specs.Levels.{lane};
ghost use Rattle.lines.specs.Cursors.{GotBytes, level_characters, spaced_behind};
ghost use Rattle.lines.specs.Lines.{symbol_word, class_words, step_word, printed_letters, Printed};

use crate::classes::{is_of_class, points_of, printed_classes};
use design::Design;
use grammar::Class;
use level::{Level, Ternary};

/// The bytes that an output has at least. Each line that is printed for letters fits in.
pub const LEAST_OUTPUT: usize = 4096;

// Writes a byte. As with the functions below, `at` is where it is to stand, and the answer is the place behind what was written.
fn write_byte(byte: u8, output: &mut [u8], at: usize) -> usize
    requires room { at < length output.old }
    ensures { GotBytes (byte ∷ []) at result output.old output.new }
{
    output[at] = byte;
    at + 1
}

// Writes the characters of levels.
fn write_levels(levels: &[Ternary], output: &mut [u8], at: usize) -> usize
    requires room { at + length levels.now ≤ length output.old }
    ensures { GotBytes (level_characters levels.now) at result output.old output.new }
{
    let mut end = at;
    for level in levels {
        end = write_byte(level.0.symbol() as u8, output, end);
    }
    end
}

// Writes the letters of a symbol, and a space.
fn write_symbol(
    design: &Design<'_>,
    work: &[Ternary],
    symbol: usize,
    output: &mut [u8],
    at: usize,
) -> usize
    requires row { IsRow (rows_of design.now.rows).symbols symbol }
    requires work { 17472 ≤ length work.now }
    requires room { at + 33 ≤ length output.old }
    ensures { GotBytes (symbol_word (rows_of design.now.rows) (lane ⟦<Ternary as Level>⟧ work.now 0) symbol ++ 32 ∷ []) at result output.old output.new }
{
    let end = write_levels(&work[points_of(design, symbol)], output, at);
    write_byte(b' ', output, end)
}

// Writes the letters of each symbol of a class, with a space behind each.
fn write_class(
    design: &Design<'_>,
    work: &[Ternary],
    class: Class,
    output: &mut [u8],
    at: usize,
) -> usize
    requires work { 17472 ≤ length work.now }
    requires room { at + 33 * length (symbols_of (rows_of design.now.rows) class) ≤ length output.old }
    ensures { GotBytes (spaced_behind (class_words (rows_of design.now.rows) (lane ⟦<Ternary as Level>⟧ work.now 0) class)) at result output.old output.new }
{
    let mut end = at;
    for symbol in 1..design.rows().symbols.len() + 1 {
        if is_of_class(design, symbol, class) {
            end = write_symbol(design, work, symbol, output, end);
        }
    }
    end
}

// Writes the letters of the steps.
fn write_steps(design: &Design<'_>, work: &[Ternary], output: &mut [u8], at: usize) -> usize
    requires work { 17472 ≤ length work.now }
    requires room { at + 64 ≤ length output.old }
    ensures { GotBytes (step_word (rows_of design.now.rows) (lane ⟦<Ternary as Level>⟧ work.now 0)) at result output.old output.new }
{
    let first = design.all_bits();
    write_levels(&work[first..first + design.rows().steps.len()], output, at)
}

/// Prints the letters of memory, buses, outputs and steps, as the working table has them. Answers how many bytes are printed.
pub(crate) fn print_letters(design: &Design<'_>, work: &[Ternary], output: &mut [u8]) -> usize
    requires work { 17472 ≤ length work.now }
    requires room { 4096 ≤ length output.old }
    ensures { Printed (printed_letters (rows_of design.now.rows) (lane ⟦<Ternary as Level>⟧ work.now 0)) result output.old output.new }
{
    let mut end = 0;
    for class in printed_classes() {
        end = write_class(design, work, class, output, end);
    }
    let steps = write_steps(design, work, output, end);
    write_byte(b'\n', output, steps)
}
