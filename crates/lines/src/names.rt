//! The names line.
ghost use Rattle.std.specs.Prelude.{◌≡◌, ◌+◌, ◌<◌, ◌≤◌, ◌↔◌, ℕ, List, [], ◌∷◌, ◌++◌, IfOk, IfErr, IsTrue, MatchOption, map, length, take, drop};
ghost use Rattle.database.specs.Rows.{symbol};
ghost use Rattle.control.specs.Databases.{rows_of};
ghost use Rattle.lines.specs.Cursors.{spaced_behind};
ghost use Rattle.lines.specs.Lines.{upper, names_of, NamesInputs, printed_names, Printed, is_narrow};
ghost use Rattle.lines.specs.NameLines.{names_behind, written_at, GoesOn, printed_classes, steps_end};
ghost use Rattle.lines.specs.Promise.{Named, NameRefused};

use crate::classes::{is_of_class, printed_classes};
use crate::faults::LineFault;
use crate::printing::LEAST_OUTPUT;
use design::Design;
use grammar::Class;

// What ends the printed line.
const STEPS: &[u8] = b"STEPS\n";

// The name of the symbol of that number, as the text has it.
fn name<'a>(design: &Design<'a>, number: usize) -> &'a [u8]
    ensures { result.now ≡ take (symbol (rows_of design.now.rows) number).length (drop (symbol (rows_of design.now.rows) number).place design.now.text.now) }
{
    let symbol = design.rows().symbol(number);
    &design.text()[symbol.place..symbol.place + symbol.length]
}

// The name of the symbol at that index, where it is of the class.
fn name_in<'a>(design: &Design<'a>, class: Class, index: usize) -> Option<&'a [u8]>
    requires { index < length (rows_of design.now.rows).symbols }
    ensures { MatchOption result
        (names_behind design.now.text.now (rows_of design.now.rows) class index ≡ names_behind design.now.text.now (rows_of design.now.rows) class (index + 1))
        (λ name. names_behind design.now.text.now (rows_of design.now.rows) class index ≡ map upper name.now ∷ names_behind design.now.text.now (rows_of design.now.rows) class (index + 1)) }
{
    let number = index + 1;
    if is_of_class(design, number, class) {
        Some(name(design, number))
    } else {
        None
    }
}

// What is left of so much room behind the names of a class, each with a space behind it; nothing, where they do not fit.
fn room_behind(design: &Design<'_>, class: Class, room: usize) -> Option<usize>
    ensures { MatchOption result
        (room < length (spaced_behind (names_of design.now.text.now (rows_of design.now.rows) class)))
        (λ left. left + length (spaced_behind (names_of design.now.text.now (rows_of design.now.rows) class)) ≡ room) }
{
    let mut left = room;
    for index in 0..design.rows().symbols.len() {
        if let Some(name) = name_in(design, class, index) {
            left = left.checked_sub(name.len())?.checked_sub(1)?;
        }
    }
    Some(left)
}

// What is left of so much room behind the printed line; nothing, where it does not fit.
fn room_behind_line(design: &Design<'_>, room: usize) -> Option<usize>
    ensures { MatchOption result
        (room < length (printed_names design.now.text.now (rows_of design.now.rows)))
        (λ left. left + length (printed_names design.now.text.now (rows_of design.now.rows)) ≡ room) }
{
    let mut left = room;
    for class in printed_classes() {
        left = room_behind(design, class, left)?;
    }
    left.checked_sub(STEPS.len())
}

// Whether an output with so much room is too short for a names line.
fn is_narrow(design: &Design<'_>, room: usize) -> bool
    ensures { result ≡ is_narrow (printed_names design.now.text.now (rows_of design.now.rows)) room }
{
    room < LEAST_OUTPUT || room_behind_line(design, room).is_none()
}

// The rest of a line behind a word, both cases alike; nothing, where the line does not begin with the word.
fn behind<'a>(line: &'a [u8], word: &[u8]) -> Option<&'a [u8]>
    ensures { MatchOption result ((rest : List ℕ) → GoesOn line.now word.now rest → ⊥) (λ rest. GoesOn line.now word.now (map upper rest.now)) }
{
    let (front, rest) = line.split_at_checked(word.len())?;
    if front.eq_ignore_ascii_case(word) {
        Some(rest)
    } else {
        None
    }
}

// The rest of a line behind the inputs' names, with a space between; nothing, where it does not begin with them.
fn behind_inputs<'a>(design: &Design<'_>, line: &'a [u8]) -> Option<&'a [u8]>
    ensures { MatchOption result
        (NamesInputs design.now.text.now (rows_of design.now.rows) line.now → ⊥)
        (λ rest. NamesInputs design.now.text.now (rows_of design.now.rows) line.now ↔ (map upper rest.now ≡ 10 ∷ [])) }
{
    let mut rest = line;
    let mut space: &[u8] = b"";
    for index in 0..design.rows().symbols.len() {
        if let Some(name) = name_in(design, Class::Input, index) {
            rest = behind(behind(rest, space)?, name)?;
            space = b" ";
        }
    }
    Some(rest)
}

// Whether a line names the inputs, and nothing else.
#[tactic(auto, using(crate::proofs::NameInputs::line_ends))]
fn names_inputs(design: &Design<'_>, line: &[u8]) -> bool
    ensures { IsTrue result ↔ NamesInputs design.now.text.now (rows_of design.now.rows) line.now }
{
    matches!(behind_inputs(design, line), Some([b'\n']))
}

// Writes bytes in upper case into an output, at a place. Answers the place behind them.
fn put(output: &mut [u8], at: usize, bytes: &[u8]) -> usize
    requires { at + length bytes.now ≤ length output.old }
    ensures written { output.new ≡ written_at output.old at (map upper bytes.now) }
    ensures end { result ≡ at + length bytes.now }
{
    let end = at + bytes.len();
    let part = &mut output[at..end];
    part.copy_from_slice(bytes);
    part.make_ascii_uppercase();
    end
}

// Writes the names of a class, each with a space behind it, into an output, at a place. Answers the place behind them.
fn put_names(design: &Design<'_>, class: Class, output: &mut [u8], at: usize) -> usize
    requires { at + length (spaced_behind (names_of design.now.text.now (rows_of design.now.rows) class)) ≤ length output.old }
    ensures written { output.new ≡ written_at output.old at (spaced_behind (names_of design.now.text.now (rows_of design.now.rows) class)) }
    ensures end { result ≡ at + length (spaced_behind (names_of design.now.text.now (rows_of design.now.rows) class)) }
{
    let mut end = at;
    for index in 0..design.rows().symbols.len() {
        if let Some(name) = name_in(design, class, index) {
            end = put(output, end, name);
            end = put(output, end, b" ");
        }
    }
    end
}

// Writes the word STEPS and the end of the line into an output, at a place. Answers the place behind them.
fn put_steps(output: &mut [u8], at: usize) -> usize
    requires { at + length steps_end ≤ length output.old }
    ensures written { output.new ≡ written_at output.old at steps_end }
    ensures end { result ≡ at + length steps_end }
{
    put(output, at, STEPS)
}

// Writes the printed line into an output. Answers its length.
fn put_line(design: &Design<'_>, output: &mut [u8]) -> usize
    requires { length (printed_names design.now.text.now (rows_of design.now.rows)) ≤ length output.old }
    ensures { Printed (printed_names design.now.text.now (rows_of design.now.rows)) result output.old output.new }
{
    let mut end = 0;
    for class in printed_classes() {
        end = put_names(design, class, output, end);
    }
    put_steps(output, end)
}

/// Compares a names line with the inputs' names, and prints the names of memory, buses and outputs, and STEPS. Answers how many bytes
/// are printed.
pub fn name_line(design: &Design<'_>, line: &[u8], output: &mut [u8]) -> Result<usize, LineFault>
    ensures named { IfOk result (λ n. Named design.now.text.now (rows_of design.now.rows) line.now n output.old output.new) }
    ensures refused { IfErr result (NameRefused design.now.text.now (rows_of design.now.rows) line.now (length output.old)) }
    ensures left { IfErr result (λ _. output.new ≡ output.old) }
{
    if is_narrow(design, output.len()) {
        return Err(LineFault::ShortOutput);
    }
    if !names_inputs(design, line) {
        return Err(LineFault::WrongNames);
    }
    Ok(put_line(design, output))
}
