//! A line of a text, and what points at a place in it.
ghost use Rattle.std.specs.Prelude.{◌≡◌, ◌≤◌, length, IfOk, string_bytes};
ghost use Rattle.explain.specs.Spots.{shown, below, part, line_bytes, caret_bytes};

use crate::spot::Spot;
use std::alloc::{AllocError, Global};

// A byte as it is shown: each in one column.
fn shown(byte: u8) -> char
    ensures { result ≡ shown byte }
{
    match byte {
        b'\t' | b' '..=b'~' => char::from(byte),
        _ => '?',
    }
}

// What stands below a byte. A tab below a tab keeps what follows in its column.
fn below(byte: u8) -> char
    ensures { result ≡ below byte }
{
    match byte {
        b'\t' => '\t',
        _ => ' ',
    }
}

/// The line of a place, as it is shown. A byte that is no character to print is a question mark.
pub fn line_shown(heap: Global, text: &[u8], spot: Spot) -> Result<String, AllocError>
    ensures { spot.start ≤ spot.end → spot.end ≤ length text.now → IfOk result (λ s. string_bytes s ≡ line_bytes text.now spot) }
{
    let mut line = String::new(heap);
    for byte in text.get(spot.start..spot.end).unwrap_or_default() {
        line.push(shown(*byte))?;
    }
    Ok(line)
}

/// What stands below that line: a caret under the place.
pub fn caret_below(heap: Global, text: &[u8], spot: Spot) -> Result<String, AllocError>
    ensures { spot.start ≤ spot.place → spot.place ≤ length text.now → IfOk result (λ s. string_bytes s ≡ caret_bytes text.now spot) }
{
    let mut line = String::new(heap);
    for byte in text.get(spot.start..spot.place).unwrap_or_default() {
        line.push(below(*byte))?;
    }
    line.push('^')?;
    Ok(line)
}
