//! Refusals, told on the error stream.
use explain::{Spot, caret_below, line_shown, sentence};
use fault::{Layer, Refusal};
use std::io;

/// Tells why a module text is refused: line and column, in words, and the line with a caret below the place.
pub(crate) fn tell_text(
    rt: &HostRuntime,
    path: &str,
    text: &[u8],
    refusal: Refusal,
) -> io::Result<()> {
    let Refusal { number, place, .. } = refusal;
    let why = sentence(number);
    // A short table, a text that is too long and a want of memory have no place.
    if number < 3 {
        return eprintln!(rt; "{path}: {why}");
    }
    let spot = Spot::of(text, place);
    let (line, column) = (spot.line, spot.column);
    eprintln!(rt; "{path}:{line}:{column}: {why}")?;
    rt.eprintln(line_shown(rt.alloc(), text, spot)?)?;
    rt.eprintln(caret_below(rt.alloc(), text, spot)?)
}

/// Tells why a bench line is refused: its number, in words, and the line.
pub(crate) fn tell_line(
    rt: &HostRuntime,
    path: &str,
    text: &[u8],
    place: usize,
    refusal: Refusal,
) -> io::Result<()> {
    let spot = Spot::of(text, place);
    let (line, why) = (spot.line, sentence(refusal.number));
    eprintln!(rt; "{path}:{line}: {why}")?;
    rt.eprintln(line_shown(rt.alloc(), text, spot)?)
}
