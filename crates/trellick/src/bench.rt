//! Bench lines, played and printed.
ghost use Rattle.std.specs.Prelude.{◌<◌, ◌≤◌, length};

use crate::telling::tell_line;
use engine::{Engine, HELD_ROWS, WORKING_ROWS};
use fault::Fault;
use level::{Letter, Ternary};
use lines::{LEAST_OUTPUT, LineFault, name_line, play_line};
use std::io;
use std::io::{BufWriter, Write};
use std::process::ExitCode;

/// What is not known yet.
const UNKNOWN: Ternary = Ternary(Letter::Unknown);

// Where the line ends that begins at a place, behind the byte that ends it.
fn line_end(text: &[u8], place: usize) -> usize
    requires { place ≤ length text.now }
    ensures within { result ≤ length text.now }
    ensures further { place < length text.now → place < result }
{
    for at in place..text.len() {
        if text[at] == b'\n' {
            return at + 1;
        }
    }
    text.len()
}

// Prints what a line printed, or why it was refused.
fn print_line(
    printer: &mut impl Write,
    output: &[u8],
    played: Result<usize, LineFault>,
) -> io::Result<()> {
    match played {
        Ok(count) => printer.write_all(output.get(..count).unwrap_or_default()),
        Err(fault) => writeln!(printer, "{fault}"),
    }
}

/// Plays the lines of a text, all registers opened at X, and prints what comes of them.
pub(crate) fn play_lines(
    rt: &HostRuntime,
    engine: &Engine<'_>,
    path: &str,
    text: &[u8],
) -> anyhow::Result<ExitCode> {
    let mut held = vec![in rt.alloc(); UNKNOWN; HELD_ROWS]?;
    let mut work = vec![in rt.alloc(); UNKNOWN; WORKING_ROWS]?;
    let mut output = vec![in rt.alloc(); 0; LEAST_OUTPUT]?;
    let registers = vec![in rt.alloc(); UNKNOWN; engine.design().register_bits()]?;
    engine.open(registers.as_slice(), held.as_mut_slice(), work.as_slice())?;
    let mut printer = BufWriter::new(rt.alloc(), io::writer(rt))?;
    let mut place = 0;
    let mut end = line_end(text, place);
    let mut played = name_line(engine.design(), &text[..end], output.as_mut_slice());
    print_line(&mut printer, output.as_slice(), played)?;
    while played.is_ok() && end < text.len() {
        place = end;
        end = line_end(text, place);
        played = play_line(
            engine,
            &text[place..end],
            held.as_mut_slice(),
            work.as_mut_slice(),
            output.as_mut_slice(),
        );
        print_line(&mut printer, output.as_slice(), played)?;
    }
    printer.flush()?;
    match played {
        Ok(_) => Ok(ExitCode::SUCCESS),
        Err(fault) => {
            tell_line(rt, path, text, place, fault.refusal())?;
            Ok(ExitCode::FAILURE)
        }
    }
}
