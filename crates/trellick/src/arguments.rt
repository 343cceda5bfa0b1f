//! What the program is asked for.
use std::env::Env;
use std::{env, io};

/// What `--help` prints.
pub(crate) const HELP: &str = "\
Usage: trellick [FOLDER]

Plays a module on a bench, clock by clock, in letters 0, 1 and X (unknown).

Reads two files in the folder that it is run in, or in FOLDER:
  module.ahpl   a module text in AHPL
  lines.txt     a line of the names of the module's inputs, then lines of their
                values: a letter 0, 1 or X a bit, one space between inputs.
                A line feed ends each line.

Prints the names of memory, buses and outputs and the word STEPS; then, for each
line of values, the letters that these have with those inputs. Then there is a
clock. All registers are X at first.

A text or a line that is refused ends the program, with status 1. It prints
  REFUSED number place layer
and says on the error stream what is wrong, and where.";

/// What the program is asked for.
pub(crate) enum Asked {
    /// Its help.
    Help,
    /// To play the module of a folder.
    Play(String),
    /// What it cannot do.
    Unknown,
}

/// What the arguments ask for.
pub(crate) fn read_arguments(rt: &(impl Env + AllocGlobal)) -> io::Result<Asked> {
    let mut arguments = env::args(rt)?.skip(1);
    let first = match arguments.next() {
        None => return Ok(Asked::Play(String::from_str(rt.alloc(), ".")?)),
        Some(first) => first,
    };
    if arguments.next().is_some() {
        return Ok(Asked::Unknown);
    }
    match first.as_str() {
        "--help" | "-h" => Ok(Asked::Help),
        option if option.starts_with("-") => Ok(Asked::Unknown),
        _ => Ok(Asked::Play(first)),
    }
}
