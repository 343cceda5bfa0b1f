//! Plays tables of modules on the step engine, and prints what comes of each: bench lines, lists of calls in three kinds of level, and
//! rows that are damaged.
#![tactic(auto)]

mod builds;
mod cases;
mod damages;
mod levels;
mod played;
mod rows;
mod runs;

use builds::built;
use cases::{
    BIT_RUNS, BUILT, EMPTY_LINES, LETTER_RUNS, NAMES_LINES, NO_INPUTS, PACE, PLAYED, VALUE_LINES,
    WORD_RUNS,
};
use damages::{play_changed, show_damages, show_short_text};
use level::{Bit, Ternary, Word};
use played::{play_text, show_line_lengths, show_long_names};
use runs::{show_call_lengths, show_lanes, show_run};
use text::Reader;

// Modules and their lines.
fn play_modules(rt: &HostRuntime, reader: &mut Reader) -> anyhow::Result<()> {
    for &(label, module, lines) in PLAYED {
        play_text(rt, reader, label, module, lines)?;
    }
    for &(label, module, lines) in BUILT {
        let module = built(rt.alloc(), module)?;
        let lines = built(rt.alloc(), lines)?;
        play_text(rt, reader, label, module.as_str(), lines.as_str())?;
    }
    Ok(())
}

// Lines that are right or wrong, of modules that are right.
fn play_wrong_lines(rt: &HostRuntime, reader: &mut Reader) -> anyhow::Result<()> {
    for &(label, lines) in NAMES_LINES {
        play_text(rt, reader, label, PACE, lines)?;
    }
    for &(label, values) in VALUE_LINES {
        let lines = format!(in rt.alloc(); "GO D\n{values}")?;
        play_text(rt, reader, label, PACE, lines.as_str())?;
    }
    for &(label, lines) in EMPTY_LINES {
        play_text(rt, reader, label, NO_INPUTS, lines)?;
    }
    Ok(())
}

// Lists of calls in each kind of level.
fn show_runs(rt: &HostRuntime, reader: &mut Reader) -> anyhow::Result<()> {
    for &run in BIT_RUNS {
        show_run::<Bit>(rt, reader, run)?;
    }
    for &run in WORD_RUNS {
        show_run::<Word>(rt, reader, run)?;
    }
    for &run in LETTER_RUNS {
        show_run::<Ternary>(rt, reader, run)?;
    }
    Ok(())
}

fn main(rt: HostRuntime) -> anyhow::Result<()> {
    let mut reader = Reader::new(rt.alloc())?;
    play_modules(&rt, &mut reader)?;
    play_wrong_lines(&rt, &mut reader)?;
    show_line_lengths(&rt, &mut reader)?;
    show_long_names(&rt, &mut reader)?;
    show_lanes::<Bit>(&rt, 1)?;
    show_lanes::<Word>(&rt, 6)?;
    show_lanes::<Ternary>(&rt, 2)?;
    show_runs(&rt, &mut reader)?;
    show_call_lengths::<Bit>(&rt, &mut reader)?;
    show_call_lengths::<Word>(&rt, &mut reader)?;
    show_call_lengths::<Ternary>(&rt, &mut reader)?;
    play_changed(&rt, &mut reader)?;
    show_short_text(&rt, &mut reader)?;
    show_damages(&rt, &mut reader)
}
