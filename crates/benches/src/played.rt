//! Bench lines, played on modules.

use crate::cases::{LENGTH_NAMES, LENGTH_VALUES, LINE_LENGTHS, LONG_OUTPUTS, PACE, Table};
use crate::levels::{Bench, checksum, summed};
use crate::rows::{Place, lent, put};
use control::Rows;
use engine::Engine;
use level::{Letter, Ternary};
use lines::{LineFault, name_line, play_line};
use listing::Kept;
use std::alloc::{AllocError, Global};
use text::Reader;

/// How long an output is.
const OUTPUT: usize = 4096;

/// What every byte of an output is at first.
const BEFORE: u8 = b'#';

/// How many spaces stand behind PACE where a name is made long.
const SPACES: usize = 6000;

/// The tables that lines are played with.
#[derive(Drop)]
struct Desk {
    bench: Bench<Ternary>,
    output: Vec<u8>,
}

impl Desk {
    fn of_lengths(
        heap: Global,
        held: usize,
        work: usize,
        output: usize,
    ) -> Result<Desk, AllocError> {
        Ok(Desk {
            bench: Bench::of_lengths(heap, held, work)?,
            output: vec![in heap; BEFORE; output]?,
        })
    }

    fn new(heap: Global) -> Result<Desk, AllocError> {
        Ok(Desk {
            bench: Bench::new(heap)?,
            output: vec![in heap; BEFORE; OUTPUT]?,
        })
    }

    // The checksums of all three tables.
    fn sums(&self) -> (u64, u64, u64) {
        let mut output = 0;
        for byte in self.output.as_slice() {
            output = summed(output, u64::from(*byte));
        }
        let held = checksum(self.bench.held.as_slice());
        let work = checksum(self.bench.work.as_slice());
        (held, work, output)
    }

    fn name(&mut self, engine: &Engine<'_>, line: &[u8]) -> Result<usize, LineFault> {
        name_line(engine.design(), line, self.output.as_mut_slice())
    }

    fn play(&mut self, engine: &Engine<'_>, line: &[u8]) -> Result<usize, LineFault> {
        play_line(
            engine,
            line,
            self.bench.held.as_mut_slice(),
            self.bench.work.as_mut_slice(),
            self.output.as_mut_slice(),
        )
    }

    // Prints the line that was printed into the output, or why there is none. Answers whether there is one.
    fn show(&self, rt: &HostRuntime, printed: Result<usize, LineFault>) -> anyhow::Result<bool> {
        match printed {
            Ok(count) => {
                let line = self.output.as_slice().get(..count).unwrap_or(&[]);
                print!(rt; "{}", str::from_utf8(line)?)?;
                Ok(true)
            }
            Err(fault) => {
                println!(rt; "{fault}")?;
                Ok(false)
            }
        }
    }

    // Prints how much was printed, and the checksums of the tables; or why nothing was, and whether the tables are as before.
    fn show_sums(
        &self,
        rt: &HostRuntime,
        printed: Result<usize, LineFault>,
        before: (u64, u64, u64),
    ) -> anyhow::Result<()> {
        let (held, work, output) = self.sums();
        match printed {
            Ok(count) => println!(rt; "{count} bytes, held {held}, work {work}, output {output}")?,
            Err(fault) if (held, work, output) == before => println!(rt; "{fault}, all kept")?,
            Err(fault) => println!(rt; "{fault}, tables changed")?,
        }
        Ok(())
    }
}

// Opens with every register at X.
fn open(heap: Global, engine: &Engine<'_>, bench: &mut Bench<Ternary>) -> anyhow::Result<()> {
    let design = engine.design();
    let registers = design.held_bits().saturating_sub(design.input_bits());
    let starts = vec![in heap; Ternary(Letter::Unknown); registers]?;
    engine.open(
        starts.as_slice(),
        bench.held.as_mut_slice(),
        bench.work.as_slice(),
    )?;
    Ok(())
}

// Plays lines up to the first that is refused.
fn play_lines(rt: &HostRuntime, engine: &Engine<'_>, lines: &[u8]) -> anyhow::Result<()> {
    let mut desk = Desk::new(rt.alloc())?;
    open(rt.alloc(), engine, &mut desk.bench)?;
    let mut lines = lines.split_inclusive(|byte| *byte == b'\n');
    let names = lines.next().unwrap_or(&[]);
    let printed = desk.name(engine, names);
    let mut goes_on = desk.show(rt, printed)?;
    for line in lines {
        if goes_on {
            let printed = desk.play(engine, line);
            goes_on = desk.show(rt, printed)?;
        }
    }
    Ok(())
}

/// Plays lines on rows, if these are sound.
pub(crate) fn play_rows(
    rt: &HostRuntime,
    text: &[u8],
    rows: Rows<'_>,
    lines: &[u8],
) -> anyhow::Result<()> {
    match Engine::new(text, rows) {
        Ok(engine) => play_lines(rt, &engine, lines),
        Err(fault) => {
            println!(rt; "{fault}")?;
            Ok(())
        }
    }
}

/// Plays lines on a text, if it is right.
pub(crate) fn play_text(
    rt: &HostRuntime,
    reader: &mut Reader,
    label: &str,
    text: &str,
    lines: &str,
) -> anyhow::Result<()> {
    println!(rt; "{label}:")?;
    let mut kept = Kept::filled(rt.alloc(), 0)?;
    match kept.read(reader, text.as_bytes()) {
        Ok(_) => play_rows(rt, text.as_bytes(), lent(&kept), lines.as_bytes()),
        Err(fault) => {
            println!(rt; "{fault}")?;
            Ok(())
        }
    }
}

// Names lines and value lines with tables of those lengths.
fn show_lengths(
    rt: &HostRuntime,
    engine: &Engine<'_>,
    lengths: (usize, usize, usize),
) -> anyhow::Result<()> {
    let (held, work, output) = lengths;
    println!(rt; "{held} held rows, {work} working rows, {output} bytes of output:")?;
    for &(label, line) in LENGTH_NAMES {
        let mut desk = Desk::of_lengths(rt.alloc(), held, work, output)?;
        let before = desk.sums();
        let printed = desk.name(engine, line.as_bytes());
        print!(rt; "{label}: ")?;
        desk.show_sums(rt, printed, before)?;
    }
    for &(label, line) in LENGTH_VALUES {
        let mut desk = Desk::of_lengths(rt.alloc(), held, work, output)?;
        let before = desk.sums();
        let printed = desk.play(engine, line.as_bytes());
        print!(rt; "{label}: ")?;
        desk.show_sums(rt, printed, before)?;
    }
    Ok(())
}

/// Lines of PACE with short and long tables.
pub(crate) fn show_line_lengths(rt: &HostRuntime, reader: &mut Reader) -> anyhow::Result<()> {
    let mut kept = Kept::filled(rt.alloc(), 0)?;
    kept.read(reader, PACE.as_bytes())?;
    let engine = Engine::new(PACE.as_bytes(), lent(&kept))?;
    for &lengths in LINE_LENGTHS {
        show_lengths(rt, &engine, lengths)?;
    }
    Ok(())
}

// The names line of PACE, where the name of its register is made so long.
fn show_long_name(
    rt: &HostRuntime,
    text: &[u8],
    kept: &mut Kept,
    name: usize,
    output: usize,
) -> anyhow::Result<()> {
    let length = Place {
        table: Table::Symbols,
        row: 5,
        column: 3,
    };
    put(rt.alloc(), kept, length, name)?;
    let engine = Engine::new(text, lent(kept))?;
    let mut desk = Desk::of_lengths(rt.alloc(), 0, 0, output)?;
    let before = desk.sums();
    let printed = desk.name(&engine, b"GO D\n");
    print!(rt; "a name of {name} bytes, {output} bytes of output: ")?;
    desk.show_sums(rt, printed, before)
}

/// Names lines that are longer than those of a text.
pub(crate) fn show_long_names(rt: &HostRuntime, reader: &mut Reader) -> anyhow::Result<()> {
    let mut text = String::from_str(rt.alloc(), PACE)?;
    for _ in 0..SPACES {
        text.push(' ')?;
    }
    let mut kept = Kept::filled(rt.alloc(), 0)?;
    kept.read(reader, text.as_bytes())?;
    for &(name, output) in LONG_OUTPUTS {
        show_long_name(rt, text.as_bytes(), &mut kept, name, output)?;
    }
    Ok(())
}
