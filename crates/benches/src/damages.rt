//! Rows that are damaged: which are taken, and what is then played.

use crate::cases::{CHANGED, DAMAGED, PACE, Table};
use crate::levels::{Bench, Numbered, summed};
use crate::played::play_rows;
use crate::rows::{Place, cut, lengthen, lent, put, swap};
use control::Rows;
use database::Counts;
use engine::Engine;
use level::Ternary;
use listing::Kept;
use text::Reader;

/// The tables, how they are named, and how many columns a row of each has.
const TABLES: [(Table, &str, usize); 6] = [
    (Table::Symbols, "symbols", 4),
    (Table::Steps, "steps", 3),
    (Table::Statements, "statements", 4),
    (Table::Targets, "targets", 4),
    (Table::Exits, "exits", 2),
    (Table::Nodes, "nodes", 8),
];

/// How many clocks there are in a run on damaged rows.
const CLOCKS: u64 = 3;

/// The numbers below this one are put into two columns together.
const PAIRED: usize = 4;

// How many rows of a table are in use.
fn count_of(counts: Counts, table: Table) -> usize {
    match table {
        Table::Symbols => counts.symbols,
        Table::Steps => counts.steps,
        Table::Statements => counts.statements,
        Table::Targets => counts.targets,
        Table::Exits => counts.exits,
        Table::Nodes => counts.nodes,
    }
}

// A checksum, gone on with over the first levels.
fn summed_over(before: u64, levels: &[Ternary], count: usize) -> u64 {
    let mut sum = before;
    for level in levels.iter().take(count) {
        sum = summed(sum, level.number());
    }
    sum
}

/// Where databases are tested, and what has come of it since it began to count.
#[derive(Drop)]
struct Tests<'a> {
    rt: &'a HostRuntime,
    text: &'a [u8],
    bench: Bench<Ternary>,
    taken: usize,
    sum: u64,
}

impl<'a> Tests<'a> {
    fn new(rt: &'a HostRuntime, text: &'a [u8]) -> anyhow::Result<Tests<'a>> {
        Ok(Tests {
            rt,
            text,
            bench: Bench::new(rt.alloc())?,
            taken: 0,
            sum: 0,
        })
    }

    // Opens with levels that differ, and drives all inputs before each clock. Answers a checksum of all points and of what is held.
    fn run(&mut self, engine: &Engine<'_>) -> anyhow::Result<u64> {
        let design = engine.design();
        let mut starts = Vec::new(self.rt.alloc());
        for number in design.input_bits()..design.held_bits() {
            starts.push(Ternary::of(number as u64))?;
        }
        let held = self.bench.held.as_mut_slice();
        let work = self.bench.work.as_mut_slice();
        engine.open(starts.as_slice(), held, work)?;
        let steps = design.rows().steps.len();
        let mut sum = 0;
        for clock in 0..CLOCKS {
            for input in 0..design.input_bits() {
                let number = clock.wrapping_add(input as u64);
                engine.drive(input, Ternary::of(number), held, work)?;
            }
            engine.clock(held, work)?;
            sum = summed_over(sum, work, design.all_bits().saturating_add(steps));
            sum = summed_over(sum, held, design.held_bits().saturating_add(steps));
        }
        Ok(sum)
    }

    // Plays rows, if they are taken. Answers a sign for whether they are.
    fn test(&mut self, rows: Rows<'_>) -> anyhow::Result<char> {
        let Ok(engine) = Engine::new(self.text, rows) else {
            return Ok('-');
        };
        let played = self.run(&engine)?;
        self.taken = self.taken.saturating_add(1);
        self.sum = summed(self.sum, played);
        Ok('+')
    }

    // Prints how many were taken and what was played, and begins to count anew.
    fn show(&mut self) -> anyhow::Result<()> {
        let Tests { taken, sum, .. } = *self;
        println!(self.rt; " {taken} taken, checksum {sum}")?;
        self.taken = 0;
        self.sum = 0;
        Ok(())
    }

    // Puts four numbers into a place, one after the other, and prints which are taken.
    fn damage_place(&mut self, kept: &mut Kept, place: Place) -> anyhow::Result<()> {
        let heap = self.rt.alloc();
        let before = put(heap, kept, place, 0)?;
        for number in [0, 1, before.wrapping_add(1), usize::MAX] {
            put(heap, kept, place, number)?;
            let sign = self.test(lent(kept))?;
            print!(self.rt; "{sign}")?;
        }
        put(heap, kept, place, before)?;
        Ok(())
    }

    // Puts small numbers into two places.
    fn damage_pair(&mut self, kept: &mut Kept, one: Place, two: Place) -> anyhow::Result<()> {
        let heap = self.rt.alloc();
        let before_one = put(heap, kept, one, 0)?;
        let before_two = put(heap, kept, two, 0)?;
        for number_one in 0..PAIRED {
            for number_two in 0..PAIRED {
                put(heap, kept, one, number_one)?;
                put(heap, kept, two, number_two)?;
                self.test(lent(kept))?;
            }
        }
        put(heap, kept, two, before_two)?;
        put(heap, kept, one, before_one)?;
        Ok(())
    }

    // Damages a row, column by column and then two columns together.
    fn damage_row(
        &mut self,
        kept: &mut Kept,
        table: Table,
        row: usize,
        columns: usize,
    ) -> anyhow::Result<()> {
        for column in 0..columns {
            print!(self.rt; " ")?;
            self.damage_place(kept, Place { table, row, column })?;
        }
        self.show()?;
        for column in 0..columns {
            for other in 0..column {
                let one = Place { table, row, column };
                let two = Place {
                    table,
                    row,
                    column: other,
                };
                self.damage_pair(kept, one, two)?;
            }
        }
        print!(self.rt; "by pairs:")?;
        self.show()
    }

    // Damages all rows in use and the two behind them, changes neighbours, and leaves rows out.
    fn damage_table(
        &mut self,
        kept: &mut Kept,
        table: Table,
        name: &str,
        columns: usize,
        count: usize,
    ) -> anyhow::Result<()> {
        for before in 0..count.saturating_add(2) {
            let row = before.saturating_add(1);
            print!(self.rt; "{name} {row}:")?;
            self.damage_row(kept, table, row, columns)?;
        }
        print!(self.rt; "{name}, neighbours changed: ")?;
        for row in 0..count {
            swap(kept, table, row);
            let sign = self.test(lent(kept))?;
            print!(self.rt; "{sign}")?;
            swap(kept, table, row);
        }
        self.show()?;
        print!(self.rt; "{name}, the first rows alone: ")?;
        for rows in 0..count.saturating_add(2) {
            let sign = self.test(cut(lent(kept), table, rows))?;
            print!(self.rt; "{sign}")?;
        }
        self.show()
    }
}

/// Damages the rows of modules, and prints which are taken and what is then played.
pub(crate) fn show_damages(rt: &HostRuntime, reader: &mut Reader) -> anyhow::Result<()> {
    for &(label, module) in DAMAGED {
        println!(rt; "{label}, damaged:")?;
        let mut kept = Kept::filled(rt.alloc(), 0)?;
        let counts = kept.read(reader, module.as_bytes())?;
        let mut tests = Tests::new(rt, module.as_bytes())?;
        for (table, name, columns) in TABLES {
            tests.damage_table(&mut kept, table, name, columns, count_of(counts, table))?;
        }
    }
    Ok(())
}

/// Takes the rows of PACE with the first bytes of its text alone, and in tables of twice their sizes.
pub(crate) fn show_short_text(rt: &HostRuntime, reader: &mut Reader) -> anyhow::Result<()> {
    let mut kept = Kept::filled(rt.alloc(), 0)?;
    kept.read(reader, PACE.as_bytes())?;
    print!(rt; "the first bytes of a text: ")?;
    for bytes in 0..PACE.len() {
        let text = PACE.as_bytes().get(..bytes).unwrap_or(&[]);
        let sign = Tests::new(rt, text)?.test(lent(&kept))?;
        print!(rt; "{sign}")?;
    }
    println!(rt; "")?;
    lengthen(rt.alloc(), &mut kept)?;
    let mut tests = Tests::new(rt, PACE.as_bytes())?;
    print!(rt; "longer tables: {}", tests.test(lent(&kept))?)?;
    tests.show()?;
    for (table, name, _) in TABLES {
        let last = Place {
            table,
            row: 100,
            column: 0,
        };
        put(rt.alloc(), &mut kept, last, 1)?;
        print!(rt; "a hundredth row of {name}: {}", tests.test(lent(&kept))?)?;
        tests.show()?;
        put(rt.alloc(), &mut kept, last, 0)?;
    }
    Ok(())
}

/// Plays lines on rows that were changed.
pub(crate) fn play_changed(rt: &HostRuntime, reader: &mut Reader) -> anyhow::Result<()> {
    for &(label, module, changes, lines) in CHANGED {
        println!(rt; "{label}:")?;
        let mut kept = Kept::filled(rt.alloc(), 0)?;
        kept.read(reader, module.as_bytes())?;
        for &(table, row, column, number) in changes {
            put(rt.alloc(), &mut kept, Place { table, row, column }, number)?;
        }
        play_rows(rt, module.as_bytes(), lent(&kept), lines.as_bytes())?;
    }
    Ok(())
}
