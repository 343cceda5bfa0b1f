//! Plays a table of module texts, right and against the rules of a module, and prints what comes of each: how many rows of each table
//! are in use, with a checksum over all rows; or how the text is refused, and what the tables then hold.
#![tactic(auto)]

mod builds;
mod texts;

use builds::{items, steps, times};
use database::Counts;
use listing::{Kept, Row};
use std::alloc::{AllocError, Global};
use std::io;
use text::{ReadFault, Reader};
use texts::{
    BEFORE_ACTION, BEFORE_CONNECTIONS, BEFORE_ITEMS, BEFORE_STEPS, BEHIND_ACTION,
    BEHIND_CONNECTIONS, BEHIND_ITEMS, BEHIND_STEPS, BROKEN_RULE, BUS_ORDER, CONNECTIONS, CONSTANTS,
    EVERYTHING, FOUR_CONSTANTS, ITEMS, LIMITS, MANY_ITEMS, MANY_STEPS, NAMES, NO_WORD, OPERANDS,
    PACE, SIDES, STEPS, SUBSCRIPTS, TEXTS,
};

/// What every column of every row holds before a text is read.
const BEFORE: usize = 7;

/// What the checksum goes by.
const FACTOR: usize = 1_000_003;

const MODULUS: usize = 1_000_000_007;

/// One of the six tables.
#[derive(Clone, Copy)]
enum Table {
    Symbols,
    Steps,
    Statements,
    Targets,
    Exits,
    Nodes,
}

/// The tables by their names.
const TABLES: [(&str, Table); 6] = [
    ("symbols", Table::Symbols),
    ("steps", Table::Steps),
    ("statements", Table::Statements),
    ("targets", Table::Targets),
    ("exits", Table::Exits),
    ("nodes", Table::Nodes),
];

/// How long the tables are.
#[derive(Clone, Copy)]
enum Lengths {
    /// Each has its size.
    Right,
    /// One has a row less.
    Short(Table),
    /// Each has twice its size.
    Double,
}

/// What stands before and behind a part of a module.
#[derive(Clone, Copy)]
struct Frame {
    before: &'static str,
    behind: &'static str,
}

const WHOLE: Frame = Frame {
    before: "",
    behind: "",
};

const ITEM_FRAME: Frame = Frame {
    before: BEFORE_ITEMS,
    behind: BEHIND_ITEMS,
};

const ACTION_FRAME: Frame = Frame {
    before: BEFORE_ACTION,
    behind: BEHIND_ACTION,
};

const CONNECTION_FRAME: Frame = Frame {
    before: BEFORE_CONNECTIONS,
    behind: BEHIND_CONNECTIONS,
};

const STEP_FRAME: Frame = Frame {
    before: BEFORE_STEPS,
    behind: BEHIND_STEPS,
};

// Takes the last row from a table.
fn shorten(kept: &mut Kept, table: Table) {
    match table {
        Table::Symbols => drop(kept.symbols.pop()),
        Table::Steps => drop(kept.steps.pop()),
        Table::Statements => drop(kept.statements.pop()),
        Table::Targets => drop(kept.targets.pop()),
        Table::Exits => drop(kept.exits.pop()),
        Table::Nodes => drop(kept.nodes.pop()),
    }
}

// Puts the rows of more tables behind these.
fn lengthen(kept: &mut Kept, mut more: Kept) -> Result<(), AllocError> {
    kept.symbols.append(&mut more.symbols)?;
    kept.steps.append(&mut more.steps)?;
    kept.statements.append(&mut more.statements)?;
    kept.targets.append(&mut more.targets)?;
    kept.exits.append(&mut more.exits)?;
    kept.nodes.append(&mut more.nodes)
}

// Tables of those lengths with that number in every column.
fn filled(heap: Global, lengths: Lengths, number: usize) -> Result<Kept, AllocError> {
    let mut kept = Kept::filled(heap, number)?;
    match lengths {
        Lengths::Right => {}
        Lengths::Short(table) => shorten(&mut kept, table),
        Lengths::Double => lengthen(&mut kept, Kept::filled(heap, number)?)?,
    }
    Ok(kept)
}

// The checksum, gone on with over all columns of these rows.
fn summed<R: Row>(heap: Global, before: usize, rows: &[R]) -> Result<usize, AllocError> {
    let mut sum = before;
    for row in rows {
        for column in row.columns(heap)? {
            sum = sum.wrapping_mul(FACTOR).wrapping_add(column) % MODULUS;
        }
    }
    Ok(sum)
}

// The checksum of all rows, in use or not.
fn checksum(heap: Global, kept: &Kept) -> Result<usize, AllocError> {
    let sum = summed(heap, 0, kept.symbols.as_slice())?;
    let sum = summed(heap, sum, kept.steps.as_slice())?;
    let sum = summed(heap, sum, kept.statements.as_slice())?;
    let sum = summed(heap, sum, kept.targets.as_slice())?;
    let sum = summed(heap, sum, kept.exits.as_slice())?;
    summed(heap, sum, kept.nodes.as_slice())
}

// What came of the rows of a refused text.
fn rows_after(kept: &Kept, zero: &Kept, before: &Kept) -> &'static str {
    if kept == zero {
        "all rows zero"
    } else if kept == before {
        "all rows kept"
    } else {
        "rows changed"
    }
}

/// Plays texts to one reader, and prints what comes of them.
#[derive(Drop)]
struct Player<'a> {
    rt: &'a HostRuntime,
    reader: Reader,
}

impl<'a> Player<'a> {
    fn show_read(&self, label: &str, kept: &Kept, counts: Counts) -> anyhow::Result<()> {
        let sum = checksum(self.rt.alloc(), kept)?;
        let Counts {
            symbols,
            steps,
            statements,
            targets,
            exits,
            nodes,
        } = counts;
        println!(self.rt;
            "{label}: read {symbols} {steps} {statements} {targets} {exits} {nodes}, checksum {sum}"
        )?;
        Ok(())
    }

    // Prints what comes of a text with tables of those lengths.
    fn play_into(&mut self, lengths: Lengths, label: &str, text: &[u8]) -> anyhow::Result<()> {
        let zero = filled(self.rt.alloc(), lengths, 0)?;
        let before = filled(self.rt.alloc(), lengths, BEFORE)?;
        let mut kept = filled(self.rt.alloc(), lengths, BEFORE)?;
        match kept.read(&mut self.reader, text) {
            Ok(counts) => self.show_read(label, &kept, counts),
            Err(fault) => {
                let rows = rows_after(&kept, &zero, &before);
                println!(self.rt; "{label}: {fault}, {rows}")?;
                Ok(())
            }
        }
    }

    fn play(&mut self, label: &str, text: &[u8]) -> anyhow::Result<()> {
        self.play_into(Lengths::Right, label, text)
    }

    // The rows of a text.
    fn show_rows(&mut self, label: &str, text: &str) -> anyhow::Result<()> {
        let mut kept = Kept::filled(self.rt.alloc(), BEFORE)?;
        let counts = kept.read(&mut self.reader, text.as_bytes())?;
        println!(self.rt; "{label}:")?;
        kept.show(self.rt, counts)?;
        Ok(())
    }

    // A part of a module in its frame.
    fn play_part(&mut self, frame: Frame, label: &str, part: &str) -> anyhow::Result<()> {
        let Frame { before, behind } = frame;
        let text = format!(in self.rt.alloc(); "{before}{part}{behind}")?;
        self.play(label, text.as_bytes())
    }

    fn play_parts(&mut self, frame: Frame, parts: &[(&str, &str)]) -> anyhow::Result<()> {
        for &(label, part) in parts {
            self.play_part(frame, label, part)?;
        }
        Ok(())
    }

    fn play_many_items(&mut self) -> anyhow::Result<()> {
        for &(label, count, subscript, behind) in MANY_ITEMS {
            let first = items(self.rt.alloc(), count, subscript)?;
            let part = format!(in self.rt.alloc(); "BUSES:{first}{behind}.")?;
            self.play_part(ITEM_FRAME, label, part.as_str())?;
        }
        Ok(())
    }

    fn play_many_steps(&mut self) -> anyhow::Result<()> {
        for &(label, count, behind) in MANY_STEPS {
            let first = steps(self.rt.alloc(), count)?;
            let part = format!(in self.rt.alloc(); "{first}{behind}")?;
            self.play_part(STEP_FRAME, label, part.as_str())?;
        }
        Ok(())
    }

    fn play_limits(&mut self) -> anyhow::Result<()> {
        for &(label, before, repeated, count, behind) in LIMITS {
            let middle = times(self.rt.alloc(), repeated, count)?;
            let part = format!(in self.rt.alloc(); "{before}{middle}{behind}")?;
            self.play_part(STEP_FRAME, label, part.as_str())?;
        }
        Ok(())
    }

    // PACE with so many bytes.
    fn play_padded(&mut self, bytes: usize) -> anyhow::Result<()> {
        let gap = times(self.rt.alloc(), " ", bytes.saturating_sub(PACE.len()))?;
        let text = format!(in self.rt.alloc(); "{PACE}{gap}")?;
        let label = format!(in self.rt.alloc(); "{bytes} bytes")?;
        self.play(label.as_str(), text.as_bytes())
    }

    // A right text and a wrong one, each with every table in turn one row short.
    fn play_short_tables(&mut self) -> anyhow::Result<()> {
        for (name, table) in TABLES {
            let short = Lengths::Short(table);
            let label = format!(in self.rt.alloc(); "a short table of {name}")?;
            self.play_into(short, label.as_str(), PACE.as_bytes())?;
            self.play_into(short, label.as_str(), NO_WORD.as_bytes())?;
        }
        Ok(())
    }

    // Texts with longer tables than are needed.
    fn play_long_tables(&mut self) -> anyhow::Result<()> {
        self.play_into(Lengths::Double, "long tables", PACE.as_bytes())?;
        self.play_into(Lengths::Double, "long tables, no word", NO_WORD.as_bytes())?;
        self.play_into(
            Lengths::Double,
            "long tables, a rule broken",
            BROKEN_RULE.as_bytes(),
        )
    }

    fn play_all_parts(&mut self) -> anyhow::Result<()> {
        self.play_parts(WHOLE, TEXTS)?;
        self.play_parts(ITEM_FRAME, ITEMS)?;
        self.play_parts(ACTION_FRAME, CONSTANTS)?;
        self.play_parts(ACTION_FRAME, NAMES)?;
        self.play_parts(ACTION_FRAME, SUBSCRIPTS)?;
        self.play_parts(ACTION_FRAME, OPERANDS)?;
        self.play_parts(ACTION_FRAME, SIDES)?;
        self.play_parts(ACTION_FRAME, BUS_ORDER)?;
        self.play_parts(CONNECTION_FRAME, CONNECTIONS)?;
        self.play_parts(STEP_FRAME, STEPS)
    }

    fn play_sizes(&mut self) -> anyhow::Result<()> {
        self.play_many_items()?;
        self.play_many_steps()?;
        self.play_limits()?;
        self.play_padded(16_384)?;
        self.play_padded(16_385)?;
        self.play_short_tables()?;
        self.play_long_tables()
    }

    fn show_listings(&mut self) -> anyhow::Result<()> {
        self.show_rows("PACE", PACE)?;
        self.show_rows("constants", FOUR_CONSTANTS)?;
        self.show_rows("everything", EVERYTHING)
    }
}

fn main(rt: HostRuntime) -> anyhow::Result<()> {
    let mut player = Player {
        rt: &rt,
        reader: Reader::new(rt.alloc())?,
    };
    player.show_listings()?;
    player.play_all_parts()?;
    player.play_sizes()
}
