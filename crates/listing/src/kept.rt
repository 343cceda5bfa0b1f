//! Six tables of a program's own.

ghost use Rattle.std.specs.Prelude.{IfOk, IfErr};
ghost use Rattle.database.specs.Tables.{is_short};
ghost use Rattle.text.specs.Promise.{Reads, Refused, Leaves};
ghost use Rattle.listing.specs.Kept.{six_lists, kept_lists, HoldsAlone};

use crate::rows::show_rows;
use database::{
    Counts, EXITS, ExitRow, NODES, NodeRow, STATEMENTS, STEPS, SYMBOLS, StatementRow, StepRow,
    SymbolRow, TARGETS, Tables, TargetRow,
};
use std::alloc::{AllocError, Global};
use std::io;
use text::{ReadFault, Reader};

/// Six tables of a program's own, each of its size.
#[derive(PartialEq, Drop)]
pub struct Kept {
    pub symbols: Vec<SymbolRow>,
    pub steps: Vec<StepRow>,
    pub statements: Vec<StatementRow>,
    pub targets: Vec<TargetRow>,
    pub exits: Vec<ExitRow>,
    pub nodes: Vec<NodeRow>,
}

// Reads a text into these tables.
fn read_into(
    reader: &mut Reader,
    text: &[u8],
    symbols: &mut [SymbolRow],
    steps: &mut [StepRow],
    statements: &mut [StatementRow],
    targets: &mut [TargetRow],
    exits: &mut [ExitRow],
    nodes: &mut [NodeRow],
) -> Result<Counts, ReadFault>
    ensures accepted { IfOk result (λ counts. Reads text.now counts (six_lists symbols.old steps.old statements.old targets.old exits.old nodes.old) (six_lists symbols.new steps.new statements.new targets.new exits.new nodes.new)) }
    ensures refused { IfErr result (Refused (is_short (six_lists symbols.old steps.old statements.old targets.old exits.old nodes.old)) text.now) }
    ensures left { IfErr result (λ fault. Leaves fault (six_lists symbols.old steps.old statements.old targets.old exits.old nodes.old) (six_lists symbols.new steps.new statements.new targets.new exits.new nodes.new)) }
{
    let mut tables = Tables {
        symbols,
        steps,
        statements,
        targets,
        exits,
        nodes,
    };
    reader.read(text, &mut tables)
}

impl Kept {
    /// Tables with that number in every column of every row.
    pub fn filled(heap: Global, number: usize) -> Result<Kept, AllocError>
        ensures { IfOk result (HoldsAlone number) }
    {
        let n = number;
        Ok(Kept {
            symbols: vec![in heap; SymbolRow {
                class: n,
                width: n,
                place: n,
                length: n
            }; SYMBOLS]?,
            steps: vec![in heap; StepRow {
                kind: n,
                condition: n,
                reset: n
            }; STEPS]?,
            statements: vec![in heap; StatementRow {
                step: n,
                kind: n,
                condition: n,
                value: n
            }; STATEMENTS]?,
            targets: vec![in heap; TargetRow {
                statement: n,
                symbol: n,
                first: n,
                last: n
            }; TARGETS]?,
            exits: vec![in heap; ExitRow {
                left: n,
                entered: n
            }; EXITS]?,
            nodes: vec![in heap; NodeRow {
                sign: n,
                symbol: n,
                first: n,
                last: n,
                left: n,
                right: n,
                width: n,
                value: n
            }; NODES]?,
        })
    }

    /// Reads a text into the tables.
    pub fn read(&mut self, reader: &mut Reader, text: &[u8]) -> Result<Counts, ReadFault>
        ensures accepted { IfOk result (λ counts. Reads text.now counts (kept_lists self.old) (kept_lists self.new)) }
        ensures refused { IfErr result (Refused (is_short (kept_lists self.old)) text.now) }
        ensures left { IfErr result (λ fault. Leaves fault (kept_lists self.old) (kept_lists self.new)) }
    {
        read_into(
            reader,
            text,
            self.symbols.as_mut_slice(),
            self.steps.as_mut_slice(),
            self.statements.as_mut_slice(),
            self.targets.as_mut_slice(),
            self.exits.as_mut_slice(),
            self.nodes.as_mut_slice(),
        )
    }

    /// Prints the rows in use, table by table.
    pub fn show(&self, rt: &(impl Print + AllocGlobal), counts: Counts) -> io::Result<()> {
        show_rows(rt, self.symbols.as_slice(), counts.symbols)?;
        show_rows(rt, self.steps.as_slice(), counts.steps)?;
        show_rows(rt, self.statements.as_slice(), counts.statements)?;
        show_rows(rt, self.targets.as_slice(), counts.targets)?;
        show_rows(rt, self.exits.as_slice(), counts.exits)?;
        show_rows(rt, self.nodes.as_slice(), counts.nodes)
    }
}
