//! A reader of module texts into tables.
ghost use Rattle.std.specs.Prelude.{◌≡◌, IfOk, IfErr};
ghost use Rattle.drafts.specs.Parsed.{longest_text};
ghost use Rattle.rules.specs.Room.{MeasuresReserved};
ghost use Rattle.database.specs.Tables.{table_lists, SameTables, is_short};
ghost use Rattle.text.specs.declared.faults.ReadFault.TheVariants.{OutOfMemory};
ghost use Rattle.text.specs.Promise.{Reads, Refused, Leaves};

use crate::faults::ReadFault;
use database::{Counts, Tables};
use drafts::LONGEST_TEXT;
use rules::{Measures, judge};
use std::alloc::Global;

/// A reader of module texts. It has its memory, for the longest text that there may be, from the time when it is made, so that
/// reading never wants any.
#[derive(Drop)]
pub struct Reader {
    drafts: drafts::Reader,
    measures: Measures,
    ghost room: { MeasuresReserved longest_text measures },
}

impl Reader {
    /// A reader, unless there is no memory for it.
    pub fn new(heap: Global) -> Result<Reader, ReadFault>
        ensures { IfErr result (λ fault. fault ≡ OutOfMemory) }
    {
        let drafts = drafts::Reader::new(heap)?;
        let measures = Measures::with_capacity(heap, LONGEST_TEXT)?;
        Ok(Reader { drafts, measures })
    }

    /// Writes the database that a module text says into the tables, and answers how many rows of each are in use; or answers why the
    /// text is refused, and where. A module that breaks a rule leaves all rows zero, and any other refusal the tables as they were. The
    /// text is only looked at.
    #[tactic(auto, using(crate::proofs::Reading::breaks))]
    pub fn read(&mut self, text: &[u8], tables: &mut Tables<'_>) -> Result<Counts, ReadFault>
        ensures accepted { IfOk result (λ counts. Reads text.now counts (table_lists tables.old) (table_lists tables.new)) }
        ensures refused { IfErr result (Refused (is_short (table_lists tables.old)) text.now) }
        ensures left { IfErr result (λ fault. Leaves fault (table_lists tables.old) (table_lists tables.new)) }
        ensures same { SameTables tables.old tables.new }
    {
        if tables.is_short() {
            return Err(ReadFault::ShortTable);
        }
        let draft = self.drafts.read(text)?;
        match judge(text, &draft, &mut self.measures)? {
            Some(fault) => {
                tables.zero();
                Err(ReadFault::Rule(fault))
            }
            None => Ok(tables.fill(text, &draft, &self.measures)),
        }
    }
}
