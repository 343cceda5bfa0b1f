//! A reader of module texts.
ghost use Rattle.std.specs.Prelude.{◌≡◌, IfOk, IfErr};
ghost use Rattle.grammar.specs.Drafts.{draft_lists};
ghost use Rattle.grammar.specs.Room.{Reserved, RowsReserved};
ghost use Rattle.drafts.specs.declared.faults.DraftFault.TheVariants.{OutOfMemory};
ghost use Rattle.drafts.specs.Parsed.{longest_text, Drafted, Undrafted, FewRows};

use crate::faults::DraftFault;
use crate::{LONGEST_TEXT, read_text};
use grammar::{Draft, Rows};
use std::alloc::Global;
use words::Token;

/// A reader of module texts. It has its memory, for the longest text that there may be, from the time when it is made, so that
/// reading never wants any.
#[derive(Drop)]
pub struct Reader {
    tokens: Vec<Token>,
    rows: Rows,
    ghost words: { Reserved longest_text tokens },
    ghost tables: { RowsReserved longest_text rows },
}

impl Reader {
    /// A reader, unless there is no memory for it.
    pub fn new(heap: Global) -> Result<Reader, DraftFault>
        ensures { IfErr result (λ fault. fault ≡ OutOfMemory) }
    {
        let tokens = Vec::with_capacity(heap, LONGEST_TEXT)?;
        let rows = Rows::with_capacity(heap, LONGEST_TEXT)?;
        Ok(Reader { tokens, rows })
    }

    /// What a module text says; or why the text is refused, and where. The text is only looked at.
    pub fn read(&mut self, text: &[u8]) -> Result<Draft<'_>, DraftFault>
        ensures accepted { IfOk result (λ draft. Drafted text.now (draft_lists draft)) }
        ensures refused { IfErr result (Undrafted text.now) }
        ensures few { IfOk result (λ draft. FewRows longest_text (draft_lists draft)) }
    {
        let heading = read_text(text, &mut self.tokens, &mut self.rows)?;
        Ok(self.rows.draft(heading))
    }
}
