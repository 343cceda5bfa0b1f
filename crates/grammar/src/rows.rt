//! Tables of rows, with their memory.
ghost use Rattle.std.specs.Prelude.{◌≡◌, ℕ, IfOk};
ghost use Rattle.grammar.specs.Drafts.{row_lists, draft_lists, no_rows};
ghost use Rattle.grammar.specs.Room.{RowsReserved, RowsRoom};

use crate::draft::{Draft, Heading, Rows, Terms};
use std::alloc::{AllocError, Global};

impl Rows {
    /// No rows, and memory for so many in each table.
    pub fn with_capacity(heap: Global, limit: usize) -> Result<Rows, AllocError>
        ensures empty { IfOk result (λ rows. row_lists rows ≡ no_rows) }
        ensures room { IfOk result (RowsRoom limit limit) }
    {
        Ok(Rows {
            items: Vec::with_capacity(heap, limit)?,
            steps: Vec::with_capacity(heap, limit)?,
            statements: Vec::with_capacity(heap, limit)?,
            targets: Vec::with_capacity(heap, limit)?,
            exits: Vec::with_capacity(heap, limit)?,
            resets: Vec::with_capacity(heap, limit)?,
            terms: Terms {
                nodes: Vec::with_capacity(heap, limit)?,
                digits: Vec::with_capacity(heap, limit)?,
            },
        })
    }

    /// Takes all rows away. Their memory stays.
    pub fn clear(&mut self)
        ensures empty { row_lists self.new ≡ no_rows }
        ensures memory { (limit : ℕ) → RowsReserved limit self.old → RowsRoom limit limit self.new }
    {
        self.items.clear();
        self.steps.clear();
        self.statements.clear();
        self.targets.clear();
        self.exits.clear();
        self.resets.clear();
        self.terms.nodes.clear();
        self.terms.digits.clear();
    }

    /// What the rows say, under a heading.
    pub fn draft(&self, heading: Heading) -> Draft<'_>
        ensures { draft_lists result ≡ record { heading = heading; rows = row_lists self.now } }
    {
        Draft {
            heading,
            items: self.items.as_slice(),
            steps: self.steps.as_slice(),
            statements: self.statements.as_slice(),
            targets: self.targets.as_slice(),
            exits: self.exits.as_slice(),
            resets: self.resets.as_slice(),
            nodes: self.terms.nodes.as_slice(),
            digits: self.terms.digits.as_slice(),
        }
    }
}
