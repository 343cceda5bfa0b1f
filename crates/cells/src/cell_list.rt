//! A list of cells with room for so many.
ghost use Rattle.std.specs.Prelude.{◌≡◌, ◌+◌, ◌-◌, ◌<◌, ◌≤◌, [], ◌∷◌, ◌++◌, vec_len, vec_capacity, MatchResult};
ghost use Rattle.store.specs.Faults.{NotMade};

use std::alloc::Global;
use store::{MOST_CELLS, NewStoreFault};

/// Cells in the order in which they were added, at most `limit` of them. The memory for all is taken at once.
#[derive(Drop)]
pub struct CellList<C> {
    pub(crate) list: Vec<C>,
    // Not the list's capacity, which may be more than was asked for.
    pub(crate) limit: usize,
    ghost bounded: { limit ≤ 1048576 },
    ghost within: { vec_len list ≤ limit },
    ghost reserved: { limit ≤ vec_capacity list },
}

impl<C> CellList<C> {
    /// No cells.
    pub(crate) fn new(heap: Global, limit: usize) -> Result<CellList<C>, NewStoreFault>
        ensures { MatchResult result (λ t. (t.list.items ≡ []) × (vec_len t.list ≡ 0) × (t.limit ≡ limit)) (λ e. NotMade limit e) }
    {
        if limit > MOST_CELLS {
            return Err(NewStoreFault::TooManyCells);
        }
        let list = Vec::with_capacity(heap, limit)?;
        Ok(CellList { list, limit })
    }

    /// How many cells there are.
    pub(crate) fn len(&self) -> usize
        ensures { result ≡ vec_len self.now.list }
    {
        self.list.len()
    }

    /// How many cells are free.
    pub(crate) fn room(&self) -> usize
        ensures { result ≡ self.now.limit - vec_len self.now.list }
    {
        self.limit - self.list.len()
    }

    /// Adds a cell, and answers its place.
    // That the limit stays is said here and by the two calls above, each for itself: it is no part of what they add.
    pub(crate) fn push(&mut self, cell: C) -> usize
        requires { vec_len self.old.list < self.old.limit }
        ensures at { result ≡ vec_len self.old.list }
        ensures items { self.new.list.items ≡ self.old.list.items ++ cell ∷ [] }
        ensures len { vec_len self.new.list ≡ vec_len self.old.list + 1 }
        ensures limit { self.new.limit ≡ self.old.limit }
    {
        let place = self.list.len();
        self.list.push_reserved(cell);
        place
    }
}
