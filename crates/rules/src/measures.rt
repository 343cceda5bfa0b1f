//! What is measured of a draft while it is judged.
ghost use Rattle.std.specs.Prelude.{IfOk};
ghost use Rattle.rules.specs.Room.{NothingMeasured, MeasuresReserved};

use std::alloc::{AllocError, Global};

// What is known of a statement's targets, from the first up to one of them: their width, unless one has a fault, and which of the buses
// among them is declared first.
#[derive(Clone, Copy, PartialEq, Eq)]
pub(crate) struct Side {
    pub width: Option<usize>,
    pub bus: Option<usize>,
}

// Before the first target.
pub(crate) const NO_SIDE: Side = Side {
    width: None,
    bus: None,
};

/// What is known of a bit string, from its first integer up to one of them.
#[derive(Clone, Copy, PartialEq, Eq)]
pub struct BitString {
    pub width: Option<usize>,
    pub value: u32,
}

/// Before the first integer of a bit string.
pub const NO_STRING: BitString = BitString {
    width: None,
    value: 0,
};

/// What is measured of a draft: of each target, the side up to it; of each integer of a bit string, the string up to it; of each
/// node, its width; of each exit, how many integers its list has up to it. What has a fault has no width, and no count.
#[derive(Drop)]
pub struct Measures {
    pub(crate) sides: Vec<Side>,
    pub strings: Vec<BitString>,
    pub widths: Vec<Option<usize>>,
    pub(crate) counts: Vec<Option<usize>>,
}

impl Measures {
    /// Nothing measured, and memory for so many rows of each.
    pub fn with_capacity(heap: Global, limit: usize) -> Result<Measures, AllocError>
        ensures empty { IfOk result NothingMeasured }
        ensures room { IfOk result (MeasuresReserved limit) }
    {
        Ok(Measures {
            sides: Vec::with_capacity(heap, limit)?,
            strings: Vec::with_capacity(heap, limit)?,
            widths: Vec::with_capacity(heap, limit)?,
            counts: Vec::with_capacity(heap, limit)?,
        })
    }
}
