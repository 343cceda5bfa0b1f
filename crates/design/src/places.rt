//! What is reckoned once of a database, so that no call has to search for it.
ghost use Rattle.control.specs.Databases.{rows_of};
ghost use Rattle.control.specs.Usable.{Usable};
ghost use Rattle.design.specs.Derived.{Placed};

use crate::points::{all_bits, bases, held_bits, input_bits};
use crate::targets::{TargetChains, chains, offsets};
use control::Rows;
use database::{SYMBOLS, TARGETS};

/// Where the bits of a database stand.
#[derive(Clone, Copy)]
pub struct Places {
    /// Of each symbol its first point.
    pub bases: [usize; SYMBOLS],
    /// Of each symbol the first target that names it, or 0.
    pub firsts: [usize; SYMBOLS],
    /// Of each target the bit of its statement's value that it begins with.
    pub offsets: [usize; TARGETS],
    /// Of each target the next one that names the same symbol, or 0.
    pub nexts: [usize; TARGETS],
    /// The bits of the inputs.
    pub input_bits: usize,
    /// The bits of inputs and memory.
    pub held_bits: usize,
    /// The bits of all symbols.
    pub all_bits: usize,
}

impl Places {
    // The places of the bits of these rows.
    pub(crate) fn of(rows: &Rows<'_>) -> Places
        requires { Usable (rows_of rows.now) }
        ensures { Placed (rows_of rows.now) result }
    {
        let TargetChains { firsts, nexts } = chains(rows);
        Places {
            bases: bases(rows),
            firsts,
            offsets: offsets(rows),
            nexts,
            input_bits: input_bits(rows),
            held_bits: held_bits(rows),
            all_bits: all_bits(rows),
        }
    }
}
