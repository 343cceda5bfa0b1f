//! What a store refuses.
ghost use Rattle.std.specs.Prelude.{◌≡◌, Some};
ghost use Rattle.fault.specs.Print.{refusal_line};
ghost use Rattle.store.specs.declared.faults.NewStoreFault.TheVariants.{OutOfMemory};
ghost use Rattle.store.specs.Faults.{store_told, new_store_told};

use fault::{Fault, Layer, Refusal};
use std::alloc::AllocError;
use std::{error, fmt};
use thiserror::Error;

/// Why a part is not placed, or a working table not settled.
#[derive(Clone, Copy, PartialEq, Eq, Debug)]
pub enum StoreFault {
    /// There is no part of that code.
    NoSuchPart,
    /// The part names a signal or a leaf that is not there.
    NoSuchOperand,
    /// Fewer cells are free than the part costs.
    Full,
    /// The leaf table has fewer than 1,088 rows, or the working table fewer than there are signals.
    ShortTable,
}

impl Fault for StoreFault {
    ghost told = { store_told };

    fn refusal(&self) -> Refusal {
        Layer::Store.refusal(match self {
            StoreFault::NoSuchPart => 20,
            StoreFault::NoSuchOperand => 21,
            StoreFault::Full => 22,
            StoreFault::ShortTable => 23,
        })
    }
}

/// The line that tells the refusal.
// Written at each fault that has a number, since no impl can stand for every `Fault`.
impl fmt::Display for StoreFault {
    ghost output = { λ fault. Some (refusal_line (store_told fault)) };

    fn fmt<W: fmt::Write>(&self, f: &mut fmt::Formatter<W>) -> fmt::Result {
        fmt::Display::fmt(&self.refusal(), f)
    }
}

impl error::Error for StoreFault {}

/// Why a store is not made. The table of refusals has no number for either.
#[derive(Clone, Copy, PartialEq, Eq, Debug, Error)]
pub enum NewStoreFault {
    /// More than 1,048,576 cells were wished for.
    #[error("a store has at most 1,048,576 cells")]
    TooManyCells,
    /// There is no memory for the cells.
    #[error("no memory for the store")]
    OutOfMemory,
}

impl Fault for NewStoreFault {
    ghost told = { new_store_told };

    fn refusal(&self) -> Refusal {
        match self {
            NewStoreFault::TooManyCells | NewStoreFault::OutOfMemory => Layer::Store.refusal(0),
        }
    }
}

impl From<AllocError> for NewStoreFault {
    ghost from_gives = { λ _ r. r ≡ OutOfMemory };

    fn from(_e: AllocError) -> NewStoreFault {
        NewStoreFault::OutOfMemory
    }
}
