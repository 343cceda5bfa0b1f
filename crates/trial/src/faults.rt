//! Why a trial is not made.
ghost use Rattle.std.specs.Prelude.{◌≡◌};
ghost use Rattle.trial.specs.declared.faults.TrialFault.TheVariants.{Level, New, OutOfMemory, Store};

use level::LevelFault;
use std::alloc::AllocError;
use store::{NewStoreFault, StoreFault};
use thiserror::Error;

/// Why a trial is not made; each fault below is carried whole.
#[derive(Clone, Copy, PartialEq, Eq, Debug, Error)]
pub enum TrialFault {
    /// The store was not made.
    #[error(transparent)]
    New(NewStoreFault),
    /// The store refused.
    #[error(transparent)]
    Store(StoreFault),
    /// The level refused.
    #[error(transparent)]
    Level(LevelFault),
    /// There is no memory for the tables.
    #[error("no memory for the tables")]
    OutOfMemory,
}

// Each `From` stands by hand: a derive's has no contract, and the clause of `try_part` names the error.

impl From<NewStoreFault> for TrialFault {
    ghost from_gives = { λ e r. r ≡ New e };

    fn from(e: NewStoreFault) -> TrialFault {
        TrialFault::New(e)
    }
}

impl From<StoreFault> for TrialFault {
    ghost from_gives = { λ e r. r ≡ Store e };

    fn from(e: StoreFault) -> TrialFault {
        TrialFault::Store(e)
    }
}

impl From<LevelFault> for TrialFault {
    ghost from_gives = { λ e r. r ≡ Level e };

    fn from(e: LevelFault) -> TrialFault {
        TrialFault::Level(e)
    }
}

impl From<AllocError> for TrialFault {
    ghost from_gives = { λ _ r. r ≡ OutOfMemory };

    fn from(_e: AllocError) -> TrialFault {
        TrialFault::OutOfMemory
    }
}
