//! Why reading stops.
ghost use Rattle.std.specs.Prelude.{◌≡◌};
ghost use Rattle.cursor.specs.declared.stop.Stop.TheVariants.{OutOfMemory};

use std::alloc::AllocFailed;

/// Why reading stops before its end. The cursor then stands where it stopped.
#[derive(Clone, Copy, PartialEq, Eq, Debug)]
pub enum Stop {
    /// No module goes on with the next word, or ends here.
    Unexpected,
    /// The next word opens the seventeenth nesting.
    TooDeep,
    /// There is no memory for a row.
    OutOfMemory,
}

impl<T: Drop> From<AllocFailed<T>> for Stop {
    ghost from_gives = { λ _ r. r ≡ OutOfMemory };

    fn from(_e: AllocFailed<T>) -> Stop {
        Stop::OutOfMemory
    }
}
