//! The two tables that the engine's calls work on.
ghost use Rattle.std.specs.Prelude.{◌≡◌, true, false, IfOk, IfErr};
ghost use Rattle.engine.specs.declared.faults.EngineFault.TheVariants.{ShortTable};
ghost use Rattle.engine.specs.Promise.{both, is_short};

use crate::faults::EngineFault;

/// The rows of a held table: one for each input and register bit and each step. It is the state.
pub const HELD_ROWS: usize = 1088;

/// The rows of a working table: one for each of 1,088 points, then 32 for each of 512 nodes. It may hold anything before a call.
pub const WORKING_ROWS: usize = 17472;

// Refuses tables that are shorter than their sizes.
pub(crate) fn check_tables<L>(held: &[L], work: &[L]) -> Result<(), EngineFault>
    ensures long { IfOk result (λ _. is_short (both held.now work.now) ≡ false) }
    ensures short { IfErr result (λ e. (is_short (both held.now work.now) ≡ true) × (e ≡ ShortTable)) }
{
    if held.len() < HELD_ROWS || work.len() < WORKING_ROWS {
        Err(EngineFault::ShortTable)
    } else {
        Ok(())
    }
}
