//! Whether rows can be relied on.
ghost use Rattle.database.specs.Soundness.{Sound};
ghost use Rattle.control.specs.Databases.{rows_of};
ghost use Rattle.control.specs.Deciding.{Decides};

use control::Rows;
use inspect_layout::{steps_are_laid, targets_are_laid};
use inspect_rows::rows_are_sound;

// Whether the rows are those of a sound database, whose names are parts of a text of so many bytes.
#[tactic(auto, using(crate::proofs::Parts::parts_sound, crate::proofs::Parts::sound_rows))]
pub(crate) fn is_sound(rows: &Rows<'_>, bytes: usize) -> bool
    ensures { Decides result (Sound bytes (rows_of rows.now)) }
{
    rows_are_sound(rows, bytes) && steps_are_laid(rows) && targets_are_laid(rows)
}
