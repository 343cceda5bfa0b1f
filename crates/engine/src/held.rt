//! What calls other than a clock leave held.
ghost use Rattle.std.specs.Prelude.{◌≡◌, ◌<◌, ◌≤◌, length};
ghost use Rattle.control.specs.Databases.{rows_of};
ghost use Rattle.control.specs.Letters.{column};
ghost use Rattle.control.specs.Points.{most_points, register_bits};
ghost use Rattle.control.specs.Rules.{Opened, WasReset};
ghost use Rattle.control.specs.Levels.{lane, InEachLane, OnlyIn, HeldRow};

use design::Design;
use level::Level;

// Gives the steps that are marked for it 1, and other steps 0.
pub(crate) fn reset_steps<L: Level>(design: &Design<'_>, held: &mut [L])
    requires room { most_points ≤ length held.old }
    ensures steps { InEachLane L.Level (λ k. WasReset (rows_of design.now.rows) (lane L.Level held.old k) (lane L.Level held.new k)) }
    ensures kept { OnlyIn (HeldRow (rows_of design.now.rows)) held.old held.new }
{
    let first = design.held_bits();
    for (i, step) in design.rows().steps.iter().enumerate() {
        held[first + i] = if step.reset == 1 { L::one() } else { L::zero() };
    }
}

// Gives the registers their first levels, the inputs 0, and resets the steps.
pub(crate) fn open_held<L: Level>(design: &Design<'_>, starts: &[L], held: &mut [L])
    requires room { most_points ≤ length held.old }
    requires starts { length starts.now ≡ register_bits (rows_of design.now.rows) }
    ensures opened { InEachLane L.Level (λ k. Opened (rows_of design.now.rows) (column L.Level.letters k starts.now) (lane L.Level held.old k) (lane L.Level held.new k)) }
    ensures kept { OnlyIn (HeldRow (rows_of design.now.rows)) held.old held.new }
{
    let first = design.input_bits();
    for p in 0..first {
        held[p] = L::zero();
    }
    for (i, level) in starts.iter().enumerate() {
        held[first + i] = *level;
    }
    reset_steps(design, held);
}
