//! Value lines played.
ghost use Rattle.std.specs.Prelude.{◌≡◌, false, IfOk, IfErr, length, ℕ, ◌<◌, ◌≤◌};
ghost use Rattle.level.specs.declared.letter.Letter.{Letter as ALetter};
ghost use Rattle.control.specs.Databases.{rows_of};
ghost use Rattle.control.specs.Points.{input_bits};
ghost use Rattle.control.specs.Rules.{Settled, Clocked};
ghost use Rattle.control.specs.Levels.{lane, OnlyIn, HeldRow, WorkRow};
ghost use Rattle.lines.specs.Cursors.{from_list, Drives};
ghost use Rattle.lines.specs.Promise.{Valued, ValueRefused};
ghost use Rattle.engine.specs.Promise.{both, is_short};

use crate::faults::LineFault;
use crate::printing::{LEAST_OUTPUT, print_letters};
use crate::values::read_values;
use engine::{Engine, HELD_ROWS, WORKING_ROWS};
use level::{Letter, Level, Ternary};

// In the next two functions the engine refuses nothing: the tables are long enough, and only inputs that there are get driven.

// Drives the inputs by these letters.
fn drive_inputs(
    engine: &Engine<'_>,
    letters: &[Letter; 1024],
    held: &mut [Ternary],
    work: &[Ternary],
)
    requires long { is_short (both held.old work.now) ≡ false }
    ensures driven { Drives (input_bits (rows_of engine.now.design.rows)) (from_list letters.now) (lane ⟦<Ternary as Level>⟧ held.old 0) (lane ⟦<Ternary as Level>⟧ held.new 0) }
    ensures rows { OnlyIn (HeldRow (rows_of engine.now.design.rows)) held.old held.new }
{
    for input in 0..engine.design().input_bits() {
        engine
            .drive(input, Ternary(letters[input]), held, work)
            .unwrap();
    }
}

// Gives all registers and steps their next letters. The working table then has the letters from before the clock.
fn clock(engine: &Engine<'_>, held: &mut [Ternary], work: &mut [Ternary])
    requires long { is_short (both held.old work.old) ≡ false }
    ensures settled { Settled (rows_of engine.now.design.rows) (lane ⟦<Ternary as Level>⟧ held.old 0) (lane ⟦<Ternary as Level>⟧ work.new 0) }
    ensures clocked { Clocked (rows_of engine.now.design.rows) (lane ⟦<Ternary as Level>⟧ held.old 0) (lane ⟦<Ternary as Level>⟧ held.new 0) }
    ensures held { OnlyIn (HeldRow (rows_of engine.now.design.rows)) held.old held.new }
    ensures work { OnlyIn (WorkRow (rows_of engine.now.design.rows)) work.old work.new }
{
    engine.clock(held, work).unwrap();
}

/// Plays a line of values: the inputs get its letters, and there is a clock. The working table then has the letters from before the
/// clock, and those of memory, buses, outputs and steps are printed. Answers how many bytes are printed. A line that is refused changes
/// nothing.
pub fn play_line(
    engine: &Engine<'_>,
    line: &[u8],
    held: &mut [Ternary],
    work: &mut [Ternary],
    output: &mut [u8],
) -> Result<usize, LineFault>
    ensures played { IfOk result (λ n. (is_short (both held.old work.old) ≡ false) ×
        Valued (rows_of engine.now.design.rows) line.now (lane ⟦<Ternary as Level>⟧ held.old 0) (lane ⟦<Ternary as Level>⟧ work.new 0) (lane ⟦<Ternary as Level>⟧ held.new 0) n output.old output.new) }
    ensures refused { IfErr result (ValueRefused (is_short (both held.old work.old)) (rows_of engine.now.design.rows) line.now (length output.old)) }
    ensures left { IfErr result (λ _. (held.new ≡ held.old) × (work.new ≡ work.old) × (output.new ≡ output.old)) }
    ensures held { OnlyIn (HeldRow (rows_of engine.now.design.rows)) held.old held.new }
    ensures work { OnlyIn (WorkRow (rows_of engine.now.design.rows)) work.old work.new }
{
    if held.len() < HELD_ROWS || work.len() < WORKING_ROWS {
        return Err(LineFault::ShortTable);
    }
    if output.len() < LEAST_OUTPUT {
        return Err(LineFault::ShortOutput);
    }
    let letters = read_values(engine.design(), line).ok_or(LineFault::WrongValues)?;
    drive_inputs(engine, &letters, held, work);
    clock(engine, held, work);
    Ok(print_letters(engine.design(), work, output))
}
