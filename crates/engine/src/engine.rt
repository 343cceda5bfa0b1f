//! The step engine and its calls.
ghost use Rattle.std.specs.Prelude.{◌≡◌, ◌+◌, ◌≤◌, true, false, take, drop, length, IsOk, IfOk, IfErr, vec_len, vec_capacity};
ghost use Rattle.database.specs.Rows.{Database};
ghost use Rattle.database.specs.Soundness.{Sound};
ghost use Rattle.level.specs.Faults.{bench_refusal};
ghost use Rattle.control.specs.Databases.{rows_of, Hold};
ghost use Rattle.control.specs.Laws.{OneRun, KnownStays, KnownStaysOpened};
ghost use Rattle.control.specs.Letters.{column};
ghost use Rattle.control.specs.Runs.{open_with, drive, clock, reset, look, refusal_of};
ghost use Rattle.control.specs.Levels.{InEachLane, OnlyIn, HeldRow, WorkRow};
ghost use Rattle.engine.specs.Faults.{engine_told};
ghost use Rattle.engine.specs.Inner.{look_answer, plain_call_answer};
ghost use Rattle.engine.specs.Promise.{both, is_short, why, plain_answer, level_answer, Answers, Filled, Made, Played, MadeAll};

use crate::clock::load;
use crate::faults::EngineFault;
use crate::held::{open_held, reset_steps};
use crate::levels::check_tables;
use control::{Answer, Call, Rows};
use design::Design;
use evaluation::settle;
use fault::Fault;
use level::Level;
use std::alloc::AllocError;

/// A database, to be played.
#[derive(Drop)]
pub struct Engine<'a> {
    design: Design<'a>,
}

impl<'a> Engine<'a> {
    /// Takes a database, whose names are parts of the text, if its rows are sound. They are tested here, once.
    pub fn new(text: &'a [u8], database: Rows<'a>) -> Result<Engine<'a>, EngineFault>
        ensures taken { IfOk result (λ e. Sound (length text.now) (rows_of e.design.rows) × Hold (rows_of e.design.rows) (rows_of database.entry)) }
        ensures text { IfOk result (λ e. e.design.text.now ≡ text.now) }
        ensures same { IfOk result (λ e. (d : Database) → Sound (length text.now) d → Hold d (rows_of database.entry) → rows_of e.design.rows ≡ d) }
        ensures refused { IfErr result (λ e. (engine_told e ≡ bench_refusal 18) × ((d : Database) → Sound (length text.now) d → Hold d (rows_of database.entry) → ⊥)) }
    {
        Ok(Engine {
            design: Design::new(text, database)?,
        })
    }

    /// The database.
    pub fn design(&self) -> &Design<'a>
        ensures { result.now ≡ self.now.design }
    {
        &self.design
    }

    /// Opens: the registers get these levels, one for each bit, the inputs 0, and there is a reset.
    pub fn open<L: Level>(
        &self,
        starts: &[L],
        held: &mut [L],
        work: &[L],
    ) -> Result<(), EngineFault>
        ensures answers { Answers L.Level (rows_of self.now.design.rows) (λ k. open_with (column L.Level.letters k starts.now)) (λ k. plain_answer result) (both held.old work.now) (both held.new work.now) }
        ensures refusal { why result ≡ refusal_of (rows_of self.now.design.rows) (is_short (both held.old work.now)) (open_with (column L.Level.letters 0 starts.now)) }
        ensures left { IfErr result (λ _. held.new ≡ held.old) }
        ensures rows { OnlyIn (HeldRow (rows_of self.now.design.rows)) held.old held.new }
    {
        check_tables(held, work)?;
        if starts.len() != self.design.register_bits() {
            return Err(EngineFault::Missing);
        }
        open_held(&self.design, starts, held);
        Ok(())
    }

    /// Drives an input bit, counted from 0 over all inputs.
    pub fn drive<L: Level>(
        &self,
        input: usize,
        level: L,
        held: &mut [L],
        work: &[L],
    ) -> Result<(), EngineFault>
        ensures answers { Answers L.Level (rows_of self.now.design.rows) (λ k. drive input (L.Level.letters level k)) (λ k. plain_answer result) (both held.old work.now) (both held.new work.now) }
        ensures refusal { why result ≡ refusal_of (rows_of self.now.design.rows) (is_short (both held.old work.now)) (drive input (L.Level.letters level 0)) }
        ensures left { IfErr result (λ _. held.new ≡ held.old) }
        ensures rows { OnlyIn (HeldRow (rows_of self.now.design.rows)) held.old held.new }
    {
        check_tables(held, work)?;
        if input >= self.design.input_bits() {
            return Err(EngineFault::Missing);
        }
        held[input] = level;
        Ok(())
    }

    /// Gives all registers and steps their next levels together.
    pub fn clock<L: Level>(&self, held: &mut [L], work: &mut [L]) -> Result<(), EngineFault>
        ensures answers { Answers L.Level (rows_of self.now.design.rows) (λ k. clock) (λ k. plain_answer result) (both held.old work.old) (both held.new work.new) }
        ensures refusal { why result ≡ refusal_of (rows_of self.now.design.rows) (is_short (both held.old work.old)) (clock) }
        ensures left { IfErr result (λ _. both held.new work.new ≡ both held.old work.old) }
        ensures rows { OnlyIn (HeldRow (rows_of self.now.design.rows)) held.old held.new }
        ensures filled { IfOk result (λ _. Filled L.Level (rows_of self.now.design.rows) held.old work.old work.new) }
    {
        self.fill(held, work)?;
        load(&self.design, held, work);
        Ok(())
    }

    /// Gives the steps that are marked for it 1, and other steps 0.
    pub fn reset<L: Level>(&self, held: &mut [L], work: &[L]) -> Result<(), EngineFault>
        ensures answers { Answers L.Level (rows_of self.now.design.rows) (λ k. reset) (λ k. plain_answer result) (both held.old work.now) (both held.new work.now) }
        ensures refusal { why result ≡ refusal_of (rows_of self.now.design.rows) (is_short (both held.old work.now)) (reset) }
        ensures left { IfErr result (λ _. held.new ≡ held.old) }
        ensures rows { OnlyIn (HeldRow (rows_of self.now.design.rows)) held.old held.new }
    {
        check_tables(held, work)?;
        reset_steps(&self.design, held);
        Ok(())
    }

    /// The level of a point.
    pub fn look<L: Level>(&self, point: usize, held: &[L], work: &mut [L]) -> Result<L, EngineFault>
        ensures answers { Answers L.Level (rows_of self.now.design.rows) (λ k. look point) (level_answer L.Level result) (both held.now work.old) (both held.now work.new) }
        ensures refusal { why result ≡ refusal_of (rows_of self.now.design.rows) (is_short (both held.now work.old)) (look point) }
        ensures left { IfErr result (λ _. work.new ≡ work.old) }
        ensures filled { IfOk result (λ _. Filled L.Level (rows_of self.now.design.rows) held.now work.old work.new) }
    {
        check_tables(held, work)?;
        if point >= self.design.point_count() {
            return Err(EngineFault::Missing);
        }
        settle(&self.design, held, work);
        Ok(work[point])
    }

    // Fills the working table: the row of each point has its level.
    fn fill<L: Level>(&self, held: &[L], work: &mut [L]) -> Result<(), EngineFault>
        ensures refused { IfErr result (λ e. (is_short (both held.now work.old) ≡ true) × (engine_told e ≡ bench_refusal 23) × (work.new ≡ work.old)) }
        ensures filled { IfOk result (λ _. (is_short (both held.now work.old) ≡ false) × Filled L.Level (rows_of self.now.design.rows) held.now work.old work.new) }
    {
        check_tables(held, work)?;
        settle(&self.design, held, work);
        Ok(())
    }

    /// Makes one call.
    pub fn make<L: Level>(&self, call: &Call<'_, L>, held: &mut [L], work: &mut [L]) -> Answer<L>
        ensures made { Made L.Level (rows_of self.now.design.rows) call.now result (both held.old work.old) (both held.new work.new) }
        ensures work { OnlyIn (WorkRow (rows_of self.now.design.rows)) work.old work.new }
    {
        let done = match call {
            Call::Open(starts) => self.open(starts, held, work),
            Call::Drive(input, level) => self.drive(*input, *level, held, work),
            Call::Clock => self.clock(held, work),
            Call::Reset => self.reset(held, work),
            Call::Look(point) => return told(self.look(*point, held, work)),
        };
        answered(done)
    }

    /// Makes the calls, one after the other, and adds their answers. Where there is no memory for the answers, no call is made.
    pub fn play<L: Level>(
        &self,
        calls: &[Call<'_, L>],
        held: &mut [L],
        work: &mut [L],
        answers: &mut Vec<Answer<L>>,
    ) -> Result<(), AllocError>
        ensures made { IfOk result (λ _. MadeAll L.Level (rows_of self.now.design.rows) calls.now (drop (vec_len answers.old) answers.new.items) (both held.old work.old) (both held.new work.new)) }
        ensures played { IfOk result (λ _. Played L.Level (rows_of self.now.design.rows) calls.now (drop (vec_len answers.old) answers.new.items) (both held.old work.old) (both held.new work.new)) }
        ensures before { IfOk result (λ _. take (vec_len answers.old) answers.new.items ≡ answers.old.items) }
        ensures room { vec_len answers.old + length calls.now ≤ vec_capacity answers.old → IsOk result }
        ensures left { IfErr result (λ _. (both held.new work.new ≡ both held.old work.old) × (answers.new.items ≡ answers.old.items)) }
        ensures held { OnlyIn (HeldRow (rows_of self.now.design.rows)) held.old held.new }
        ensures work { OnlyIn (WorkRow (rows_of self.now.design.rows)) work.old work.new }
        ensures one { OneRun }
        ensures stays { KnownStays }
        ensures opened { KnownStaysOpened }
    {
        answers.try_reserve(calls.len())?;
        for call in calls {
            answers.push_reserved(self.make(call, held, work));
        }
        Ok(())
    }
}

// The answer of a look.
fn told<L: Level>(look: Result<L, EngineFault>) -> Answer<L>
    ensures { result ≡ look_answer look }
{
    match look {
        Ok(level) => Answer::Level(level),
        Err(fault) => Answer::Refused(fault.refusal()),
    }
}

// The answer of another call.
fn answered<L: Level>(call: Result<(), EngineFault>) -> Answer<L>
    ensures { result ≡ plain_call_answer call }
{
    match call {
        Ok(()) => Answer::Done,
        Err(fault) => Answer::Refused(fault.refusal()),
    }
}
