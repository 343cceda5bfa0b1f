//! The next levels of registers and steps.
ghost use Rattle.std.specs.Prelude.{◌≡◌, ℕ, ◌-◌, ◌<◌, ◌≤◌, length};
ghost use Rattle.level.specs.Letters.{not_l, and_l, or_l};
ghost use Rattle.least.specs.Each.{IsRow};
ghost use Rattle.control.specs.Databases.{rows_of};
ghost use Rattle.control.specs.Points.{most_points, working_rows, rank_of, width_of, place};
ghost use Rattle.control.specs.Rules.{Follows, over_exits, passed, passed_on, passed_to};
ghost use Rattle.control.specs.Levels.{lane, InEachLane, LevelIs, OnlyIn, HeldRow};
ghost use Rattle.engine.specs.Inner.{Adds, StepsHave, Loads, BitsRight, RegistersRight, StepsRight};

use database::{StepKind, class_of};
use design::Design;
use evaluation::{join_targets, node_bit, or_bits, step_level};
use grammar::Class;
use level::Level;

// What is passed along an exit that waits for that bit of its step's conditions.
fn passed<L: Level>(design: &Design<'_>, work: &[L], n: usize, bit: usize) -> L
    requires row { IsRow (rows_of design.now.rows).exits n }
    requires bit { bit ≡ place (rows_of design.now.rows) n }
    requires room { working_rows ≤ length work.now }
    ensures { LevelIs L.Level result (λ k. passed (rows_of design.now.rows) (lane L.Level work.now k) n) }
{
    let left = design.rows().exit(n).left;
    let step = design.rows().step(left);
    match StepKind::from_code(step.kind) {
        Some(StepKind::Branch) => step_level(design, work, left),
        Some(StepKind::Conditions) => {
            step_level(design, work, left).and(node_bit(work, step.condition, bit))
        }
        _ => L::zero(),
    }
}

// What a step passes to the next one.
fn passed_on<L: Level>(design: &Design<'_>, work: &[L], n: usize) -> L
    requires row { IsRow (rows_of design.now.rows).steps n }
    requires room { working_rows ≤ length work.now }
    ensures { LevelIs L.Level result (λ k. passed_on (rows_of design.now.rows) (lane L.Level work.now k) n) }
{
    let step = design.rows().step(n);
    match StepKind::from_code(step.kind) {
        Some(StepKind::Next) => step_level(design, work, n),
        Some(StepKind::Conditions) => {
            let width = design.rows().node(step.condition).width;
            step_level(design, work, n).and(or_bits(work, step.condition, width).not())
        }
        _ => L::zero(),
    }
}

// Adds a level to what is passed to a step.
#[tactic(auto, using(crate::proofs::NextRows::adding))]
fn pass<L: Level>(next: &mut [L], step: usize, level: L)
    requires row { 1 ≤ step }
    requires room { step ≤ length next.old }
    ensures { Adds L.Level next.old next.new step level }
{
    next[step - 1] = next[step - 1].or(level);
}

// What is passed to each step along exits. Each exit is taken once; the exits of its step that came before it
// tell the bit that it waits for.
#[tactic(auto, using(crate::proofs::NextSteps::exits))]
fn pass_along_exits<L: Level>(design: &Design<'_>, work: &[L]) -> [L; 64]
    requires room { working_rows ≤ length work.now }
    ensures { StepsHave L.Level (rows_of design.now.rows) work.now result (λ w s. over_exits (rows_of design.now.rows) w s (length (rows_of design.now.rows).exits)) }
{
    let mut next = [L::zero(); 64];
    let mut counts = [0; 64];
    for i in 0..design.rows().exits.len() {
        let exit = design.rows().exit(i + 1);
        let left = exit.left - 1;
        let level = passed(design, work, i + 1, counts[left]);
        pass(&mut next, exit.entered, level);
        counts[left] += 1;
    }
    next
}

// What is passed to each step.
#[tactic(auto, using(crate::proofs::NextSteps::steps))]
fn pass_along<L: Level>(design: &Design<'_>, work: &[L]) -> [L; 64]
    requires room { working_rows ≤ length work.now }
    ensures { StepsHave L.Level (rows_of design.now.rows) work.now result (λ w s. passed_to (rows_of design.now.rows) w s) }
{
    let mut next = pass_along_exits(design, work);
    for i in 1..design.rows().steps.len() {
        pass(&mut next, i + 1, passed_on(design, work, i));
    }
    next
}

// What a register bit becomes: the value, where the guard lets it, or else what it has.
fn next_bit<L: Level>(value: L, guard: L, present: L) -> L
    ensures { InEachLane L.Level (λ k. L.Level.letters result k ≡ or_l (L.Level.letters value k) (and_l (L.Level.letters present k) (not_l (L.Level.letters guard k)))) }
{
    value.or(present.and(guard.not()))
}

// Gives a register its next level.
#[tactic(auto, using(crate::proofs::NextLoads::register_few))]
fn load_register<L: Level>(design: &Design<'_>, held: &mut [L], work: &[L], symbol: usize)
    requires row { IsRow (rows_of design.now.rows).symbols symbol }
    requires register { rank_of (rows_of design.now.rows) symbol ≡ 2 }
    requires room { most_points ≤ length held.old }
    requires filled { working_rows ≤ length work.now }
    ensures loads { Loads L.Level (rows_of design.now.rows) work.now held.old held.new (BitsRight (rows_of design.now.rows) symbol (width_of (rows_of design.now.rows) symbol)) }
    ensures kept { OnlyIn (HeldRow (rows_of design.now.rows)) held.old held.new }
{
    let joined = join_targets(design, work, symbol);
    let base = design.base(symbol);
    for b in 0..design.rows().symbol(symbol).width {
        let row = base + b;
        held[row] = next_bit(joined.values[b], joined.guards[b], work[row]);
    }
}

// Gives each register its next level.
fn load_registers<L: Level>(design: &Design<'_>, held: &mut [L], work: &[L])
    requires room { most_points ≤ length held.old }
    requires filled { working_rows ≤ length work.now }
    ensures loads { Loads L.Level (rows_of design.now.rows) work.now held.old held.new (RegistersRight (rows_of design.now.rows) (length (rows_of design.now.rows).symbols)) }
    ensures kept { OnlyIn (HeldRow (rows_of design.now.rows)) held.old held.new }
{
    for symbol in 1..design.rows().symbols.len() + 1 {
        if class_of(design.rows().symbol(symbol).class) == Some(Class::Memory) {
            load_register(design, held, work, symbol);
        }
    }
}

// Gives each step its next level.
#[tactic(auto, using(crate::proofs::NextLoads::held_few))]
fn load_steps<L: Level>(design: &Design<'_>, held: &mut [L], work: &[L])
    requires room { most_points ≤ length held.old }
    requires filled { working_rows ≤ length work.now }
    ensures loads { Loads L.Level (rows_of design.now.rows) work.now held.old held.new (StepsRight (rows_of design.now.rows) (length (rows_of design.now.rows).steps)) }
    ensures kept { OnlyIn (HeldRow (rows_of design.now.rows)) held.old held.new }
{
    let next = pass_along(design, work);
    let first = design.held_bits();
    for i in 0..design.rows().steps.len() {
        held[first + i] = next[i];
    }
}

// Gives all registers and steps their next levels. What these are is told by the working table alone, so that all change together.
pub(crate) fn load<L: Level>(design: &Design<'_>, held: &mut [L], work: &[L])
    requires room { most_points ≤ length held.old }
    requires filled { working_rows ≤ length work.now }
    ensures follows { InEachLane L.Level (λ k. Follows (rows_of design.now.rows) (lane L.Level work.now k) (lane L.Level held.old k) (lane L.Level held.new k)) }
    ensures kept { OnlyIn (HeldRow (rows_of design.now.rows)) held.old held.new }
{
    load_registers(design, held, work);
    load_steps(design, held, work);
}
