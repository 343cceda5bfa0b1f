//! Guards, and what targets are given.
ghost use Rattle.std.specs.Prelude.{◌≡◌, ℕ, ◌+◌, ◌<◌, ◌≤◌, length};
ghost use Rattle.least.specs.Each.{IsRow};
ghost use Rattle.database.specs.Rows.{target};
ghost use Rattle.control.specs.Databases.{rows_of};
ghost use Rattle.control.specs.Rules.{step_letter, guard as guard_letter, target_guard, guarded, driven, loaded};
ghost use Rattle.control.specs.Levels.{lane, InEachLane, LevelIs};
ghost use Rattle.evaluation.specs.Inner.{TargetJoined};

use crate::values::node_bit;
use design::Design;
use level::Level;
use symbols::MOST_BITS;

/// The level of a step.
pub fn step_level<L: Level>(design: &Design<'_>, work: &[L], step: usize) -> L
    requires row { IsRow (rows_of design.now.rows).steps step }
    requires room { 17472 ≤ length work.now }
    ensures { LevelIs L.Level result (λ k. step_letter (rows_of design.now.rows) (lane L.Level work.now k) step) }
{
    work[design.all_bits() + (step - 1)]
}

// The guard of a statement.
pub(crate) fn guard<L: Level>(design: &Design<'_>, work: &[L], statement: usize) -> L
    requires row { IsRow (rows_of design.now.rows).statements statement }
    requires room { 17472 ≤ length work.now }
    ensures { LevelIs L.Level result (λ k. guard_letter (rows_of design.now.rows) (lane L.Level work.now k) statement) }
{
    let row = design.rows().statement(statement);
    if row.step == 0 {
        return L::one();
    }
    let level = step_level(design, work, row.step);
    if row.condition == 0 {
        level
    } else {
        level.and(node_bit(work, row.condition, 0))
    }
}

/// What the targets that name a symbol give to its bits.
#[derive(Clone, Copy)]
pub struct Joined<L> {
    /// Of each bit the OR, over the targets that name it, of guard AND value.
    pub values: [L; MOST_BITS],
    /// Of each bit the OR of those guards.
    pub guards: [L; MOST_BITS],
}

// Joins what one target gives. The guard is asked anew for each target of its statement, since it costs no more than to look one up: a step's
// level AND one bit.
fn join_target<L: Level>(design: &Design<'_>, work: &[L], joined: &mut Joined<L>, n: usize)
    requires row { IsRow (rows_of design.now.rows).targets n }
    requires room { 17472 ≤ length work.now }
    ensures values { TargetJoined L.Level joined.old.values joined.new.values (target (rows_of design.now.rows) n).first ((target (rows_of design.now.rows) n).last + 1) (λ k b. guarded (rows_of design.now.rows) (lane L.Level work.now k) b n) }
    ensures guards { TargetJoined L.Level joined.old.guards joined.new.guards (target (rows_of design.now.rows) n).first ((target (rows_of design.now.rows) n).last + 1) (λ k _. target_guard (rows_of design.now.rows) (lane L.Level work.now k) n) }
{
    let target = design.rows().target(n);
    let guard = guard(design, work, target.statement);
    let value = design.rows().statement(target.statement).value;
    let offset = design.offset(n);
    for b in target.first..target.last + 1 {
        let given = node_bit(work, value, offset + (b - target.first));
        joined.values[b] = joined.values[b].or(guard.and(given));
        joined.guards[b] = joined.guards[b].or(guard);
    }
}

/// What the targets that name a symbol give to its bits, each target taken once.
pub fn join_targets<L: Level>(design: &Design<'_>, work: &[L], symbol: usize) -> Joined<L>
    requires row { IsRow (rows_of design.now.rows).symbols symbol }
    requires room { 17472 ≤ length work.now }
    ensures values { InEachLane L.Level (λ k. (b : ℕ) → b < 32 → lane L.Level result.values k b ≡ driven (rows_of design.now.rows) (lane L.Level work.now k) symbol b) }
    ensures guards { InEachLane L.Level (λ k. (b : ℕ) → b < 32 → lane L.Level result.guards k b ≡ loaded (rows_of design.now.rows) (lane L.Level work.now k) symbol b) }
{
    let mut joined = Joined {
        values: [L::zero(); MOST_BITS],
        guards: [L::zero(); MOST_BITS],
    };
    let mut n = design.first_target(symbol);
    while n != 0 {
        join_target(design, work, &mut joined, n);
        n = design.next_target(n);
    }
    joined
}
