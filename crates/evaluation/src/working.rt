//! The working table, filled.
ghost use Rattle.std.specs.Prelude.{◌≤◌, length};
ghost use Rattle.control.specs.Databases.{rows_of};
ghost use Rattle.control.specs.Letters.{Letters};
ghost use Rattle.control.specs.Rules.{Settled};
ghost use Rattle.control.specs.Levels.{lane, InEachLane, OnlyIn, WorkRow};
ghost use Rattle.evaluation.specs.Inner.{NowRight, HeldRight};

use crate::filling::{fill_buses, fill_nodes, fill_outputs};
use database::NODES;
use design::Design;
use level::Level;

// Copies the held levels to their points.
fn hold<L: Level>(design: &Design<'_>, held: &[L], work: &mut [L])
    requires held { 1088 ≤ length held.now }
    requires room { 17472 ≤ length work.old }
    ensures fills { InEachLane L.Level (λ k. (w : Letters) → Settled (rows_of design.now.rows) (lane L.Level held.now k) w →
        NowRight w (lane L.Level work.old k) (lane L.Level work.new k) (HeldRight (rows_of design.now.rows))) }
    ensures kept { OnlyIn (WorkRow (rows_of design.now.rows)) work.old work.new }
{
    let bits = design.held_bits();
    for p in 0..bits {
        work[p] = held[p];
    }
    let first_step = design.all_bits();
    for i in 0..design.rows().steps.len() {
        work[first_step + i] = held[bits + i];
    }
}

/// Fills the rows in use with the letters that the held ones settle.
pub fn settle<L: Level>(design: &Design<'_>, held: &[L], work: &mut [L])
    requires held { 1088 ≤ length held.now }
    requires room { 17472 ≤ length work.old }
    ensures settled { InEachLane L.Level (λ k. Settled (rows_of design.now.rows) (lane L.Level held.now k) (lane L.Level work.new k)) }
    ensures kept { OnlyIn (WorkRow (rows_of design.now.rows)) work.old work.new }
{
    let mut filled = [false; NODES];
    hold(design, held, work);
    fill_buses(design, work, &mut filled);
    fill_nodes(design, work, &filled);
    fill_outputs(design, work);
}
