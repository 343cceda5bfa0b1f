//! The working table, a node, a bus or an output at a time.
ghost use Rattle.std.specs.Prelude.{◌≡◌, ℕ, ◌+◌, ◌≤◌, length};
ghost use Rattle.least.specs.Each.{IsRow};
ghost use Rattle.control.specs.Points.{rank_of};
ghost use Rattle.control.specs.Databases.{rows_of};
ghost use Rattle.control.specs.Levels.{OnlyIn, WorkRow};
ghost use Rattle.evaluation.specs.Inner.{Fills, Fed, NodeRight, NodesRight, SymbolRight, StepLevelsRight, OutputsRight, MarkedRight, Supplied, Reached, Sourced};

use crate::targets::join_targets;
use crate::values::{bit, bit_row};
use design::Design;
use grammar::Class;
use level::Level;

// Fills the rows of a node.
fn fill_node<L: Level>(design: &Design<'_>, work: &mut [L], n: usize)
    requires row { IsRow (rows_of design.now.rows).nodes n }
    requires room { 17472 ≤ length work.old }
    ensures fills { Fills L.Level (rows_of design.now.rows) work.old work.new (λ w xs. Fed (rows_of design.now.rows) w xs n) (λ w xs. NodeRight (rows_of design.now.rows) w xs n) }
    ensures kept { OnlyIn (WorkRow (rows_of design.now.rows)) work.old work.new }
{
    for b in 0..design.rows().node(n).width {
        let level = bit(design, work, n, b);
        work[bit_row(n, b)] = level;
    }
}

// Fills the rows of a node and of those below it, but for those that are marked as filled.
fn fill_expression<L: Level>(design: &Design<'_>, work: &mut [L], filled: &mut [bool], n: usize)
    requires within { n ≤ length (rows_of design.now.rows).nodes }
    requires room { 17472 ≤ length work.old }
    requires marks { 512 ≤ length filled.old }
    ensures fills { Fills L.Level (rows_of design.now.rows) work.old work.new
        (λ w xs. MarkedRight (rows_of design.now.rows) filled.old w xs × (1 ≤ n → Supplied (rows_of design.now.rows) w xs n))
        (λ w xs. MarkedRight (rows_of design.now.rows) filled.new w xs × (1 ≤ n → NodeRight (rows_of design.now.rows) w xs n)) }
    ensures kept { OnlyIn (WorkRow (rows_of design.now.rows)) work.old work.new }
{
    if n == 0 || filled[n - 1] {
        return;
    }
    let node = design.rows().node(n);
    fill_expression(design, work, filled, node.left);
    fill_expression(design, work, filled, node.right);
    fill_node(design, work, n);
    filled[n - 1] = true;
}

// Fills the values that a bus is given. This walks the bus's targets, which `join_targets` walks again to join what they give: twice is
// still in proportion to the targets.
fn fill_values<L: Level>(design: &Design<'_>, work: &mut [L], filled: &mut [bool], bus: usize)
    requires row { IsRow (rows_of design.now.rows).symbols bus }
    requires bus { rank_of (rows_of design.now.rows) bus ≡ 3 }
    requires room { 17472 ≤ length work.old }
    requires marks { 512 ≤ length filled.old }
    ensures fills { Fills L.Level (rows_of design.now.rows) work.old work.new
        (λ w xs. MarkedRight (rows_of design.now.rows) filled.old w xs × Reached (rows_of design.now.rows) w xs bus)
        (λ w xs. MarkedRight (rows_of design.now.rows) filled.new w xs × Sourced (rows_of design.now.rows) w xs bus (length (rows_of design.now.rows).targets)) }
    ensures kept { OnlyIn (WorkRow (rows_of design.now.rows)) work.old work.new }
{
    let mut n = design.first_target(bus);
    while n != 0 {
        let target = design.rows().target(n);
        let value = design.rows().statement(target.statement).value;
        fill_expression(design, work, filled, value);
        n = design.next_target(n);
    }
}

// Fills the points of a bus or an output with what its targets give.
fn drive<L: Level>(design: &Design<'_>, work: &mut [L], symbol: usize)
    requires row { IsRow (rows_of design.now.rows).symbols symbol }
    requires driven { 3 ≤ rank_of (rows_of design.now.rows) symbol }
    requires room { 17472 ≤ length work.old }
    ensures fills { Fills L.Level (rows_of design.now.rows) work.old work.new
        (λ w xs. StepLevelsRight (rows_of design.now.rows) w xs × Sourced (rows_of design.now.rows) w xs symbol (length (rows_of design.now.rows).targets))
        (λ w xs. SymbolRight (rows_of design.now.rows) w xs symbol) }
    ensures kept { OnlyIn (WorkRow (rows_of design.now.rows)) work.old work.new }
{
    let joined = join_targets(design, work, symbol);
    let base = design.base(symbol);
    for b in 0..design.rows().symbol(symbol).width {
        work[base + b] = joined.values[b];
    }
}

// Fills the buses, each from those declared before it, and marks the nodes that this takes.
pub(crate) fn fill_buses<L: Level>(design: &Design<'_>, work: &mut [L], filled: &mut [bool])
    requires room { 17472 ≤ length work.old }
    requires marks { 512 ≤ length filled.old }
    ensures fills { Fills L.Level (rows_of design.now.rows) work.old work.new
        (λ w xs. MarkedRight (rows_of design.now.rows) filled.old w xs × Reached (rows_of design.now.rows) w xs 1)
        (λ w xs. MarkedRight (rows_of design.now.rows) filled.new w xs × Reached (rows_of design.now.rows) w xs (length (rows_of design.now.rows).symbols + 1)) }
    ensures kept { OnlyIn (WorkRow (rows_of design.now.rows)) work.old work.new }
{
    for i in 0..design.rows().symbols.len() {
        let symbol = i + 1;
        if design.is_of_class(symbol, Class::Bus) {
            fill_values(design, work, filled, symbol);
            drive(design, work, symbol);
        }
    }
}

// Fills the nodes that are not yet filled, in their order.
pub(crate) fn fill_nodes<L: Level>(design: &Design<'_>, work: &mut [L], filled: &[bool])
    requires room { 17472 ≤ length work.old }
    requires marks { 512 ≤ length filled.now }
    ensures fills { Fills L.Level (rows_of design.now.rows) work.old work.new
        (λ w xs. MarkedRight (rows_of design.now.rows) filled.now w xs × Reached (rows_of design.now.rows) w xs (length (rows_of design.now.rows).symbols + 1))
        (λ w xs. NodesRight (rows_of design.now.rows) w xs (length (rows_of design.now.rows).nodes)) }
    ensures kept { OnlyIn (WorkRow (rows_of design.now.rows)) work.old work.new }
{
    for i in 0..design.rows().nodes.len() {
        if !filled[i] {
            fill_node(design, work, i + 1);
        }
    }
}

// Fills the outputs.
pub(crate) fn fill_outputs<L: Level>(design: &Design<'_>, work: &mut [L])
    requires room { 17472 ≤ length work.old }
    ensures fills { Fills L.Level (rows_of design.now.rows) work.old work.new
        (λ w xs. StepLevelsRight (rows_of design.now.rows) w xs × NodesRight (rows_of design.now.rows) w xs (length (rows_of design.now.rows).nodes))
        (λ w xs. OutputsRight (rows_of design.now.rows) w xs (length (rows_of design.now.rows).symbols)) }
    ensures kept { OnlyIn (WorkRow (rows_of design.now.rows)) work.old work.new }
{
    for i in 0..design.rows().symbols.len() {
        let symbol = i + 1;
        if design.is_of_class(symbol, Class::Output) {
            drive(design, work, symbol);
        }
    }
}
