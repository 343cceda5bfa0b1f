//! Which bits targets take, and where the targets of a symbol stand.
ghost use Rattle.std.specs.Prelude.{◌≡◌, ℕ, ◌+◌, ◌-◌, ◌<◌, ◌≤◌, slice_set};
ghost use Rattle.least.specs.Each.{IsRow};
ghost use Rattle.database.specs.Rows.{target};
ghost use Rattle.control.specs.Databases.{rows_of};
ghost use Rattle.control.specs.Points.{offset};
ghost use Rattle.control.specs.Usable.{Usable};
ghost use Rattle.design.specs.Derived.{FirstNaming, in_row};

use control::Rows;
use database::{STATEMENTS, SYMBOLS, TARGETS, TargetRow};

// How many bits a target names.
fn bits_of(target: &TargetRow) -> usize
    requires forward { target.now.first ≤ target.now.last }
    requires few { target.now.last < usize.MAX }
    ensures { result ≡ target.now.last - target.now.first + 1 }
{
    target.last - target.first + 1
}

// Takes so many more bits of a statement's value, and tells which is the first of them.
fn take(taken: &mut [usize], statement: usize, bits: usize) -> usize
    requires there { IsRow taken.old statement }
    requires few { in_row taken.old statement + bits ≤ usize.MAX }
    ensures first { result ≡ in_row taken.old statement }
    ensures behind { taken.new ≡ slice_set taken.old (statement - 1) (in_row taken.old statement + bits) }
{
    let first = taken[statement - 1];
    taken[statement - 1] = first + bits;
    first
}

// Of each target the bit of its statement's value that it begins with.
pub(crate) fn offsets(rows: &Rows<'_>) -> [usize; TARGETS]
    requires { Usable (rows_of rows.now) }
    ensures { (t : ℕ) → IsRow (rows_of rows.now).targets t → in_row result t ≡ offset (rows_of rows.now) t }
{
    let mut offsets = [0; TARGETS];
    let mut taken = [0; STATEMENTS];
    for (index, target) in rows.targets.iter().enumerate() {
        offsets[index] = take(&mut taken, target.statement, bits_of(target));
    }
    offsets
}

// The targets that name the same symbol, one behind the other.
pub(crate) struct TargetChains {
    // Of each symbol the first target that names it, or 0.
    pub firsts: [usize; SYMBOLS],
    // Of each target the next one that names the same symbol, or 0.
    pub nexts: [usize; TARGETS],
}

// Puts a target before those that name its symbol, and tells which of them was the first.
fn put_first(firsts: &mut [usize], symbol: usize, target: usize) -> usize
    requires { IsRow firsts.old symbol }
    ensures next { result ≡ in_row firsts.old symbol }
    ensures first { firsts.new ≡ slice_set firsts.old (symbol - 1) target }
{
    let next = firsts[symbol - 1];
    firsts[symbol - 1] = target;
    next
}

// The targets of each symbol.
pub(crate) fn chains(rows: &Rows<'_>) -> TargetChains
    requires { Usable (rows_of rows.now) }
    ensures firsts { (y : ℕ) → IsRow (rows_of rows.now).symbols y → FirstNaming (rows_of rows.now) y 1 (in_row result.firsts y) }
    ensures nexts { (t : ℕ) → IsRow (rows_of rows.now).targets t → FirstNaming (rows_of rows.now) (target (rows_of rows.now) t).symbol (t + 1) (in_row result.nexts t) }
{
    let mut firsts = [0; SYMBOLS];
    let mut nexts = [0; TARGETS];
    for index in (0..rows.targets.len()).rev() {
        nexts[index] = put_first(&mut firsts, rows.targets[index].symbol, index + 1);
    }
    TargetChains { firsts, nexts }
}
