//! The table that expands parts into NAND cells.
ghost use Rattle.std.specs.Prelude.{◌≡◌, ℕ, ◌+◌, ◌≤◌, true, length};
ghost use Rattle.store.specs.Parts.{price};
ghost use Rattle.cells.specs.Patterns.{nand_costs, pin_signal, pin_wired, realises, stage_cell, stage_wired, wired};

use super::nand::NandCell;
use super::part::Part;
use store::PartKind;

/// Where a NAND of a pattern takes an input from.
#[derive(Clone, Copy)]
pub(crate) enum Pin {
    /// The part's first operand.
    First,
    /// The part's second operand.
    Second,
    /// An earlier cell of the pattern, counted from 0.
    Inner(u32),
}

impl Pin {
    // Part and base go together here and in `Stage::over` alone, which hands them on.
    // The signal that a pin of stage n names, where the pattern stands over a part's operands, its first cell at the base.
    fn signal(self, part: Part, base: u32) -> u32
        requires { (n : ℕ) × (pin_wired part.kind n self ≡ true) × (base + n ≤ 1048576) }
        ensures { result ≡ pin_signal part base self }
    {
        match self {
            Pin::First => part.first,
            Pin::Second => part.second,
            Pin::Inner(k) => base + k,
        }
    }
}

/// A cell of a pattern. A leaf's number is the part's first operand.
#[derive(Clone, Copy)]
pub(crate) enum Stage {
    Zero,
    One,
    Leaf,
    Nand(Pin, Pin),
}

impl Stage {
    /// The cell of stage n, where the pattern stands over a part's operands, its first cell at the base.
    pub(crate) fn over(self, part: Part, base: u32) -> NandCell
        requires { (n : ℕ) × (stage_wired part.kind n self ≡ true) × (base + n ≤ 1048576) }
        ensures { result ≡ stage_cell part base self }
    {
        match self {
            Stage::Zero => NandCell::Zero,
            Stage::One => NandCell::One,
            Stage::Leaf => NandCell::Leaf(part.first),
            Stage::Nand(p, q) => NandCell::Nand(p.signal(part, base), q.signal(part, base)),
        }
    }
}

const ZERO: [Stage; 1] = [Stage::Zero];

const ONE: [Stage; 1] = [Stage::One];

const LEAF: [Stage; 1] = [Stage::Leaf];

const NOT: [Stage; 1] = [Stage::Nand(Pin::First, Pin::First)];

const AND: [Stage; 2] = [
    Stage::Nand(Pin::First, Pin::Second),
    Stage::Nand(Pin::Inner(0), Pin::Inner(0)),
];

const OR: [Stage; 3] = [
    Stage::Nand(Pin::First, Pin::First),
    Stage::Nand(Pin::Second, Pin::Second),
    Stage::Nand(Pin::Inner(0), Pin::Inner(1)),
];

const XOR: [Stage; 4] = [
    Stage::Nand(Pin::First, Pin::Second),
    Stage::Nand(Pin::First, Pin::Inner(0)),
    Stage::Nand(Pin::Second, Pin::Inner(0)),
    Stage::Nand(Pin::Inner(1), Pin::Inner(2)),
];

/// The cells that stand for a part: the letter of the last is the part's, whatever the letters of its operands are.
pub(crate) fn pattern(kind: PartKind) -> &'static [Stage]
    ensures wired { wired kind 0 result.now ≡ true }
    ensures realised { realises kind result.now ≡ true }
    ensures priced { length result.now ≡ price nand_costs kind }
{
    match kind {
        PartKind::Zero => &ZERO,
        PartKind::One => &ONE,
        PartKind::Leaf => &LEAF,
        PartKind::Not => &NOT,
        PartKind::And => &AND,
        PartKind::Or => &OR,
        PartKind::Xor => &XOR,
    }
}
