//! The parts that a circuit is made of.
ghost use Rattle.std.specs.Prelude.{◌≡◌, ◌<◌, ◌≤◌, ◌↔◌, Some};
ghost use Rattle.store.specs.Parts.{code_of, kind_name, IgnoresFirst, IgnoresSecond, KindRead};

use super::StoreFault;
use std::fmt;

/// A kind of part. Its code is its place here, from 0.
#[derive(Clone, Copy, PartialEq, Eq, Debug)]
pub enum PartKind {
    Zero,
    One,
    Leaf,
    Not,
    And,
    Or,
    Xor,
}

impl PartKind {
    /// All kinds, in the order of their codes.
    pub const ALL: [PartKind; 7] = [
        PartKind::Zero,
        PartKind::One,
        PartKind::Leaf,
        PartKind::Not,
        PartKind::And,
        PartKind::Or,
        PartKind::Xor,
    ];

    /// The code by which a part of this kind is placed.
    // No `From` besides: there would be two ways to the one number, and `code` says at each call of `place` which it is.
    pub fn code(self) -> u8
        ensures { result ≡ code_of self }
    {
        self as u8
    }

    /// How many operands a part of this kind takes; a leaf's is the leaf. A letter past them never changes the part's.
    #[tactic(auto, using(crate::proofs::Operands::ignores_first, crate::proofs::Operands::ignores_second))]
    pub fn operand_count(self) -> usize
        ensures few { result ≤ 2 }
        ensures first { (result < 1) ↔ IgnoresFirst self }
        ensures second { (result < 2) ↔ IgnoresSecond self }
    {
        match self {
            PartKind::Zero | PartKind::One => 0,
            PartKind::Leaf | PartKind::Not => 1,
            PartKind::And | PartKind::Or | PartKind::Xor => 2,
        }
    }
}

/// The kind of a code, which is at most 6.
impl TryFrom<u8> for PartKind {
    type Error = StoreFault;

    ghost try_from_gives = { KindRead };

    // Case by case, and no look-up in `ALL`: a kind is its code, so that these cases cost a comparison, where the list has to be read.
    // What the list has is said by `store_laws`.
    fn try_from(code: u8) -> Result<PartKind, StoreFault> {
        match code {
            0 => Ok(PartKind::Zero),
            1 => Ok(PartKind::One),
            2 => Ok(PartKind::Leaf),
            3 => Ok(PartKind::Not),
            4 => Ok(PartKind::And),
            5 => Ok(PartKind::Or),
            6 => Ok(PartKind::Xor),
            _ => Err(StoreFault::NoSuchPart),
        }
    }
}

/// The kind's name, in upper case.
impl fmt::Display for PartKind {
    ghost output = { λ kind. Some (kind_name kind) };

    fn fmt<W: fmt::Write>(&self, f: &mut fmt::Formatter<W>) -> fmt::Result {
        f.write_str(match self {
            PartKind::Zero => "ZERO",
            PartKind::One => "ONE",
            PartKind::Leaf => "LEAF",
            PartKind::Not => "NOT",
            PartKind::And => "AND",
            PartKind::Or => "OR",
            PartKind::Xor => "XOR",
        })
    }
}
