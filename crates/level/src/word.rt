//! Sixty-four lanes of 0 or 1, lane i in bit i.
ghost use Rattle.level.specs.Letters.{lane_letter};

use super::{Letter, Level, LevelFault};

/// Sixty-four lanes: lane i is bit i, bit 0 the least.
#[derive(Clone, Copy, PartialEq, Eq, Debug)]
pub struct Word(pub u64);

// The operators are those of `Bit` at another type. What they do is proved of each apart, so one type over both would save no
// proof, and would need a bound for each operator.
impl Level for Word {
    const LANES: usize = 64;

    ghost LANES = { 64 };

    ghost letters = { λ level k. lane_letter level.0 k };

    fn zero() -> Word {
        Word(0)
    }

    #[tactic(auto, using(crate::proofs::WordBits::one_lane))]
    fn one() -> Word {
        Word(u64::MAX)
    }

    #[tactic(auto, using(crate::proofs::WordBits::not_lane))]
    fn not(self) -> Word {
        Word(!self.0)
    }

    #[tactic(auto, using(crate::proofs::WordBits::and_lane))]
    fn and(self, other: Word) -> Word {
        Word(self.0 & other.0)
    }

    #[tactic(auto, using(crate::proofs::WordBits::or_lane))]
    fn or(self, other: Word) -> Word {
        Word(self.0 | other.0)
    }

    #[tactic(auto, using(crate::proofs::WordBits::xor_lane))]
    fn xor(self, other: Word) -> Word {
        Word(self.0 ^ other.0)
    }

    fn letter(self, lane: usize) -> Result<Letter, LevelFault> {
        let lane = Self::lane(lane)?;
        Ok(Letter::from((self.0 >> lane) & 1 == 1))
    }
}
