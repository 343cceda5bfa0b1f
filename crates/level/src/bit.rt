//! One lane of 0 or 1.
ghost use Rattle.level.specs.Letters.{bool_letter};

use super::{Letter, Level, LevelFault};

/// One lane: false is 0, true is 1.
#[derive(Clone, Copy, PartialEq, Eq, Debug)]
pub struct Bit(pub bool);

impl Level for Bit {
    const LANES: usize = 1;

    ghost LANES = { 1 };

    ghost letters = { λ level _. bool_letter level.0 };

    fn zero() -> Bit {
        Bit(false)
    }

    fn one() -> Bit {
        Bit(true)
    }

    fn not(self) -> Bit {
        Bit(!self.0)
    }

    fn and(self, other: Bit) -> Bit {
        Bit(self.0 & other.0)
    }

    fn or(self, other: Bit) -> Bit {
        Bit(self.0 | other.0)
    }

    fn xor(self, other: Bit) -> Bit {
        Bit(self.0 ^ other.0)
    }

    fn letter(self, lane: usize) -> Result<Letter, LevelFault> {
        Self::lane(lane)?;
        Ok(Letter::from(self.0))
    }
}
