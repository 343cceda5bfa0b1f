//! One lane of any letter.
use super::{Letter, Level, LevelFault};

/// One lane: 0, 1 or X.
#[derive(Clone, Copy, PartialEq, Eq, Debug)]
pub struct Ternary(pub Letter);

impl Level for Ternary {
    const LANES: usize = 1;

    ghost LANES = { 1 };

    ghost letters = { λ level _. level.0 };

    fn zero() -> Ternary {
        Ternary(Letter::Zero)
    }

    fn one() -> Ternary {
        Ternary(Letter::One)
    }

    fn not(self) -> Ternary {
        Ternary(self.0.not())
    }

    fn and(self, other: Ternary) -> Ternary {
        Ternary(self.0.and(other.0))
    }

    fn or(self, other: Ternary) -> Ternary {
        Ternary(self.0.or(other.0))
    }

    fn xor(self, other: Ternary) -> Ternary {
        Ternary(self.0.xor(other.0))
    }

    fn letter(self, lane: usize) -> Result<Letter, LevelFault> {
        Self::lane(lane)?;
        Ok(self.0)
    }
}
