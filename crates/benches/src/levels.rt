//! Levels by numbers, and tables of them.

use engine::{HELD_ROWS, WORKING_ROWS};
use level::{Bit, Letter, Level, Ternary, Word};
use std::alloc::{AllocError, Global};

/// What the levels go by that tables hold at first.
const NOISE: u64 = 0x9E37_79B9_7F4A_7C15;

/// What checksums go by.
const FACTOR: u64 = 1_000_003;

const MODULUS: u64 = 1_000_000_007;

/// A kind of level that is written as numbers.
pub(crate) trait Numbered: Level {
    /// The level that a number stands for.
    fn of(number: u64) -> Self;

    /// The number of a level.
    fn number(self) -> u64;
}

/// The last bit of the number.
impl Numbered for Bit {
    fn of(number: u64) -> Bit {
        Bit(number % 2 == 1)
    }

    fn number(self) -> u64 {
        u64::from(self.0)
    }
}

/// 0, 1, and 2 for X.
impl Numbered for Ternary {
    fn of(number: u64) -> Ternary {
        Ternary(match number % 3 {
            0 => Letter::Zero,
            1 => Letter::One,
            _ => Letter::Unknown,
        })
    }

    fn number(self) -> u64 {
        match self.0 {
            Letter::Zero => 0,
            Letter::One => 1,
            Letter::Unknown => 2,
        }
    }
}

/// The bits of the number.
impl Numbered for Word {
    fn of(number: u64) -> Word {
        Word(number)
    }

    fn number(self) -> u64 {
        self.0
    }
}

/// A checksum, gone on with over a number.
pub(crate) fn summed(sum: u64, number: u64) -> u64 {
    sum.wrapping_mul(FACTOR).wrapping_add(number % MODULUS) % MODULUS
}

// So many levels, of which one seems to have nothing to do with the next.
fn noise<L: Numbered>(heap: Global, rows: usize) -> Result<Vec<L>, AllocError> {
    let mut levels = Vec::new(heap);
    let mut number: u64 = 0;
    for _ in 0..rows {
        number = number.wrapping_add(NOISE);
        levels.push(L::of(number >> 7))?;
    }
    Ok(levels)
}

/// The checksum of levels.
pub(crate) fn checksum<L: Numbered>(levels: &[L]) -> u64 {
    let mut sum = 0;
    for level in levels {
        sum = summed(sum, level.number());
    }
    sum
}

/// A held and a working table.
#[derive(Drop)]
pub(crate) struct Bench<L: Numbered> {
    pub held: Vec<L>,
    pub work: Vec<L>,
}

impl<L: Numbered> Bench<L> {
    /// Tables of so many rows, that hold anything.
    pub(crate) fn of_lengths(heap: Global, held: usize, work: usize) -> Result<Self, AllocError> {
        Ok(Bench {
            held: noise(heap, held)?,
            work: noise(heap, work)?,
        })
    }

    /// Tables of the right lengths, that hold anything.
    pub(crate) fn new(heap: Global) -> Result<Self, AllocError> {
        Bench::of_lengths(heap, HELD_ROWS, WORKING_ROWS)
    }
}
