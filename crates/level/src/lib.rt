//! Kinds of level: what a signal carries, one letter for each lane.
//!
//! Code above is generic over `Level` and is proved once, lane by lane, against its ghost members alone.
#![tactic(auto)]

ghost use Rattle.std.specs.Prelude.{◌≡◌, ℕ, ◌<◌, ◌≤◌, [], ◌∷◌, MatchResult};
ghost use Rattle.level.specs.declared.letter.Letter.{Letter};
ghost use Rattle.level.specs.declared.letter.Letter.TheVariants.{Unknown};
ghost use Rattle.level.specs.Letters.{zero_l, one_l, not_l, and_l, or_l, xor_l};
ghost use Rattle.level.specs.Faults.{level_told, bench_refusal};
ghost use Rattle.level.specs.Laws.{LetterLaws};

mod bit;
mod faults;
mod letter;
mod ternary;
mod word;

pub use bit::Bit;
pub use faults::LevelFault;
pub use letter::Letter;
pub use ternary::Ternary;
pub use word::Word;

/// A kind of level. Every operation works in each lane apart; a lane that is not there is all that is refused.
// Methods and no operators: a supertrait of std for each would need a law of its own to say what its clause says. Each clause
// has the quantifier over the lanes, which a definition would only hide.
pub trait Level: Copy {
    /// The number of lanes.
    const LANES: usize;

    /// The same number, for clauses. The check holds the two to one another in each kind.
    ghost LANES: { ℕ };

    /// The letter of a level in each lane below `LANES`.
    ghost letters: { Self → ℕ → Letter };

    /// The number of lanes.
    fn lane_count() -> usize
        ensures { result ≡ LANES }
    {
        Self::LANES
    }

    /// The lane of that number, refused where there is no such lane.
    fn lane(n: usize) -> Result<usize, LevelFault>
        ensures { MatchResult result
            (λ k. (n < LANES) × (k ≡ n))
            (λ e. (LANES ≤ n) × (level_told e ≡ bench_refusal 25)) }
    {
        if n < Self::LANES {
            Ok(n)
        } else {
            Err(LevelFault::NoSuchLane)
        }
    }

    /// 0 in every lane.
    fn zero() -> Self
        ensures { (k : ℕ) → k < LANES → letters result k ≡ zero_l };

    /// 1 in every lane.
    fn one() -> Self
        ensures { (k : ℕ) → k < LANES → letters result k ≡ one_l };

    /// NOT, lane by lane.
    fn not(self) -> Self
        ensures { (k : ℕ) → k < LANES → letters result k ≡ not_l (letters self k) };

    /// AND, lane by lane.
    fn and(self, other: Self) -> Self
        ensures { (k : ℕ) → k < LANES → letters result k ≡ and_l (letters self k) (letters other k) };

    /// OR, lane by lane.
    fn or(self, other: Self) -> Self
        ensures { (k : ℕ) → k < LANES → letters result k ≡ or_l (letters self k) (letters other k) };

    /// XOR, lane by lane.
    fn xor(self, other: Self) -> Self
        ensures { (k : ℕ) → k < LANES → letters result k ≡ xor_l (letters self k) (letters other k) };

    /// The letter of a lane, refused where there is no such lane.
    fn letter(self, lane: usize) -> Result<Letter, LevelFault>
        ensures { MatchResult result
            (λ x. (lane < LANES) × (x ≡ letters self lane))
            (λ e. (LANES ≤ lane) × (level_told e ≡ bench_refusal 25)) };
}

/// The laws of letters on which later proofs rest, and which letters `Letter::ALL` lists.
pub fn letter_laws()
    ensures laws { LetterLaws }
    ensures all { Letter.ALL ≡ zero_l ∷ one_l ∷ Unknown ∷ [] }
{}
