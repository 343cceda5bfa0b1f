//! A letter is what one lane carries: 0, 1 or X, where X may be either.
ghost use Rattle.std.specs.Prelude.{◌≡◌, [], ◌∷◌, Some};
ghost use Rattle.level.specs.Letters.{not_l, and_l, or_l, xor_l, bool_letter, symbol_of};

use std::fmt;

/// 0, 1 or X.
#[derive(Clone, Copy, PartialEq, Eq, Debug)]
pub enum Letter {
    Zero,
    One,
    Unknown,
}

impl Letter {
    /// All letters.
    pub const ALL: [Letter; 3] = [Letter::Zero, Letter::One, Letter::Unknown];

    /// The character that stands for the letter.
    // A call of its own beside `Display`, which prints what it answers: a line of letters is made of characters.
    pub fn symbol(self) -> char
        ensures { result ≡ symbol_of self }
    {
        match self {
            Letter::Zero => '0',
            Letter::One => '1',
            Letter::Unknown => 'X',
        }
    }

    /// Swaps 0 and 1, and keeps X.
    pub fn not(self) -> Letter
        ensures { result ≡ not_l self }
    {
        match self {
            Letter::Zero => Letter::One,
            Letter::One => Letter::Zero,
            Letter::Unknown => Letter::Unknown,
        }
    }

    /// 0 if a side is 0, 1 if both are 1, else X.
    pub fn and(self, other: Letter) -> Letter
        ensures { result ≡ and_l self other }
    {
        match (self, other) {
            (Letter::Zero, _) | (_, Letter::Zero) => Letter::Zero,
            (Letter::One, Letter::One) => Letter::One,
            _ => Letter::Unknown,
        }
    }

    /// 1 if a side is 1, 0 if both are 0, else X.
    pub fn or(self, other: Letter) -> Letter
        ensures { result ≡ or_l self other }
    {
        match (self, other) {
            (Letter::One, _) | (_, Letter::One) => Letter::One,
            (Letter::Zero, Letter::Zero) => Letter::Zero,
            _ => Letter::Unknown,
        }
    }

    /// X if a side is X, else 1 where they differ.
    pub fn xor(self, other: Letter) -> Letter
        ensures { result ≡ xor_l self other }
    {
        match (self, other) {
            (Letter::Unknown, _) | (_, Letter::Unknown) => Letter::Unknown,
            (a, b) if a == b => Letter::Zero,
            _ => Letter::One,
        }
    }
}

/// The letter's character.
impl fmt::Display for Letter {
    ghost output = { λ letter. Some (symbol_of letter ∷ []) };

    fn fmt<W: fmt::Write>(&self, f: &mut fmt::Formatter<W>) -> fmt::Result {
        f.write_char(self.symbol())
    }
}

/// False is 0, true is 1.
impl From<bool> for Letter {
    ghost from_gives = { λ one letter. letter ≡ bool_letter one };

    fn from(one: bool) -> Letter {
        if one { Letter::One } else { Letter::Zero }
    }
}
