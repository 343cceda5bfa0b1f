//! The single words that the grammar asks for.
ghost use Rattle.std.specs.Prelude.{◌≡◌, option_map};
ghost use Rattle.grammar.specs.Rules.{Rule, mark, keyword, name, integer};
ghost use Rattle.grammar.specs.Trees.{Tree};
ghost use Rattle.grammar.specs.Drafts.{name_of, number_of};
ghost use Rattle.grammar.specs.Reading.{IsWord, word_tree};
ghost use Rattle.grammar.specs.Sorts.{kind_sort, starts};
ghost use Rattle.cursor.specs.Told.{mark_place, keyword_place};

use grammar::{Name, Number};
use words::{Keyword, Kind, Sign, Token};

/// A single word that the grammar may ask for: a certain sign, a certain keyword, any name or any integer.
pub trait Terminal: Copy {
    /// What such a word says.
    type Value: Copy;

    /// The rule that asks for it.
    ghost rule: { Self → Rule };

    /// What it says, by its tree.
    ghost value: { (word : Self) → Tree (rule word) → Self.Value };

    /// Whether a word of that kind is such a word.
    // Apart from `value_of`: readers ask of one word many times before they take it, and asking makes nothing.
    fn accepts(self, kind: Kind) -> bool
        ensures { result ≡ starts (rule self) (kind_sort kind) };

    /// What the token says, if it is such a word.
    fn value_of(self, token: Token) -> Option<Self::Value>
        ensures { result ≡ option_map (value self) (word_tree (rule self) token) };

    /// The rule asks for a single word.
    ghost single: { (word : Self) → IsWord (rule word) };
}

/// That sign. It says its place.
impl Terminal for Sign {
    type Value = usize;

    ghost rule = { mark };

    ghost value = { λ _. mark_place };

    #[inline(always)]
    fn accepts(self, kind: Kind) -> bool {
        match kind {
            Kind::Mark(sign) => sign == self,
            _ => false,
        }
    }

    fn value_of(self, token: Token) -> Option<usize> {
        match token.kind {
            Kind::Mark(sign) if sign == self => Some(token.place),
            _ => None,
        }
    }

    ghost single = { λ _. tt };
}

/// That keyword. It says its place.
impl Terminal for Keyword {
    type Value = usize;

    ghost rule = { keyword };

    ghost value = { λ _. keyword_place };

    #[inline(always)]
    fn accepts(self, kind: Kind) -> bool {
        match kind {
            Kind::Reserved(keyword) => keyword == self,
            _ => false,
        }
    }

    fn value_of(self, token: Token) -> Option<usize> {
        match token.kind {
            Kind::Reserved(keyword) if keyword == self => Some(token.place),
            _ => None,
        }
    }

    ghost single = { λ _. tt };
}

/// Any name.
#[derive(Clone, Copy, PartialEq, Eq, Debug)]
pub struct AnyName;

impl Terminal for AnyName {
    type Value = Name;

    ghost rule = { λ _. name };

    ghost value = { λ _. name_of };

    #[inline(always)]
    fn accepts(self, kind: Kind) -> bool {
        matches!(kind, Kind::Name(_))
    }

    fn value_of(self, token: Token) -> Option<Name> {
        let place = token.place;
        match token.kind {
            Kind::Name(len) => Some(Name { place, len }),
            _ => None,
        }
    }

    ghost single = { λ _. tt };
}

/// Any integer.
#[derive(Clone, Copy, PartialEq, Eq, Debug)]
pub struct AnyInteger;

impl Terminal for AnyInteger {
    type Value = Number;

    ghost rule = { λ _. integer };

    ghost value = { λ _. number_of };

    #[inline(always)]
    fn accepts(self, kind: Kind) -> bool {
        matches!(kind, Kind::Integer(_))
    }

    fn value_of(self, token: Token) -> Option<Number> {
        let place = token.place;
        match token.kind {
            Kind::Integer(value) => Some(Number { place, value }),
            _ => None,
        }
    }

    ghost single = { λ _. tt };
}
