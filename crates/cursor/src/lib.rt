//! A cursor over the words of a text: the next word is looked at, or taken where it is the one that is asked for.
#![tactic(auto)]

ghost use Rattle.std.specs.Prelude.{◌≡◌, ◌<◌, length, IfErr, OnErr, OnOk, ◌==◌};
ghost use Rattle.grammar.specs.Reading.{read_word, plain};
ghost use Rattle.words.specs.declared.token.Sign.TheVariants.{Dollar};
ghost use Rattle.grammar.specs.Sorts.{sort, second, sign_sort, starts};
ghost use Rattle.cursor.specs.Told.{Told};

use std::marker::Model;
use words::{Sign, Token};

mod stop;
mod terminal;

pub use stop::Stop;
pub use terminal::{AnyInteger, AnyName, Terminal};

/// The words that are still to be read.
#[derive(Drop)]
pub struct Cursor<'a> {
    rest: &'a [Token],
}

// A cursor is seen as the list of the words that are left.
impl<'a> Model for Cursor<'a> {
    ghost use Rattle.std.specs.Prelude.{List};
    ghost use Rattle.words.specs.declared.token.Token.{Token};

    ghost Value = { List Token };

    ghost view = { λ c. c.rest.now };
}

impl<'a> Cursor<'a> {
    /// At the first of these words.
    pub fn new(tokens: &'a [Token]) -> Cursor<'a>
        ensures { result ≡ tokens.now }
    {
        Cursor { rest: tokens }
    }

    /// The words that are left.
    pub fn rest(&self) -> &'a [Token]
        ensures { result.now ≡ self.now }
    {
        self.rest
    }

    /// Whether the next word is the one that is asked for; at the end of the text none is.
    pub fn at<T: Terminal>(&self, word: T) -> bool
        ensures { result ≡ starts (T.rule word) (sort self.now) }
    {
        match self.rest {
            [token, ..] => word.accepts(token.kind),
            [] => false,
        }
    }

    // Whether the word behind the next one is `$`.
    fn before_dollar(&self) -> bool
        ensures { result ≡ (second self.now == sign_sort Dollar) }
    {
        match self.rest {
            [_, rest @ ..] => Cursor::new(rest).at(Sign::Dollar),
            _ => false,
        }
    }

    /// Whether a list of integers stands next, and no expression: an integer that no `$` follows.
    pub fn at_list(&self) -> bool
        ensures { result ≡ plain self.now }
    {
        self.at(AnyInteger) && !self.before_dollar()
    }

    /// Takes the next word where it is the one that is asked for, and answers what it says.
    pub fn take<T: Terminal>(&mut self, word: T) -> Result<T::Value, Stop>
        ensures told { Told (read_word (T.rule word) self.old) (T.value word) result self.new }
        ensures forward { OnOk result (length self.new < length self.old) }
        ensures stops { IfErr result (λ e. e ≡ Stop.Unexpected) }
        ensures stays { OnErr result (self.new ≡ self.old) }
    {
        let [token, rest @ ..] = self.rest else {
            return Err(Stop::Unexpected);
        };
        let value = word.value_of(*token).ok_or(Stop::Unexpected)?;
        self.rest = rest;
        Ok(value)
    }
}
