//! A reader of words.
ghost use Rattle.std.specs.Prelude.{◌≡◌, ◌+◌, length, MatchResult};
ghost use Rattle.std.specs.Char.{is_ascii_alphabetic, is_ascii_digit};
ghost use Rattle.words.specs.Inner.{Starts, BytesBegin, Gap, Finds, Found, BeginsWrong};

use crate::faults::WordFault;
use crate::front::{gap_len, integer, integer_len, name, name_len, sign_at};
use crate::token::Kind;
use std::marker::Model;

/// A word: what it is, the place of its first byte in the text, and the part of the text that it is.
#[derive(Clone, Copy, PartialEq, Eq, Debug)]
pub struct Word<'a> {
    pub kind: Kind,
    pub place: usize,
    pub text: &'a [u8],
}

/// The words of a text, one after the other.
#[derive(Drop)]
pub struct Words<'a> {
    rest: &'a [u8],
    place: usize,
}

// A reader is seen as what is still to be read.
impl<'a> Model for Words<'a> {
    ghost use Rattle.std.specs.Prelude.{◌+◌, ◌^◌, ◌<◌, length};
    ghost use Rattle.words.specs.Reading.{Unread};

    ghost Value = { Unread };

    ghost view = { λ w. record { place = w.place; rest = w.rest.now } };

    ghost invariant = { λ w. w.place + length w.rest.now < 2 ^ 64 };
}

impl<'a> Words<'a> {
    ghost use Rattle.words.specs.Reading.{Reads};

    /// A reader at the beginning of this text.
    pub fn new(text: &'a [u8]) -> Words<'a>
        ensures { result ≡ record { place = 0; rest = text.now } }
    {
        Words {
            rest: text,
            place: 0,
        }
    }

    /// The next word, if there is one. A reader stays before a wrong word.
    #[tactic(auto, using(crate::proofs::Reading::reads_end, crate::proofs::Reading::gap_starts, crate::proofs::Reading::reads_wrong, crate::proofs::Reading::found_sizes))]
    pub fn next(&mut self) -> Result<Option<Word<'a>>, WordFault>
        ensures { Reads self.old result self.new }
    {
        let (gap, front) = split_gap(self.rest);
        let place = self.place + gap.len();
        if front.is_empty() {
            self.rest = front;
            self.place = place;
            return Ok(None);
        }
        let (word, rest) = first_word(front, place)?;
        self.rest = rest;
        self.place = place + word.text.len();
        Ok(Some(word))
    }
}

// Parts the separators at the front of a text from what follows them.
#[tactic(auto, using(crate::proofs::Runs::run_within, crate::proofs::Reading::gap_parts))]
fn split_gap(text: &[u8]) -> (&[u8], &[u8])
    ensures parts { Gap text.now result.0.now result.1.now }
    ensures sizes { length result.0.now + length result.1.now ≡ length text.now }
{
    text.split_at(gap_len(text))
}

// The word at the front of a text, whose first byte is at the place, and what follows it.
#[tactic(auto, using(crate::proofs::Reading::word_parts))]
fn first_word(text: &[u8], place: usize) -> Result<(Word<'_>, &[u8]), WordFault>
    requires { Starts text.now }
    ensures { MatchResult result (λ x. Found text.now place x.0 x.1.now) (BeginsWrong text.now place) }
{
    let (kind, len) = kind_and_len(text, place)?;
    let (text, rest) = text.split_at(len);
    Ok((Word { kind, place, text }, rest))
}

// What the word at the front of a text is, and how many bytes it has.
#[tactic(auto, using(crate::proofs::Runs::begins_at, crate::proofs::Runs::begins_not))]
fn kind_and_len(text: &[u8], place: usize) -> Result<(Kind, usize), WordFault>
    requires { Starts text.now }
    ensures { Finds text.now place result }
{
    match text {
        [first, ..] if first.is_ascii_alphabetic() => first_name(text, place),
        [first, ..] if first.is_ascii_digit() => first_integer(text, place),
        _ => first_sign(text, place),
    }
}

// A name or a keyword.
#[tactic(auto, using(crate::proofs::Fronts::name_bytes, crate::proofs::Fronts::name_right, crate::proofs::Fronts::name_wrong))]
fn first_name(text: &[u8], place: usize) -> Result<(Kind, usize), WordFault>
    requires { BytesBegin is_ascii_alphabetic text.now }
    ensures { Finds text.now place result }
{
    let len = name_len(text);
    let kind = name(&text[..len]).ok_or(WordFault::LongName(place))?;
    Ok((kind, len))
}

// An integer.
#[tactic(auto, using(crate::proofs::Fronts::integer_bytes, crate::proofs::Fronts::integer_right, crate::proofs::Fronts::integer_wrong))]
fn first_integer(text: &[u8], place: usize) -> Result<(Kind, usize), WordFault>
    requires { BytesBegin is_ascii_digit text.now }
    ensures { Finds text.now place result }
{
    let len = integer_len(text);
    let value = integer(&text[..len]).ok_or(WordFault::LargeInteger(place))?;
    Ok((Kind::Integer(value), len))
}

// A sign.
#[tactic(auto, using(crate::proofs::Fronts::sign_wrong))]
fn first_sign(text: &[u8], place: usize) -> Result<(Kind, usize), WordFault>
    requires starts { Starts text.now }
    requires no_letter { ¬ BytesBegin is_ascii_alphabetic text.now }
    requires no_digit { ¬ BytesBegin is_ascii_digit text.now }
    ensures { Finds text.now place result }
{
    let Some((sign, rest)) = sign_at(text) else {
        return Err(WordFault::NoWord(place));
    };
    Ok((Kind::Mark(sign), text.len() - rest.len()))
}
