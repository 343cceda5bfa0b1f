//! What stands at the front of a text.
ghost use Rattle.std.specs.Prelude.{◌≡◌, ◌<◌, ◌≤◌, length, MatchOption, Some, None};
ghost use Rattle.std.specs.List.{prefix_len};
ghost use Rattle.std.specs.Char.{is_ascii_digit};
ghost use Rattle.words.specs.Spelling.{is_separator, in_name, capitals, keyword_text, NoKeyword, Lettered, Says, longest_name, Every, decimal_value, most_digits, largest_integer};
ghost use Rattle.words.specs.Inner.{NoSign, FirstSign};

use crate::token::{Keyword, Kind, Sign};

// How many bytes a name has at most.
const LONGEST_NAME: usize = 20;

// How many digits an integer has at most.
const MOST_DIGITS: usize = 5;

// Whether the byte separates words.
fn is_separator(byte: u8) -> bool
    ensures { result ≡ is_separator byte }
{
    matches!(byte, b'\t' | b'\n' | b'\r' | b' ')
}

// Whether the byte may stand in a name.
fn in_name(byte: u8) -> bool
    ensures { result ≡ in_name byte }
{
    byte.is_ascii_alphabetic() || byte.is_ascii_digit() || byte == b'_'
}

/// How many separators the text begins with.
pub(crate) fn gap_len(text: &[u8]) -> usize
    ensures { result ≡ prefix_len is_separator text.now }
{
    text.iter().take_while(|byte| is_separator(**byte)).count()
}

/// How many letters, digits and underscores the text begins with.
pub(crate) fn name_len(text: &[u8]) -> usize
    ensures { result ≡ prefix_len in_name text.now }
{
    text.iter().take_while(|byte| in_name(**byte)).count()
}

/// How many digits the text begins with.
pub(crate) fn integer_len(text: &[u8]) -> usize
    ensures { result ≡ prefix_len is_ascii_digit text.now }
{
    text.iter().take_while(|byte| byte.is_ascii_digit()).count()
}

/// The keyword that the bytes are, in either case of their letters.
#[tactic(auto, using(crate::proofs::Keywords::in_capitals, crate::proofs::Keywords::in_small, crate::proofs::Keywords::no_keyword))]
pub(crate) fn keyword(bytes: &[u8]) -> Option<Keyword>
    ensures { MatchOption result (NoKeyword bytes.now) (λ k. capitals bytes.now ≡ keyword_text k) }
{
    for keyword in Keyword::ALL {
        if bytes.eq_ignore_ascii_case(keyword.text()) {
            return Some(keyword);
        }
    }
    None
}

/// What a letter, with the letters, digits and underscores behind it, is, if they are few enough.
pub(crate) fn name(bytes: &[u8]) -> Option<Kind>
    requires { Lettered bytes.now }
    ensures { MatchOption result (longest_name < length bytes.now) (Says bytes.now) }
{
    if bytes.len() > LONGEST_NAME {
        return None;
    }
    match keyword(bytes) {
        Some(keyword) => Some(Kind::Reserved(keyword)),
        None => Some(Kind::Name(bytes.len())),
    }
}

/// The value of the digits, if they are few enough and it is small enough.
#[tactic(auto, using(crate::proofs::Decimals::decimal_more, crate::proofs::Decimals::decimal_grows, crate::proofs::Decimals::decimal_done, crate::proofs::Decimals::digit_at))]
pub(crate) fn integer(digits: &[u8]) -> Option<u16>
    requires { Every is_ascii_digit digits.now }
    ensures { MatchOption result
        (length digits.now ≤ most_digits → decimal_value digits.now ≤ largest_integer → ⊥)
        (λ v. (v ≡ decimal_value digits.now) × (length digits.now ≤ most_digits) × (v ≤ largest_integer)) }
{
    if digits.len() > MOST_DIGITS {
        return None;
    }
    let mut value = 0u16;
    for digit in digits {
        value = value
            .checked_mul(10)?
            .checked_add(u16::from(*digit - b'0'))?;
    }
    Some(value)
}

/// The longest sign that the text begins with, and what follows it.
#[tactic(auto, using(std::proofs::lemmas::Grind::common_steps, crate::proofs::Signs::no_longer, crate::proofs::Signs::no_sign))]
pub(crate) fn sign_at(text: &[u8]) -> Option<(Sign, &[u8])>
    ensures { MatchOption result (NoSign text.now) (λ x. FirstSign text.now x.0 x.1.now) }
{
    match text {
        [b'<', b'=', rest @ ..] => Some((Sign::Transfer, rest)),
        [b'=', b'>', rest @ ..] => Some((Sign::Branch, rest)),
        [b'&', b'/', rest @ ..] => Some((Sign::AndReduce, rest)),
        [b'+', b'/', rest @ ..] => Some((Sign::OrReduce, rest)),
        [b'@', b'/', rest @ ..] => Some((Sign::XorReduce, rest)),
        [b'.', rest @ ..] => Some((Sign::Dot, rest)),
        [b':', rest @ ..] => Some((Sign::Colon, rest)),
        [b';', rest @ ..] => Some((Sign::Semicolon, rest)),
        [b',', rest @ ..] => Some((Sign::Comma, rest)),
        [b'(', rest @ ..] => Some((Sign::LeftParen, rest)),
        [b')', rest @ ..] => Some((Sign::RightParen, rest)),
        [b'[', rest @ ..] => Some((Sign::LeftBracket, rest)),
        [b']', rest @ ..] => Some((Sign::RightBracket, rest)),
        [b'/', rest @ ..] => Some((Sign::Slash, rest)),
        [b'\\', rest @ ..] => Some((Sign::Backslash, rest)),
        [b'$', rest @ ..] => Some((Sign::Dollar, rest)),
        [b'&', rest @ ..] => Some((Sign::And, rest)),
        [b'+', rest @ ..] => Some((Sign::Or, rest)),
        [b'@', rest @ ..] => Some((Sign::Xor, rest)),
        [b'^', rest @ ..] => Some((Sign::Not, rest)),
        [b'*', rest @ ..] => Some((Sign::Star, rest)),
        [b'=', rest @ ..] => Some((Sign::Equal, rest)),
        _ => None,
    }
}
