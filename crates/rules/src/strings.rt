//! Bit strings.
ghost use Rattle.std.specs.Prelude.{◌≡◌, ℕ, ◌≤◌, length, IfErr, OnOk, vec_items};
ghost use Rattle.grammar.specs.Room.{Reserved};
ghost use Rattle.least.specs.Order.{Notes};
ghost use Rattle.rules.specs.Strings.{bit_faults, bit_width, digit_faults, value_up_to, string_up_to, strings as all_strings, digits_faults};

use crate::measures::{BitString, NO_STRING};
use grammar::Listed;
use least::{Least, Rule};
use std::alloc::AllocError;
use symbols::{last_of, note_up_to, width_unless};

// A string's value with one bit more, of which 32 bits are kept.
fn value_up_to(comma: Option<usize>, before: u32, bit: u16) -> u32
    ensures { result ≡ value_up_to comma before bit }
{
    match comma {
        None => u32::from(bit),
        Some(_) => before.wrapping_mul(2).wrapping_add(u32::from(bit)),
    }
}

// The width of an integer of a bit string, unless it is faulty. Notes that it is not 0 or 1.
fn note_bit(digit: Listed, least: &mut Least) -> Option<usize>
    ensures notes { Notes least.old (bit_faults digit) least.new }
    ensures value { result ≡ bit_width digit }
{
    let is_other = 1 < digit.integer.value;
    least.note_if(is_other, digit.integer.place, Rule::OutOfRange);
    width_unless(is_other, Some(1))
}

// The string up to an integer, from the strings up to those before it. Notes the integer's faults.
fn note_digit(before: &[BitString], digit: Listed, least: &mut Least) -> BitString
    ensures notes { Notes least.old (digit_faults before.now digit) least.new }
    ensures value { result ≡ string_up_to before.now digit }
{
    let last = last_of(before, NO_STRING);
    let own = note_bit(digit, least);
    let width = note_up_to(digit.comma, last.width, own, least);
    let value = value_up_to(digit.comma, last.value, digit.integer.value);
    BitString { width, value }
}

// Measures the strings up to each of their integers. Notes the faults of all integers.
pub(crate) fn note_digits(
    digits: &[Listed],
    strings: &mut Vec<BitString>,
    least: &mut Least,
) -> Result<(), AllocError>
    ensures notes { OnOk result (Notes least.old (digits_faults digits.now) least.new) }
    ensures values { OnOk result (vec_items strings.new ≡ all_strings digits.now) }
    ensures memory { (limit : ℕ) → Reserved limit strings.old → Reserved limit strings.new }
    ensures room { (limit : ℕ) → Reserved limit strings.old → length digits.now ≤ limit → IfErr result (λ _. ⊥) }
{
    strings.clear();
    for digit in digits {
        let string = note_digit(strings, *digit, least);
        strings.push(string)?;
    }
    Ok(())
}
