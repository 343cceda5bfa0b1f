//! Rows that are counted from 1, and the widths that sides have: a side with a fault in it has none, and is not compared.
ghost use Rattle.std.specs.Prelude.{◌≡◌, ◌+◌, cond, max, None};
ghost use Rattle.least.specs.Order.{Notes};
ghost use Rattle.least.specs.Each.{row_at, last_of};
ghost use Rattle.symbols.specs.Widths.{unless_faulty, both, disagree, wide, unlike, unequal, comma_faults, width_up_to};

use crate::items::MOST_BITS;
use least::{Least, Rule};

/// What stands in a row. Rows count from 1, and 0 is none.
pub fn row_at<T: Copy>(rows: &[T], row: usize, none: T) -> T
    ensures { result ≡ row_at none rows.now row }
{
    if 0 < row && row <= rows.len() {
        rows[row - 1]
    } else {
        none
    }
}

/// What stands in the last row.
pub fn last_of<T: Copy>(rows: &[T], none: T) -> T
    ensures { result ≡ last_of none rows.now }
{
    row_at(rows, rows.len(), none)
}

/// The width of a side, unless it is faulty.
pub fn width_unless(faulty: bool, width: Option<usize>) -> Option<usize>
    ensures { result ≡ cond faulty None width }
{
    if faulty { None } else { width }
}

/// Notes at a place that two sides are not equally wide.
pub fn note_unequal(a: Option<usize>, b: Option<usize>, place: usize, least: &mut Least)
    ensures { Notes least.old (disagree unequal place a b) least.new }
{
    if let (Some(a), Some(b)) = (a, b) {
        least.note_if(a != b, place, Rule::Widths);
    }
}

/// The width of two sides that stand side by side. Notes at a place that it is more than 32.
pub fn note_beside(
    a: Option<usize>,
    b: Option<usize>,
    place: usize,
    least: &mut Least,
) -> Option<usize>
    ensures notes { Notes least.old (disagree wide place a b) least.new }
    ensures value { result ≡ unless_faulty (disagree wide place a b) (both ◌+◌ a b) }
{
    let (a, b) = (a?, b?);
    let width = a.saturating_add(b);
    least.note_if(MOST_BITS < width, place, Rule::Widths);
    width_unless(MOST_BITS < width, Some(width))
}

// Whether two widths neither are equal nor is one of them a single bit, which would be repeated.
fn is_unlike(a: usize, b: usize) -> bool
    ensures { result ≡ unlike a b }
{
    !(a == b || a == 1 || b == 1)
}

/// The width of two sides that are joined bit by bit. Notes at a place that they are not alike.
pub fn note_joined(
    a: Option<usize>,
    b: Option<usize>,
    place: usize,
    least: &mut Least,
) -> Option<usize>
    ensures notes { Notes least.old (disagree unlike place a b) least.new }
    ensures value { result ≡ unless_faulty (disagree unlike place a b) (both max a b) }
{
    let (a, b) = (a?, b?);
    let faulty = is_unlike(a, b);
    least.note_if(faulty, place, Rule::Widths);
    width_unless(faulty, Some(a.max(b)))
}

/// The width of a list whose parts stand side by side, up to a part: from the width before it, and the part's own. Notes at
/// the comma before the part, if it is not the first, that the width is more than 32.
pub fn note_up_to(
    comma: Option<usize>,
    before: Option<usize>,
    own: Option<usize>,
    least: &mut Least,
) -> Option<usize>
    ensures notes { Notes least.old (comma_faults comma before own) least.new }
    ensures value { result ≡ width_up_to comma before own }
{
    match comma {
        None => own,
        Some(place) => note_beside(before, own, place, least),
    }
}
