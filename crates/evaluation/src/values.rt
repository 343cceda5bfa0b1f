//! The levels of nodes.
ghost use Rattle.std.specs.Prelude.{◌≡◌, ℕ, ◌-◌, ◌/◌, ◌%◌, ◌^◌, ◌<◌, ◌≤◌, nat_lt, cond, length};
ghost use Rattle.level.specs.Letters.{and_l, or_l, xor_l, zero_l, one_l, bit_letter};
ghost use Rattle.least.specs.Each.{IsRow};
ghost use Rattle.database.specs.Rows.{node};
ghost use Rattle.control.specs.Points.{width_of, point_of, bit_row};
ghost use Rattle.control.specs.Databases.{rows_of};
ghost use Rattle.control.specs.Letters.{node_bit as node_letter_at, joined, side as side_letter, node_letter};
ghost use Rattle.control.specs.Levels.{lane, LevelIs};

use database::NodeSign;
use design::Design;
use level::Level;
use symbols::MOST_BITS;

// How many rows the working table has for points, before those of nodes.
const POINT_ROWS: usize = 1088;

// The row of a node's bit: each node has as many rows as the widest.
pub(crate) fn bit_row(n: usize, b: usize) -> usize
    requires row { 1 ≤ n }
    requires few { n ≤ 512 }
    requires bit { b < 32 }
    ensures { result ≡ bit_row n b }
{
    POINT_ROWS + MOST_BITS * (n - 1) + b
}

/// The level of a node's bit, as it stands in the working table.
pub fn node_bit<L: Level>(work: &[L], n: usize, b: usize) -> L
    requires row { 1 ≤ n }
    requires few { n ≤ 512 }
    requires bit { b < 32 }
    requires room { 17472 ≤ length work.now }
    ensures { LevelIs L.Level result (λ k. node_letter_at (lane L.Level work.now k) n b) }
{
    work[bit_row(n, b)]
}

/// The OR of the first bits of a node.
pub fn or_bits<L: Level>(work: &[L], n: usize, width: usize) -> L
    requires row { 1 ≤ n }
    requires few { n ≤ 512 }
    requires bit { width ≤ 32 }
    requires room { 17472 ≤ length work.now }
    ensures { LevelIs L.Level result (λ k. joined or_l zero_l (node_letter_at (lane L.Level work.now k) n) width) }
{
    let mut some = L::zero();
    for b in 0..width {
        some = some.or(node_bit(work, n, b));
    }
    some
}

// The AND of the first bits of a node.
fn and_bits<L: Level>(work: &[L], n: usize, width: usize) -> L
    requires row { 1 ≤ n }
    requires few { n ≤ 512 }
    requires bit { width ≤ 32 }
    requires room { 17472 ≤ length work.now }
    ensures { LevelIs L.Level result (λ k. joined and_l one_l (node_letter_at (lane L.Level work.now k) n) width) }
{
    let mut all = L::one();
    for b in 0..width {
        all = all.and(node_bit(work, n, b));
    }
    all
}

// The XOR of the first bits of a node.
fn xor_bits<L: Level>(work: &[L], n: usize, width: usize) -> L
    requires row { 1 ≤ n }
    requires few { n ≤ 512 }
    requires bit { width ≤ 32 }
    requires room { 17472 ≤ length work.now }
    ensures { LevelIs L.Level result (λ k. joined xor_l zero_l (node_letter_at (lane L.Level work.now k) n) width) }
{
    let mut odd = L::zero();
    for b in 0..width {
        odd = odd.xor(node_bit(work, n, b));
    }
    odd
}

// The level of a constant's bit, counted from the least.
fn constant_bit<L: Level>(value: usize, place: usize) -> L
    requires { place < 32 }
    ensures { LevelIs L.Level result (λ k. bit_letter (value / 2 ^ place % 2)) }
{
    if (value >> place) % 2 == 1 {
        L::one()
    } else {
        L::zero()
    }
}

// The level of an operand's bit, where one bit is repeated.
fn side<L: Level>(design: &Design<'_>, work: &[L], n: usize, b: usize) -> L
    requires row { IsRow (rows_of design.now.rows).nodes n }
    requires bit { b < 32 }
    requires room { 17472 ≤ length work.now }
    ensures { LevelIs L.Level result (λ k. side_letter (rows_of design.now.rows) (lane L.Level work.now k) n b) }
{
    if design.rows().node(n).width == 1 {
        node_bit(work, n, 0)
    } else {
        node_bit(work, n, b)
    }
}

// The level of a bit of two operands side by side.
fn beside<L: Level>(design: &Design<'_>, work: &[L], left: usize, right: usize, b: usize) -> L
    requires left { IsRow (rows_of design.now.rows).nodes left }
    requires right { IsRow (rows_of design.now.rows).nodes right }
    requires bit { b < 32 }
    requires room { 17472 ≤ length work.now }
    ensures { LevelIs L.Level result (λ k. cond (nat_lt b (node (rows_of design.now.rows) left).width) (node_letter_at (lane L.Level work.now k) left b) (node_letter_at (lane L.Level work.now k) right (b - (node (rows_of design.now.rows) left).width))) }
{
    let width = design.rows().node(left).width;
    if b < width {
        node_bit(work, left, b)
    } else {
        node_bit(work, right, b - width)
    }
}

// The level of a symbol's bit.
fn symbol_bit<L: Level>(design: &Design<'_>, work: &[L], symbol: usize, b: usize) -> L
    requires row { IsRow (rows_of design.now.rows).symbols symbol }
    requires bit { b < width_of (rows_of design.now.rows) symbol }
    requires room { 17472 ≤ length work.now }
    ensures { LevelIs L.Level result (λ k. lane L.Level work.now k (point_of (rows_of design.now.rows) symbol b)) }
{
    work[design.base(symbol) + b]
}

// The level that the sign of a node makes of its operands.
pub(crate) fn bit<L: Level>(design: &Design<'_>, work: &[L], n: usize, b: usize) -> L
    requires row { IsRow (rows_of design.now.rows).nodes n }
    requires bit { b < (node (rows_of design.now.rows) n).width }
    requires room { 17472 ≤ length work.now }
    ensures { LevelIs L.Level result (λ k. node_letter (rows_of design.now.rows) (lane L.Level work.now k) n b) }
{
    let node = design.rows().node(n);
    let (left, right) = (node.left, node.right);
    match NodeSign::from_code(node.sign) {
        Some(NodeSign::Name) => symbol_bit(design, work, node.symbol, node.first + b),
        Some(NodeSign::Constant) => constant_bit(node.value, node.width - 1 - b),
        Some(NodeSign::Comma) => beside(design, work, left, right, b),
        Some(NodeSign::And) => side(design, work, left, b).and(side(design, work, right, b)),
        Some(NodeSign::Or) => side(design, work, left, b).or(side(design, work, right, b)),
        Some(NodeSign::Xor) => side(design, work, left, b).xor(side(design, work, right, b)),
        Some(NodeSign::Not) => node_bit(work, left, b).not(),
        Some(NodeSign::AndReduce) => and_bits(work, left, design.rows().node(left).width),
        Some(NodeSign::OrReduce) => or_bits(work, left, design.rows().node(left).width),
        Some(NodeSign::XorReduce) => xor_bits(work, left, design.rows().node(left).width),
        None => unreachable!(),
    }
}
