//! The symbols of a class, and their points.
ghost use Rattle.std.specs.Prelude.{◌≡◌, ◌+◌, ◌≤◌, ◌==◌, Some};
ghost use Rattle.least.specs.Each.{IsRow};
ghost use Rattle.control.specs.Databases.{rows_of};
ghost use Rattle.control.specs.Points.{rank, rank_of, width_of, base};
ghost use Rattle.lines.specs.NameLines.{printed_classes};

use database::class_code;
use design::Design;
use grammar::Class;
use std::ops::Range;

/// The classes that are printed, in their order.
pub(crate) fn printed_classes() -> [Class; 3]
    ensures { result ≡ printed_classes }
{
    [Class::Memory, Class::Bus, Class::Output]
}

/// Whether a symbol is of a class.
pub(crate) fn is_of_class(design: &Design<'_>, symbol: usize, class: Class) -> bool
    ensures { result ≡ (rank_of (rows_of design.now.rows) symbol == rank (Some class)) }
{
    design.rows().symbol(symbol).class == class_code(class)
}

/// The points of a symbol's bits.
pub(crate) fn points_of(design: &Design<'_>, symbol: usize) -> Range<usize>
    requires row { IsRow (rows_of design.now.rows).symbols symbol }
    ensures start { result.start ≡ base (rows_of design.now.rows) symbol }
    ensures end { result.end ≡ base (rows_of design.now.rows) symbol + width_of (rows_of design.now.rows) symbol }
    ensures few { result.end ≤ 1024 }
{
    let first = design.base(symbol);
    first..first + design.rows().symbol(symbol).width
}
