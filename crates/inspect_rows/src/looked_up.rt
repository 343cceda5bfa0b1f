//! Rows and bits that rows name.
ghost use Rattle.std.specs.Prelude.{Option};
ghost use Rattle.least.specs.Each.{IsRow};
ghost use Rattle.database.specs.Soundness.{ClassStands, NamesBits};
ghost use Rattle.control.specs.Databases.{rows_of};
ghost use Rattle.control.specs.Deciding.{Decides};

use control::Rows;
use database::class_of;
use grammar::Class;
use symbols::Standing;

// Whether there is a row of that number.
pub(crate) fn is_row<T>(table: &[T], number: usize) -> bool
    ensures { Decides result (IsRow table.now number) }
{
    1 <= number && number <= table.len()
}

// Whether a symbol of that class, if it is one, may stand so.
fn class_stands(standing: Standing, class: Option<Class>) -> bool
    ensures { Decides result (ClassStands standing class) }
{
    match (standing, class) {
        (Standing::Read, Some(Class::Input | Class::Memory | Class::Bus)) => true,
        (Standing::Loaded, Some(Class::Memory)) => true,
        (Standing::Driven, Some(Class::Output | Class::Bus)) => true,
        _ => false,
    }
}

// Whether a number names a symbol that may stand so, and these are bits of it.
pub(crate) fn names_bits(
    rows: &Rows,
    standing: Standing,
    number: usize,
    first: usize,
    last: usize,
) -> bool
    ensures { Decides result (NamesBits (rows_of rows.now) standing number first last) }
{
    let symbol = rows.symbol(number);
    is_row(rows.symbols, number)
        && class_stands(standing, class_of(symbol.class))
        && first <= last
        && last < symbol.width
}
