//! The readers of declarations and of a whole module.
#![tactic(auto, using(cursor::proofs::Reading::reading))]

ghost use Rattle.std.specs.Prelude.{◌≡◌, ◌<◌, ◌≤◌, ◌||◌, length, OnOk, IfErr};
ghost use Rattle.words.specs.declared.token.Sign.TheVariants.{Semicolon};
ghost use Rattle.grammar.specs.Sorts.{sort, starts};
ghost use Rattle.grammar.specs.Rules.{mark, ◌then◌, many, list_of, conn, item as item_rule, class as class_rule, decl, step as step_rule, unit};
ghost use Rattle.grammar.specs.Reading.{read};
ghost use Rattle.grammar.specs.Promise.{deepest};
ghost use Rattle.grammar.specs.Drafts.{row_lists, width_of, item_rows, class_of, decl_rows, more_decls, more_steps, conn_rows, more_conns};
ghost use Rattle.cursor.specs.Told.{Told, Wrote, Gave, RowsRoomKept};
ghost use Rattle.parse.specs.Parts.{width as width_rule, item_row, behind, closing as closing_rule, closing_rows, reset as reset_rule, reset_and_closing_rows, control as control_rule, control_rows, body as body_rule, body_given, contents as contents_rule, contents_given, unit_given};

use cursor::{AnyInteger, AnyName, Cursor, Stop};
use grammar::{Class, Heading, Item, Name, Number, Rows};
use statements::{connection, step};
use terms::integers;
use words::{Keyword, Sign};

// Reads the width of a symbol, where one is written.
fn width(cursor: &mut Cursor<'_>) -> Result<Option<Number>, Stop>
    ensures told { Told (read deepest width_rule cursor.old) width_of result cursor.new }
    ensures forward { OnOk result (length cursor.new ≤ length cursor.old) }
    ensures stops { IfErr result (λ e. e ≡ Stop.Unexpected) }
{
    if !cursor.at(Sign::LeftBracket) {
        return Ok(None);
    }
    cursor.take(Sign::LeftBracket)?;
    let bits = cursor.take(AnyInteger)?;
    cursor.take(Sign::RightBracket)?;
    Ok(Some(bits))
}

// Reads a symbol of that class.
fn item(cursor: &mut Cursor<'_>, class: Class, rows: &mut Rows) -> Result<(), Stop>
    ensures told { Wrote (read deepest item_rule cursor.old) (item_row class) (row_lists rows.old) result cursor.new (row_lists rows.new) }
    ensures forward { OnOk result (length cursor.new < length cursor.old) }
    ensures room { RowsRoomKept result cursor.old cursor.new rows.old rows.new }
{
    let name = cursor.take(AnyName)?;
    let width = width(cursor)?;
    rows.items.push(Item { class, name, width })?;
    Ok(())
}

// Reads a further symbol of that class, with the `;` before it.
fn next_item(cursor: &mut Cursor<'_>, class: Class, rows: &mut Rows) -> Result<(), Stop>
    ensures told { Wrote (read deepest (mark Semicolon then item_rule) cursor.old) (behind (item_row class)) (row_lists rows.old) result cursor.new (row_lists rows.new) }
    ensures forward { OnOk result (length cursor.new < length cursor.old) }
    ensures room { RowsRoomKept result cursor.old cursor.new rows.old rows.new }
{
    cursor.take(Sign::Semicolon)?;
    item(cursor, class, rows)
}

// Reads the symbols of a declaration of that class.
fn items(cursor: &mut Cursor<'_>, class: Class, rows: &mut Rows) -> Result<(), Stop>
    ensures told { Wrote (read deepest (list_of item_rule Semicolon) cursor.old) (item_rows class) (row_lists rows.old) result cursor.new (row_lists rows.new) }
    ensures forward { OnOk result (length cursor.new < length cursor.old) }
    ensures room { RowsRoomKept result cursor.old cursor.new rows.old rows.new }
{
    item(cursor, class, rows)?;
    while cursor.at(Sign::Semicolon) {
        next_item(cursor, class, rows)?;
    }
    Ok(())
}

// Reads the keyword of a class.
fn class(cursor: &mut Cursor<'_>) -> Result<Class, Stop>
    ensures told { Told (read deepest class_rule cursor.old) class_of result cursor.new }
    ensures forward { OnOk result (length cursor.new < length cursor.old) }
    ensures stops { IfErr result (λ e. e ≡ Stop.Unexpected) }
{
    if cursor.at(Keyword::Inputs) {
        cursor.take(Keyword::Inputs)?;
        return Ok(Class::Input);
    }
    if cursor.at(Keyword::Outputs) {
        cursor.take(Keyword::Outputs)?;
        return Ok(Class::Output);
    }
    if cursor.at(Keyword::Memory) {
        cursor.take(Keyword::Memory)?;
        return Ok(Class::Memory);
    }
    cursor.take(Keyword::Buses)?;
    Ok(Class::Bus)
}

// Whether a declaration stands next.
fn at_declaration(cursor: &Cursor<'_>) -> bool
    ensures { result ≡ starts decl (sort cursor.now) }
{
    cursor.at(Keyword::Inputs)
        || cursor.at(Keyword::Outputs)
        || cursor.at(Keyword::Memory)
        || cursor.at(Keyword::Buses)
}

// Reads a declaration.
fn declaration(cursor: &mut Cursor<'_>, rows: &mut Rows) -> Result<(), Stop>
    ensures told { Wrote (read deepest decl cursor.old) decl_rows (row_lists rows.old) result cursor.new (row_lists rows.new) }
    ensures forward { OnOk result (length cursor.new < length cursor.old) }
    ensures room { RowsRoomKept result cursor.old cursor.new rows.old rows.new }
{
    let class = class(cursor)?;
    cursor.take(Sign::Colon)?;
    items(cursor, class, rows)?;
    cursor.take(Sign::Dot)?;
    Ok(())
}

// Reads declarations as long as one stands next.
fn declarations(cursor: &mut Cursor<'_>, rows: &mut Rows) -> Result<(), Stop>
    ensures told { Wrote (read deepest (many decl) cursor.old) more_decls (row_lists rows.old) result cursor.new (row_lists rows.new) }
    ensures forward { OnOk result (length cursor.new ≤ length cursor.old) }
    ensures room { RowsRoomKept result cursor.old cursor.new rows.old rows.new }
{
    while at_declaration(cursor) {
        declaration(cursor, rows)?;
    }
    Ok(())
}

// Reads control steps as long as one stands next.
fn steps(cursor: &mut Cursor<'_>, rows: &mut Rows) -> Result<(), Stop>
    ensures told { Wrote (read deepest (many step_rule) cursor.old) more_steps (row_lists rows.old) result cursor.new (row_lists rows.new) }
    ensures forward { OnOk result (length cursor.new ≤ length cursor.old) }
    ensures room { RowsRoomKept result cursor.old cursor.new rows.old rows.new }
{
    while cursor.at(AnyInteger) {
        step(cursor, rows)?;
    }
    Ok(())
}

// Reads a connection behind CONTROLRESET, with the `;` before it.
fn next_connection(cursor: &mut Cursor<'_>, rows: &mut Rows) -> Result<(), Stop>
    ensures told { Wrote (read deepest (mark Semicolon then conn) cursor.old) (behind conn_rows) (row_lists rows.old) result cursor.new (row_lists rows.new) }
    ensures forward { OnOk result (length cursor.new < length cursor.old) }
    ensures room { RowsRoomKept result cursor.old cursor.new rows.old rows.new }
{
    cursor.take(Sign::Semicolon)?;
    connection(cursor, rows)
}

// Reads the connections behind CONTROLRESET.
fn connections(cursor: &mut Cursor<'_>, rows: &mut Rows) -> Result<(), Stop>
    ensures told { Wrote (read deepest (many (mark Semicolon then conn)) cursor.old) more_conns (row_lists rows.old) result cursor.new (row_lists rows.new) }
    ensures forward { OnOk result (length cursor.new ≤ length cursor.old) }
    ensures room { RowsRoomKept result cursor.old cursor.new rows.old rows.new }
{
    while cursor.at(Sign::Semicolon) {
        next_connection(cursor, rows)?;
    }
    Ok(())
}

// Reads a module from behind the list of CONTROLRESET on.
fn closing(cursor: &mut Cursor<'_>, rows: &mut Rows) -> Result<(), Stop>
    ensures told { Wrote (read deepest closing_rule cursor.old) closing_rows (row_lists rows.old) result cursor.new (row_lists rows.new) }
    ensures room { RowsRoomKept result cursor.old cursor.new rows.old rows.new }
{
    connections(cursor, rows)?;
    cursor.take(Sign::Dot)?;
    cursor.take(Keyword::End)?;
    cursor.take(Sign::Dot)?;
    Ok(())
}

// Reads a module from ENDSEQUENCE on: the steps that CONTROLRESET enters, and what is behind them.
fn reset(cursor: &mut Cursor<'_>, rows: &mut Rows) -> Result<(), Stop>
    ensures told { Wrote (read deepest reset_rule cursor.old) reset_and_closing_rows (row_lists rows.old) result cursor.new (row_lists rows.new) }
    ensures room { RowsRoomKept result cursor.old cursor.new rows.old rows.new }
{
    cursor.take(Keyword::EndSequence)?;
    cursor.take(Keyword::ControlReset)?;
    cursor.take(Sign::LeftParen)?;
    integers(cursor, &mut rows.resets)?;
    cursor.take(Sign::RightParen)?;
    closing(cursor, rows)
}

// Reads a module from its first control step on.
fn control(cursor: &mut Cursor<'_>, rows: &mut Rows) -> Result<(), Stop>
    ensures told { Wrote (read deepest control_rule cursor.old) control_rows (row_lists rows.old) result cursor.new (row_lists rows.new) }
    ensures room { RowsRoomKept result cursor.old cursor.new rows.old rows.new }
{
    step(cursor, rows)?;
    steps(cursor, rows)?;
    reset(cursor, rows)
}

// Reads a module from BODY on, and answers the clock's name.
fn body(cursor: &mut Cursor<'_>, rows: &mut Rows) -> Result<Name, Stop>
    ensures told { Gave (read deepest body_rule cursor.old) body_given (row_lists rows.old) result cursor.new (row_lists rows.new) }
    ensures room { RowsRoomKept result cursor.old cursor.new rows.old rows.new }
{
    cursor.take(Keyword::Body)?;
    cursor.take(Keyword::Sequence)?;
    cursor.take(Sign::Colon)?;
    let clock = cursor.take(AnyName)?;
    cursor.take(Sign::Dot)?;
    control(cursor, rows)?;
    Ok(clock)
}

// Reads a module from its first declaration on, and answers the clock's name.
fn contents(cursor: &mut Cursor<'_>, rows: &mut Rows) -> Result<Name, Stop>
    ensures told { Gave (read deepest contents_rule cursor.old) contents_given (row_lists rows.old) result cursor.new (row_lists rows.new) }
    ensures room { RowsRoomKept result cursor.old cursor.new rows.old rows.new }
{
    declaration(cursor, rows)?;
    declarations(cursor, rows)?;
    body(cursor, rows)
}

/// Reads a module: its rows come behind those that stand already, and its names are answered. What stands behind it is left.
pub fn parse_module(cursor: &mut Cursor<'_>, rows: &mut Rows) -> Result<Heading, Stop>
    ensures told { Gave (read deepest unit cursor.old) unit_given (row_lists rows.old) result cursor.new (row_lists rows.new) }
    ensures room { RowsRoomKept result cursor.old cursor.new rows.old rows.new }
{
    cursor.take(Keyword::Module)?;
    cursor.take(Sign::Colon)?;
    let title = cursor.take(AnyName)?;
    cursor.take(Sign::Dot)?;
    let clock = contents(cursor, rows)?;
    Ok(Heading { title, clock })
}
