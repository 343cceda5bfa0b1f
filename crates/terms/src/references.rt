//! References: names with or without a subscript.
ghost use Rattle.std.specs.Prelude.{◌≡◌, ℕ, ◌<◌, ◌≤◌, length, IfErr, OnOk};
ghost use Rattle.words.specs.declared.token.Sign.TheVariants.{Colon};
ghost use Rattle.grammar.specs.Rules.{mark, integer as integer_rule, ◌then◌, maybe, ref};
ghost use Rattle.grammar.specs.Reading.{read};
ghost use Rattle.grammar.specs.Drafts.{subscript_of, ref_of};
ghost use Rattle.cursor.specs.Told.{Told};
ghost use Rattle.terms.specs.Subscripts.{subscript_rule, last_of, maybe_subscript};

use cursor::{AnyInteger, AnyName, Cursor, Stop};
use grammar::{Reference, Subscript};
use words::Sign;

/// Reads a name with or without a subscript.
pub fn reference(cursor: &mut Cursor<'_>) -> Result<Reference, Stop>
    ensures told { (n : ℕ) → Told (read n ref cursor.old) ref_of result cursor.new }
    ensures forward { OnOk result (length cursor.new < length cursor.old) }
    ensures stops { IfErr result (λ e. e ≡ Stop.Unexpected) }
{
    let name = cursor.take(AnyName)?;
    let subscript = optional_subscript(cursor)?;
    Ok(Reference { name, subscript })
}

// Reads a subscript, where one stands next.
fn optional_subscript(cursor: &mut Cursor<'_>) -> Result<Option<Subscript>, Stop>
    ensures told { (n : ℕ) → Told (read n (maybe subscript_rule) cursor.old) maybe_subscript result cursor.new }
    ensures forward { OnOk result (length cursor.new ≤ length cursor.old) }
    ensures stops { IfErr result (λ e. e ≡ Stop.Unexpected) }
{
    if !cursor.at(Sign::LeftBracket) {
        return Ok(None);
    }
    Ok(Some(subscript(cursor)?))
}

// Reads a subscript. Without a `:` the last is the first.
fn subscript(cursor: &mut Cursor<'_>) -> Result<Subscript, Stop>
    ensures told { (n : ℕ) → Told (read n subscript_rule cursor.old) subscript_of result cursor.new }
    ensures forward { OnOk result (length cursor.new < length cursor.old) }
    ensures stops { IfErr result (λ e. e ≡ Stop.Unexpected) }
{
    let place = cursor.take(Sign::LeftBracket)?;
    let first = cursor.take(AnyInteger)?.value;
    let last = last(cursor, first)?;
    cursor.take(Sign::RightBracket)?;
    Ok(Subscript { place, first, last })
}

// Reads the last of a subscript, which is the first where no `:` stands next.
fn last(cursor: &mut Cursor<'_>, first: u16) -> Result<u16, Stop>
    ensures told { (n : ℕ) → Told (read n (maybe (mark Colon then integer_rule)) cursor.old) (λ q. last_of q first) result cursor.new }
    ensures forward { OnOk result (length cursor.new ≤ length cursor.old) }
    ensures stops { IfErr result (λ e. e ≡ Stop.Unexpected) }
{
    if !cursor.at(Sign::Colon) {
        return Ok(first);
    }
    cursor.take(Sign::Colon)?;
    Ok(cursor.take(AnyInteger)?.value)
}
