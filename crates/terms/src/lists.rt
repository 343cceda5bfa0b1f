//! Lists of integers.
ghost use Rattle.std.specs.Prelude.{◌≡◌, ℕ, ◌<◌, ◌∷◌, ◌++◌, List, [], length, OnOk, vec_items};
ghost use Rattle.grammar.specs.Rules.{integer as integer_rule, integers as integers_rule};
ghost use Rattle.grammar.specs.Reading.{read};
ghost use Rattle.grammar.specs.Drafts.{listed, listed_at};
ghost use Rattle.cursor.specs.Told.{Wrote, ListRoomKept};

use cursor::{AnyInteger, Cursor, Stop};
use grammar::Listed;
use words::Sign;

/// Reads a list of integers; they come behind those that stand already.
pub fn integers(cursor: &mut Cursor<'_>, list: &mut Vec<Listed>) -> Result<(), Stop>
    ensures told { (n : ℕ) → Wrote (read n integers_rule cursor.old) listed (vec_items list.old) result cursor.new (vec_items list.new) }
    ensures forward { OnOk result (length cursor.new < length cursor.old) }
    ensures room { ListRoomKept result cursor.old cursor.new list.old list.new }
{
    listed_integer(cursor, None, list)?;
    while let Ok(comma) = cursor.take(Sign::Comma) {
        listed_integer(cursor, Some(comma), list)?;
    }
    Ok(())
}

// Reads one integer of a list. `comma` is the place of the comma before it.
#[tactic(auto, using(cursor::proofs::Steps::word_is))]
fn listed_integer(
    cursor: &mut Cursor<'_>,
    comma: Option<usize>,
    list: &mut Vec<Listed>,
) -> Result<(), Stop>
    ensures told { (n : ℕ) → Wrote (read n integer_rule cursor.old) (λ i xs. xs ++ listed_at comma i ∷ []) (vec_items list.old) result cursor.new (vec_items list.new) }
    ensures forward { OnOk result (length cursor.new < length cursor.old) }
    ensures room { ListRoomKept result cursor.old cursor.new list.old list.new }
{
    let integer = cursor.take(AnyInteger)?;
    list.push(Listed { comma, integer })?;
    Ok(())
}
