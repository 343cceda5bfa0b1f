//! Expressions. `left` is how many nestings may still be opened.
ghost use Rattle.std.specs.Prelude.{◌≡◌, ℕ, ◌+◌, ◌<◌, length, IfErr, OnOk, MatchResult};
ghost use Rattle.grammar.specs.Rules.{group as group_part, signed, part, ref, primary as primary_rule, prefix_sign as prefix_sign_rule, prefix as prefix_rule, and as and_rule, xor as xor_rule, or as or_rule, expr as expr_rule};
ghost use Rattle.grammar.specs.Sorts.{sort, opens};
ghost use Rattle.grammar.specs.Reading.{read};
ghost use Rattle.grammar.specs.Promise.{deepest};
ghost use Rattle.grammar.specs.Drafts.{term_lists, root as root_row, with_node, node_at, primary_rows, prefix_rows, and_rows, xor_rows, or_rows, expr_rows};
ghost use Rattle.grammar.specs.Room.{TermsRoom, TermsReserved};
ghost use Rattle.cursor.specs.Told.{Told, Wrote, RoomLeft, TermsRoomKept};
ghost use Rattle.cursor.specs.declared.stop.Stop.TheVariants.{TooDeep, OutOfMemory};
ghost use Rattle.terms.specs.Expressions.{bits_rows, string_rule, string_rows, sized_rule, sized_rows, group_rows, sign_of, form_of};

use crate::lists::integers;
use crate::references::reference;
use cursor::{AnyInteger, AnyName, Cursor, Stop};
use grammar::{Form, Gate, Node, Terms};
use words::Sign;

// How deep expressions may nest.
const DEEPEST: u8 = 16;

/// Reads an expression: its rows come behind those that stand already, that of its last operator at the end. `driven` is
/// the last target of the statement whose value it is; the expression of a condition has none.
pub fn expression(
    cursor: &mut Cursor<'_>,
    terms: &mut Terms,
    driven: Option<usize>,
) -> Result<(), Stop>
    ensures told { Wrote (read deepest expr_rule cursor.old) (λ t. expr_rows t driven) (term_lists terms.old) result cursor.new (term_lists terms.new) }
    ensures forward { OnOk result (length cursor.new < length cursor.old) }
    ensures room { TermsRoomKept result cursor.old cursor.new terms.old terms.new }
{
    expr(cursor, terms, driven, DEEPEST)
}

// expr: or {, or}
#[cycle(expression)]
fn expr(
    cursor: &mut Cursor<'_>,
    terms: &mut Terms,
    driven: Option<usize>,
    left: u8,
) -> Result<(), Stop>
    ensures told { Wrote (read left expr_rule cursor.old) (λ t. expr_rows t driven) (term_lists terms.old) result cursor.new (term_lists terms.new) }
    ensures forward { OnOk result (length cursor.new < length cursor.old) }
    ensures room { TermsRoomKept result cursor.old cursor.new terms.old terms.new }
{
    or(cursor, terms, driven, left)?;
    while let Ok(place) = cursor.take(Sign::Comma) {
        let first = root(terms);
        or(cursor, terms, driven, left)?;
        let second = root(terms);
        push(terms, place, driven, Form::Comma(first, second))?;
    }
    Ok(())
}

// or: xor {+ xor}
#[cycle(expression)]
fn or(
    cursor: &mut Cursor<'_>,
    terms: &mut Terms,
    driven: Option<usize>,
    left: u8,
) -> Result<(), Stop>
    ensures told { Wrote (read left or_rule cursor.old) (λ t. or_rows t driven) (term_lists terms.old) result cursor.new (term_lists terms.new) }
    ensures forward { OnOk result (length cursor.new < length cursor.old) }
    ensures room { TermsRoomKept result cursor.old cursor.new terms.old terms.new }
{
    xor(cursor, terms, driven, left)?;
    while let Ok(place) = cursor.take(Sign::Or) {
        let first = root(terms);
        xor(cursor, terms, driven, left)?;
        let second = root(terms);
        push(terms, place, driven, Form::Join(Gate::Or, first, second))?;
    }
    Ok(())
}

// xor: and {@ and}
#[cycle(expression)]
fn xor(
    cursor: &mut Cursor<'_>,
    terms: &mut Terms,
    driven: Option<usize>,
    left: u8,
) -> Result<(), Stop>
    ensures told { Wrote (read left xor_rule cursor.old) (λ t. xor_rows t driven) (term_lists terms.old) result cursor.new (term_lists terms.new) }
    ensures forward { OnOk result (length cursor.new < length cursor.old) }
    ensures room { TermsRoomKept result cursor.old cursor.new terms.old terms.new }
{
    and(cursor, terms, driven, left)?;
    while let Ok(place) = cursor.take(Sign::Xor) {
        let first = root(terms);
        and(cursor, terms, driven, left)?;
        let second = root(terms);
        push(terms, place, driven, Form::Join(Gate::Xor, first, second))?;
    }
    Ok(())
}

// and: prefix {& prefix}
#[cycle(expression)]
fn and(
    cursor: &mut Cursor<'_>,
    terms: &mut Terms,
    driven: Option<usize>,
    left: u8,
) -> Result<(), Stop>
    ensures told { Wrote (read left and_rule cursor.old) (λ t. and_rows t driven) (term_lists terms.old) result cursor.new (term_lists terms.new) }
    ensures forward { OnOk result (length cursor.new < length cursor.old) }
    ensures room { TermsRoomKept result cursor.old cursor.new terms.old terms.new }
{
    prefix(cursor, terms, driven, left)?;
    while let Ok(place) = cursor.take(Sign::And) {
        let first = root(terms);
        prefix(cursor, terms, driven, left)?;
        let second = root(terms);
        push(terms, place, driven, Form::Join(Gate::And, first, second))?;
    }
    Ok(())
}

// prefix: {^ | &/ | +/ | @/} primary, each sign nesting what follows it
#[cycle(expression)]
fn prefix(
    cursor: &mut Cursor<'_>,
    terms: &mut Terms,
    driven: Option<usize>,
    left: u8,
) -> Result<(), Stop>
    ensures told { Wrote (read left prefix_rule cursor.old) (λ t. prefix_rows t driven) (term_lists terms.old) result cursor.new (term_lists terms.new) }
    ensures forward { OnOk result (length cursor.new < length cursor.old) }
    ensures room { TermsRoomKept result cursor.old cursor.new terms.old terms.new }
{
    if !at_prefix_sign(cursor) {
        return primary(cursor, terms, driven, left);
    }
    let inner = nested(left)?;
    let sign = prefix_sign(cursor)?;
    prefix(cursor, terms, driven, inner)?;
    let operand = root(terms);
    push(terms, sign.place, driven, sign.form(operand))
}

// primary: ref | \ list \ | integer $ integer | (expr)
#[cycle(expression)]
fn primary(
    cursor: &mut Cursor<'_>,
    terms: &mut Terms,
    driven: Option<usize>,
    left: u8,
) -> Result<(), Stop>
    ensures told { Wrote (read left primary_rule cursor.old) (λ t. primary_rows t driven) (term_lists terms.old) result cursor.new (term_lists terms.new) }
    ensures forward { OnOk result (length cursor.new < length cursor.old) }
    ensures room { TermsRoomKept result cursor.old cursor.new terms.old terms.new }
{
    if cursor.at(AnyName) {
        return bits(cursor, terms, driven);
    }
    if cursor.at(Sign::Backslash) {
        return bit_string(cursor, terms, driven);
    }
    if cursor.at(AnyInteger) {
        return sized(cursor, terms, driven);
    }
    group(cursor, terms, driven, left)
}

// (expr), which nests what stands between
#[cycle(expression)]
fn group(
    cursor: &mut Cursor<'_>,
    terms: &mut Terms,
    driven: Option<usize>,
    left: u8,
) -> Result<(), Stop>
    ensures told { Wrote (read left (part group_part) cursor.old) (λ t. group_rows t driven) (term_lists terms.old) result cursor.new (term_lists terms.new) }
    ensures forward { OnOk result (length cursor.new < length cursor.old) }
    ensures room { TermsRoomKept result cursor.old cursor.new terms.old terms.new }
{
    if !cursor.at(Sign::LeftParen) {
        return Err(Stop::Unexpected);
    }
    let inner = nested(left)?;
    cursor.take(Sign::LeftParen)?;
    expr(cursor, terms, driven, inner)?;
    cursor.take(Sign::RightParen)?;
    Ok(())
}

// Opens one nesting more, and answers how many may still be opened within it.
fn nested(left: u8) -> Result<u8, Stop>
    ensures { MatchResult result (λ inner. left ≡ inner + 1) (λ e. (e ≡ TooDeep) × (left ≡ 0)) }
{
    left.checked_sub(1).ok_or(Stop::TooDeep)
}

// A prefix sign: its place, and the gate that joins all bits into one. `^` has none, and turns each bit.
#[derive(Clone, Copy)]
struct PrefixSign {
    place: usize,
    gate: Option<Gate>,
}

impl PrefixSign {
    // The form of its node, over that operand.
    fn form(self, operand: usize) -> Form
        ensures { result ≡ form_of self operand }
    {
        match self.gate {
            None => Form::Not(operand),
            Some(gate) => Form::Reduce(gate, operand),
        }
    }
}

// Whether a prefix sign stands next.
fn at_prefix_sign(cursor: &Cursor<'_>) -> bool
    ensures { result ≡ opens signed (sort cursor.now) }
{
    cursor.at(Sign::Not)
        || cursor.at(Sign::AndReduce)
        || cursor.at(Sign::OrReduce)
        || cursor.at(Sign::XorReduce)
}

// Reads a prefix sign.
fn prefix_sign(cursor: &mut Cursor<'_>) -> Result<PrefixSign, Stop>
    ensures told { (n : ℕ) → Told (read n prefix_sign_rule cursor.old) sign_of result cursor.new }
    ensures forward { OnOk result (length cursor.new < length cursor.old) }
    ensures stops { IfErr result (λ e. e ≡ Stop.Unexpected) }
{
    if let Ok(place) = cursor.take(Sign::Not) {
        return Ok(PrefixSign { place, gate: None });
    }
    if let Ok(place) = cursor.take(Sign::AndReduce) {
        let gate = Some(Gate::And);
        return Ok(PrefixSign { place, gate });
    }
    if let Ok(place) = cursor.take(Sign::OrReduce) {
        let gate = Some(Gate::Or);
        return Ok(PrefixSign { place, gate });
    }
    let place = cursor.take(Sign::XorReduce)?;
    let gate = Some(Gate::Xor);
    Ok(PrefixSign { place, gate })
}

// Reads a symbol, or some bits of it.
fn bits(cursor: &mut Cursor<'_>, terms: &mut Terms, driven: Option<usize>) -> Result<(), Stop>
    ensures told { (n : ℕ) → Wrote (read n ref cursor.old) (λ r. bits_rows r driven) (term_lists terms.old) result cursor.new (term_lists terms.new) }
    ensures forward { OnOk result (length cursor.new < length cursor.old) }
    ensures room { TermsRoomKept result cursor.old cursor.new terms.old terms.new }
{
    let reference = reference(cursor)?;
    let place = reference.name.place;
    push(terms, place, driven, Form::Bits(reference))
}

// Reads a bit string.
fn bit_string(cursor: &mut Cursor<'_>, terms: &mut Terms, driven: Option<usize>) -> Result<(), Stop>
    ensures told { (n : ℕ) → Wrote (read n string_rule cursor.old) (λ s. string_rows s driven) (term_lists terms.old) result cursor.new (term_lists terms.new) }
    ensures forward { OnOk result (length cursor.new < length cursor.old) }
    ensures room { TermsRoomKept result cursor.old cursor.new terms.old terms.new }
{
    let place = cursor.take(Sign::Backslash)?;
    integers(cursor, &mut terms.digits)?;
    cursor.take(Sign::Backslash)?;
    let last = terms.digits.len();
    push(terms, place, driven, Form::Literal(last))
}

// Reads a constant `n $ m`.
fn sized(cursor: &mut Cursor<'_>, terms: &mut Terms, driven: Option<usize>) -> Result<(), Stop>
    ensures told { (n : ℕ) → Wrote (read n sized_rule cursor.old) (λ c. sized_rows c driven) (term_lists terms.old) result cursor.new (term_lists terms.new) }
    ensures forward { OnOk result (length cursor.new < length cursor.old) }
    ensures room { TermsRoomKept result cursor.old cursor.new terms.old terms.new }
{
    let first = cursor.take(AnyInteger)?;
    cursor.take(Sign::Dollar)?;
    let second = cursor.take(AnyInteger)?;
    push(terms, first.place, driven, Form::Sized(first, second))
}

// The row of the node that stands last.
fn root(terms: &Terms) -> usize
    ensures { result ≡ root_row (term_lists terms.now) }
{
    terms.nodes.len()
}

// Puts a node behind those that stand already.
fn push(terms: &mut Terms, place: usize, driven: Option<usize>, form: Form) -> Result<(), Stop>
    ensures pushed { MatchResult result (λ _. term_lists terms.new ≡ with_node (term_lists terms.old) (node_at place driven form)) (λ e. e ≡ OutOfMemory) }
    ensures room { (limit more : ℕ) → TermsRoom limit (more + 1) terms.old → RoomLeft result (TermsRoom limit more terms.new) (TermsReserved limit terms.new) }
{
    terms.nodes.push(Node {
        place,
        driven,
        form,
    })?;
    Ok(())
}
