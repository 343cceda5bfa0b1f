//! The rows of the six tables.
//!
//! Columns are numbers, codes among them: rows may come from anywhere and hold anything. An unused row is zero in all of them.
ghost use Rattle.std.specs.Prelude.{◌≡◌, ◌+◌, ◌^◌, ◌<◌};
ghost use Rattle.std.specs.Option.{ForSome};
ghost use Rattle.database.specs.Codes.{step_code, sign_code};
ghost use Rattle.database.specs.Saying as saying;

use crate::codes::{NodeSign, StepKind, class_code, statement_code};
use grammar::{
    Exit, Form, Gate, Item, Leaving, Listed, Reference, Statement, Step, Subscript, Target,
};
use rules::{BitString, NO_STRING, target_standing};
use symbols::{Standing, row_at, symbol_at, symbol_width, written_width};

/// A declared symbol: its class, its width, and the place and length of its name.
#[derive(Clone, Copy, PartialEq, Eq, Default)]
pub struct SymbolRow {
    pub class: usize,
    pub width: usize,
    pub place: usize,
    pub length: usize,
}

/// A step: how it is left, the node of its condition, and whether CONTROLRESET names it.
#[derive(Clone, Copy, PartialEq, Eq, Default)]
pub struct StepRow {
    pub kind: usize,
    pub condition: usize,
    pub reset: usize,
}

/// A statement: its step, its kind, and the nodes of its condition and its value.
#[derive(Clone, Copy, PartialEq, Eq, Default)]
pub struct StatementRow {
    pub step: usize,
    pub kind: usize,
    pub condition: usize,
    pub value: usize,
}

/// A target: its statement, its symbol, and the first and the last of the bits.
#[derive(Clone, Copy, PartialEq, Eq, Default)]
pub struct TargetRow {
    pub statement: usize,
    pub symbol: usize,
    pub first: usize,
    pub last: usize,
}

/// An integer of a branch: the step that is left, and the step that is entered.
#[derive(Clone, Copy, PartialEq, Eq, Default)]
pub struct ExitRow {
    pub left: usize,
    pub entered: usize,
}

/// A node of an expression: its sign; the symbol, the first and the last bit of a name; the operands of an operator or a comma; its
/// width; the value of a constant.
#[derive(Clone, Copy, PartialEq, Eq, Default)]
pub struct NodeRow {
    pub sign: usize,
    pub symbol: usize,
    pub first: usize,
    pub last: usize,
    pub left: usize,
    pub right: usize,
    pub width: usize,
    pub value: usize,
}

impl SymbolRow {
    /// The row of a declaration.
    pub fn of(item: &Item) -> SymbolRow
        ensures { result ≡ saying.symbol_row item.now }
    {
        SymbolRow {
            class: class_code(item.class),
            width: written_width(item.width),
            place: item.name.place,
            length: item.name.len,
        }
    }
}

// Whether CONTROLRESET names the step.
fn is_reset(resets: &[Listed], number: usize) -> bool
    ensures { result ≡ saying.is_reset resets.now number }
{
    for named in resets {
        if usize::from(named.integer.value) == number {
            return true;
        }
    }
    false
}

// How a step is left.
fn kind_of(leaving: Leaving) -> StepKind
    ensures { result ≡ saying.kind_of leaving }
{
    match leaving {
        Leaving::Next => StepKind::Next,
        Leaving::Plain => StepKind::Branch,
        Leaving::Conditions(_, _) => StepKind::Conditions,
        Leaving::Dead => StepKind::DeadEnd,
    }
}

// The node of a step's condition, or 0.
fn branch_node(leaving: Leaving) -> usize
    ensures { result ≡ saying.branch_node leaving }
{
    match leaving {
        Leaving::Conditions(condition, _) => condition.node,
        _ => 0,
    }
}

impl StepRow {
    /// The row of the step of that number.
    pub fn of(resets: &[Listed], number: usize, step: &Step) -> StepRow
        ensures { result ≡ saying.step_row resets.now number step.now }
    {
        StepRow {
            kind: kind_of(step.leaving).code(),
            condition: branch_node(step.leaving),
            reset: usize::from(is_reset(resets, number)),
        }
    }
}

impl StatementRow {
    /// The row of a statement.
    pub fn of(statement: &Statement) -> StatementRow
        ensures { result ≡ saying.statement_row statement.now }
    {
        let condition = match statement.condition {
            Some(condition) => condition.node,
            None => 0,
        };
        StatementRow {
            step: statement.step.unwrap_or(0),
            kind: statement_code(statement.kind),
            condition,
            value: statement.value,
        }
    }
}

// The number of a symbol's row, from its index; or 0.
fn symbol_number(found: Option<usize>) -> usize
    requires small { ForSome found (λ index. index + 1 < 2 ^ 64) }
    ensures { result ≡ saying.symbol_number found }
{
    match found {
        Some(index) => index + 1,
        None => 0,
    }
}

// The first bit that is named, and the last; without a subscript, of a symbol of that width.
fn first_bit(subscript: Option<Subscript>) -> usize
    ensures { result ≡ saying.first_bit subscript }
{
    match subscript {
        Some(bits) => usize::from(bits.first),
        None => 0,
    }
}

fn last_bit(width: Option<usize>, subscript: Option<Subscript>) -> usize
    ensures { result ≡ saying.last_bit width subscript }
{
    match subscript {
        Some(bits) => usize::from(bits.last),
        None => width.unwrap_or(0).saturating_sub(1),
    }
}

// Some bits of a symbol: the number of its row, the first bit and the last.
#[derive(Clone, Copy)]
struct NamedBits {
    symbol: usize,
    first: usize,
    last: usize,
}

impl NamedBits {
    // The bits that a reference names: a name alone is the whole symbol.
    fn of(text: &[u8], items: &[Item], standing: Standing, reference: Reference) -> NamedBits
        ensures { result ≡ saying.named_bits text.now items.now standing reference }
    {
        let found = symbol_at(text, items, standing, reference.name);
        NamedBits {
            symbol: symbol_number(found),
            first: first_bit(reference.subscript),
            last: last_bit(symbol_width(items, found), reference.subscript),
        }
    }
}

impl TargetRow {
    /// The row of a target. The symbol is the one that its name stands for there, and a name alone is the whole symbol.
    pub fn of(text: &[u8], items: &[Item], statements: &[Statement], target: &Target) -> TargetRow
        ensures { result ≡ saying.target_row text.now items.now statements.now target.now }
    {
        let standing = target_standing(statements, *target);
        let bits = NamedBits::of(text, items, standing, target.reference);
        TargetRow {
            statement: target.statement,
            symbol: bits.symbol,
            first: bits.first,
            last: bits.last,
        }
    }
}

impl ExitRow {
    /// The row of an integer of a branch.
    pub fn of(exit: &Exit) -> ExitRow
        ensures { result ≡ saying.exit_row exit.now }
    {
        ExitRow {
            left: exit.step,
            entered: usize::from(exit.entered.integer.value),
        }
    }
}

// The value of `n $ m`: the last n bits of m.
fn sized_value(n: u16, m: u16) -> usize
    ensures { result ≡ saying.sized_value n m }
{
    if n < 16 {
        usize::from(m % (1 << n))
    } else {
        usize::from(m)
    }
}

fn gate_sign(gate: Gate) -> NodeSign
    ensures { result ≡ saying.gate_sign gate }
{
    match gate {
        Gate::And => NodeSign::And,
        Gate::Or => NodeSign::Or,
        Gate::Xor => NodeSign::Xor,
    }
}

fn reduce_sign(gate: Gate) -> NodeSign
    ensures { result ≡ saying.reduce_sign gate }
{
    match gate {
        Gate::And => NodeSign::AndReduce,
        Gate::Or => NodeSign::OrReduce,
        Gate::Xor => NodeSign::XorReduce,
    }
}

impl NodeRow {
    fn name(bits: NamedBits, width: usize) -> NodeRow
        ensures { result ≡ saying.name_row bits width }
    {
        NodeRow {
            sign: NodeSign::Name.code(),
            symbol: bits.symbol,
            first: bits.first,
            last: bits.last,
            left: 0,
            right: 0,
            width,
            value: 0,
        }
    }

    fn constant(width: usize, value: usize) -> NodeRow
        ensures { result ≡ saying.constant_row width value }
    {
        NodeRow {
            sign: NodeSign::Constant.code(),
            symbol: 0,
            first: 0,
            last: 0,
            left: 0,
            right: 0,
            width,
            value,
        }
    }

    fn operator(sign: NodeSign, left: usize, right: usize, width: usize) -> NodeRow
        ensures { result ≡ saying.operator_row sign left right width }
    {
        NodeRow {
            sign: sign.code(),
            symbol: 0,
            first: 0,
            last: 0,
            left,
            right,
            width,
            value: 0,
        }
    }

    /// The row of a node of that form and width, where these are the bit strings.
    pub fn of(
        text: &[u8],
        items: &[Item],
        strings: &[BitString],
        width: usize,
        form: Form,
    ) -> NodeRow
        ensures { result ≡ saying.node_row text.now items.now strings.now width form }
    {
        match form {
            Form::Bits(reference) => {
                let bits = NamedBits::of(text, items, Standing::Read, reference);
                NodeRow::name(bits, width)
            }
            Form::Literal(digit) => {
                NodeRow::constant(width, row_at(strings, digit, NO_STRING).value as usize)
            }
            Form::Sized(n, m) => NodeRow::constant(width, sized_value(n.value, m.value)),
            Form::Comma(left, right) => NodeRow::operator(NodeSign::Comma, left, right, width),
            Form::Join(gate, left, right) => {
                NodeRow::operator(gate_sign(gate), left, right, width)
            }
            Form::Not(operand) => NodeRow::operator(NodeSign::Not, operand, 0, width),
            Form::Reduce(gate, operand) => {
                NodeRow::operator(reduce_sign(gate), operand, 0, width)
            }
        }
    }
}
