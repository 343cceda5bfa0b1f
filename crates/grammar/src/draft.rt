//! A draft: what a module text says, row by row, as it is written and before any rule is held against it.
//!
//! Rows of each table stand in the order of the text, and count from 1. They name one another by these numbers, and hold no
//! boxes: rules are told by row in the order of the text, and a boxed tree would have to be walked to find a row's number.

/// A name: a part of the text.
#[derive(Clone, Copy, PartialEq, Eq)]
pub struct Name {
    pub place: usize,
    pub len: usize,
}

/// An integer as it is written.
#[derive(Clone, Copy, PartialEq, Eq)]
pub struct Number {
    pub place: usize,
    pub value: u16,
}

/// The class of a symbol.
#[derive(Clone, Copy, PartialEq, Eq)]
pub enum Class {
    Input,
    Output,
    Memory,
    Bus,
}

/// A declared symbol. Without a width it has one bit.
#[derive(Clone, Copy, PartialEq, Eq)]
pub struct Item {
    pub class: Class,
    pub name: Name,
    pub width: Option<Number>,
}

/// `[first]`, where the last is the first, or `[first : last]`. Its place is that of the `[`.
#[derive(Clone, Copy, PartialEq, Eq)]
pub struct Subscript {
    pub place: usize,
    pub first: u16,
    pub last: u16,
}

/// A symbol that is named, or some bits of it.
#[derive(Clone, Copy, PartialEq, Eq)]
pub struct Reference {
    pub name: Name,
    pub subscript: Option<Subscript>,
}

/// An operation that joins bits.
#[derive(Clone, Copy, PartialEq, Eq)]
pub enum Gate {
    And,
    Or,
    Xor,
}

/// What a node is. Operands are rows of nodes before it.
#[derive(Clone, Copy, PartialEq, Eq)]
pub enum Form {
    /// Some bits of a symbol.
    Bits(Reference),
    /// A bit string, by the row of its last digit.
    Literal(usize),
    /// `n $ m`.
    Sized(Number, Number),
    /// Two operands side by side.
    Comma(usize, usize),
    /// Two operands joined bit by bit.
    Join(Gate, usize, usize),
    /// Each bit of the operand turned.
    Not(usize),
    /// All bits of the operand joined into one.
    Reduce(Gate, usize),
}

/// A name, a constant, an operator or a comma of an expression. Its place is that of the name, of the constant's
/// first word, of the operator or of the comma. A node of a statement's value has the row of that statement's last
/// target, which it drives; a node of a condition drives none.
#[derive(Clone, Copy, PartialEq, Eq)]
pub struct Node {
    pub place: usize,
    pub driven: Option<usize>,
    pub form: Form,
}

/// An integer of a list, with the place of the comma before it, if it is not the first.
#[derive(Clone, Copy, PartialEq, Eq)]
pub struct Listed {
    pub comma: Option<usize>,
    pub integer: Number,
}

/// A target of a statement, with the place of the comma before it, if it is not the first.
#[derive(Clone, Copy, PartialEq, Eq)]
pub struct Target {
    pub statement: usize,
    pub comma: Option<usize>,
    pub reference: Reference,
}

/// A condition: the place of the `*` or the `/` that makes it one, and the row of its node.
#[derive(Clone, Copy, PartialEq, Eq)]
pub struct Condition {
    pub place: usize,
    pub node: usize,
}

/// `=` makes a connection, `<=` a transfer.
#[derive(Clone, Copy, PartialEq, Eq)]
pub enum StatementKind {
    Connection,
    Transfer,
}

/// A connection or a transfer. Its place is that of its first target, its sign's that of the `=` or `<=`. Behind
/// CONTROLRESET it stands in no step. Its value is the row of a node.
#[derive(Clone, Copy, PartialEq, Eq)]
pub struct Statement {
    pub place: usize,
    pub step: Option<usize>,
    pub kind: StatementKind,
    pub last_target: usize,
    pub condition: Option<Condition>,
    pub sign: usize,
    pub value: usize,
}

/// How a step is left. A branch with conditions has the row of its last exit.
#[derive(Clone, Copy, PartialEq, Eq)]
pub enum Leaving {
    /// To the next step: NULL, or no branch.
    Next,
    /// By a branch without conditions.
    Plain,
    /// By a branch with conditions.
    Conditions(Condition, usize),
    /// Not at all: DEADEND.
    Dead,
}

/// A control step, by the integer that it is written with.
#[derive(Clone, Copy, PartialEq, Eq)]
pub struct Step {
    pub integer: Number,
    pub leaving: Leaving,
}

/// An integer of a branch: the row of the step that is left, and the step that is entered.
#[derive(Clone, Copy, PartialEq, Eq)]
pub struct Exit {
    pub step: usize,
    pub entered: Listed,
}

/// The rows of expressions: each node stands after its operands, left before right.
#[derive(Drop)]
pub struct Terms {
    pub nodes: Vec<Node>,
    pub digits: Vec<Listed>,
}

/// All rows of a draft, as they are written.
#[derive(Drop)]
pub struct Rows {
    pub items: Vec<Item>,
    pub steps: Vec<Step>,
    pub statements: Vec<Statement>,
    pub targets: Vec<Target>,
    pub exits: Vec<Exit>,
    pub resets: Vec<Listed>,
    pub terms: Terms,
}

/// The names that stand above a module: its own, and its clock's.
#[derive(Clone, Copy, PartialEq, Eq)]
pub struct Heading {
    pub title: Name,
    pub clock: Name,
}

/// What a module text says.
#[derive(Clone, Copy)]
pub struct Draft<'a> {
    pub heading: Heading,
    pub items: &'a [Item],
    pub steps: &'a [Step],
    pub statements: &'a [Statement],
    pub targets: &'a [Target],
    pub exits: &'a [Exit],
    pub resets: &'a [Listed],
    pub nodes: &'a [Node],
    pub digits: &'a [Listed],
}
