//! The codes that stand in rows.
//!
//! A code in a row that comes from anywhere may be none of those listed, so reading one answers an `Option`.
ghost use Rattle.std.specs.Prelude.{◌≡◌};
ghost use Rattle.database.specs.Codes.{class_code, class_of, statement_code, statement_kind, step_code, step_kind, sign_code, sign_of, CodeLaws};

use grammar::{Class, StatementKind};

/// How a step is left.
#[derive(Clone, Copy, PartialEq, Eq, Debug)]
pub enum StepKind {
    /// To the next step.
    Next,
    /// By a branch without conditions.
    Branch,
    /// By a branch with conditions.
    Conditions,
    /// Not at all.
    DeadEnd,
}

impl StepKind {
    /// The code of the kind.
    pub fn code(self) -> usize
        ensures { result ≡ step_code self }
    {
        match self {
            StepKind::Next => 1,
            StepKind::Branch => 2,
            StepKind::Conditions => 3,
            StepKind::DeadEnd => 4,
        }
    }

    /// The kind of that code.
    pub fn from_code(code: usize) -> Option<StepKind>
        ensures { result ≡ step_kind code }
    {
        match code {
            1 => Some(StepKind::Next),
            2 => Some(StepKind::Branch),
            3 => Some(StepKind::Conditions),
            4 => Some(StepKind::DeadEnd),
            _ => None,
        }
    }
}

/// What a node is.
#[derive(Clone, Copy, PartialEq, Eq, Debug)]
pub enum NodeSign {
    /// Some bits of a symbol.
    Name,
    /// A constant.
    Constant,
    /// Two operands side by side.
    Comma,
    /// Two operands joined bit by bit by AND.
    And,
    /// Two operands joined bit by bit by OR.
    Or,
    /// Two operands joined bit by bit by XOR.
    Xor,
    /// Each bit of the operand turned.
    Not,
    /// All bits of the operand joined into one by AND.
    AndReduce,
    /// All bits of the operand joined into one by OR.
    OrReduce,
    /// All bits of the operand joined into one by XOR.
    XorReduce,
}

impl NodeSign {
    /// The code of the sign.
    pub fn code(self) -> usize
        ensures { result ≡ sign_code self }
    {
        match self {
            NodeSign::Name => 1,
            NodeSign::Constant => 2,
            NodeSign::Comma => 3,
            NodeSign::And => 4,
            NodeSign::Or => 5,
            NodeSign::Xor => 6,
            NodeSign::Not => 7,
            NodeSign::AndReduce => 8,
            NodeSign::OrReduce => 9,
            NodeSign::XorReduce => 10,
        }
    }

    /// The sign of that code.
    pub fn from_code(code: usize) -> Option<NodeSign>
        ensures { result ≡ sign_of code }
    {
        match code {
            1 => Some(NodeSign::Name),
            2 => Some(NodeSign::Constant),
            3 => Some(NodeSign::Comma),
            4 => Some(NodeSign::And),
            5 => Some(NodeSign::Or),
            6 => Some(NodeSign::Xor),
            7 => Some(NodeSign::Not),
            8 => Some(NodeSign::AndReduce),
            9 => Some(NodeSign::OrReduce),
            10 => Some(NodeSign::XorReduce),
            _ => None,
        }
    }
}

/// The code of a class.
pub fn class_code(class: Class) -> usize
    ensures { result ≡ class_code class }
{
    match class {
        Class::Input => 1,
        Class::Output => 2,
        Class::Memory => 3,
        Class::Bus => 4,
    }
}

/// The class of that code.
pub fn class_of(code: usize) -> Option<Class>
    ensures { result ≡ class_of code }
{
    match code {
        1 => Some(Class::Input),
        2 => Some(Class::Output),
        3 => Some(Class::Memory),
        4 => Some(Class::Bus),
        _ => None,
    }
}

/// The code of a kind of statements.
pub fn statement_code(kind: StatementKind) -> usize
    ensures { result ≡ statement_code kind }
{
    match kind {
        StatementKind::Connection => 1,
        StatementKind::Transfer => 2,
    }
}

/// The kind of statements of that code.
pub fn statement_kind(code: usize) -> Option<StatementKind>
    ensures { result ≡ statement_kind code }
{
    match code {
        1 => Some(StatementKind::Connection),
        2 => Some(StatementKind::Transfer),
        _ => None,
    }
}

/// The laws of codes: a number is read as what it is the code of, and as nothing else.
pub fn code_laws()
    ensures { CodeLaws }
{}
