//! The rules of a module that words and grammar do not hold.
ghost use Rattle.std.specs.Prelude.{◌≡◌};
ghost use Rattle.least.specs.Order.{rule_number};

/// A rule that a module can break.
#[derive(Clone, Copy, PartialEq, Eq, Debug)]
pub enum Rule {
    /// A name, or the clock's, is declared already.
    Redeclared,
    /// A width, or the n of n$m, is not 1 to 32; or an integer of a bit string is not 0 or 1.
    OutOfRange,
    /// A name is undeclared, or of a class that cannot stand there.
    Undeclared,
    /// A subscript leaves the width of its symbol, or runs backwards.
    OffEnds,
    /// Widths disagree or pass 32; or a condition is not one bit.
    Widths,
    /// A step's integer is not the next one; or a named step is missing.
    StepInteger,
    /// A bus is read that is not declared before those that the statement drives.
    BusOrder,
    /// The last step neither is DEADEND nor ends in a branch without conditions.
    LastStep,
    /// A table, or the declared bits, overflow.
    Overflow,
}

impl Rule {
    /// The number under which a fault of this rule is told.
    pub fn number(self) -> u8
        ensures { result ≡ rule_number self }
    {
        match self {
            Rule::Redeclared => 8,
            Rule::OutOfRange => 9,
            Rule::Undeclared => 10,
            Rule::OffEnds => 11,
            Rule::Widths => 12,
            Rule::StepInteger => 13,
            Rule::BusOrder => 14,
            Rule::LastStep => 15,
            Rule::Overflow => 16,
        }
    }
}

/// Where a rule is broken, and which.
#[derive(Clone, Copy, PartialEq, Eq, Debug)]
pub struct RuleFault {
    pub place: usize,
    pub rule: Rule,
}
