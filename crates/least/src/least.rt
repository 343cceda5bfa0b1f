//! The least of the faults met so far.
ghost use Rattle.std.specs.Prelude.{◌≡◌, None, true};
ghost use Rattle.least.specs.Order.{before, fault_at, tells, fault_if, Notes};

use crate::rule::{Rule, RuleFault};

/// The least of the faults met so far, if any was met.
#[derive(Drop)]
pub struct Least {
    pub fault: Option<RuleFault>,
}

// Whether a fault is told rather than another.
fn is_before(fault: RuleFault, other: RuleFault) -> bool
    ensures { result ≡ before fault other }
{
    fault.place < other.place
        || fault.place == other.place && fault.rule.number() < other.rule.number()
}

impl Least {
    /// No fault was met yet.
    pub fn new() -> Least
        ensures { result.fault ≡ None }
    {
        Least { fault: None }
    }

    /// Whether a fault would be told, if it were met now.
    pub fn would_tell(&self, place: usize, rule: Rule) -> bool
        ensures { result ≡ tells self.now.fault (fault_at place rule) }
    {
        match self.fault {
            Some(old) => is_before(RuleFault { place, rule }, old),
            None => true,
        }
    }

    /// Meets a fault.
    pub fn note(&mut self, place: usize, rule: Rule)
        ensures { Notes self.old (fault_if true place rule) self.new }
    {
        if self.would_tell(place, rule) {
            self.fault = Some(RuleFault { place, rule });
        }
    }

    /// Meets a fault, if the test is true.
    pub fn note_if(&mut self, test: bool, place: usize, rule: Rule)
        ensures { Notes self.old (fault_if test place rule) self.new }
    {
        if test {
            self.note(place, rule);
        }
    }
}
