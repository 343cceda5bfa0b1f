//! One part on trial: placed over two leaves in a store of any make, settled, and looked at.
#![tactic(auto)]

ghost use Rattle.std.specs.Prelude.{◌≡◌, ◌+◌, ◌<◌, ◌≤◌, length, take, Some, IfOk, MatchResult};
ghost use Rattle.level.specs.contracts.ternary.TernaryLevel.TheImpl.{ghosts as ternary};
ghost use Rattle.store.specs.declared.faults.StoreFault.TheVariants.{Full};
ghost use Rattle.store.specs.Meaning.{at};
ghost use Rattle.store.specs.Parts.{kind_letter};
ghost use Rattle.store.specs.Settle.{column};
ghost use Rattle.trial.specs.declared.faults.TrialFault.TheVariants.{OutOfMemory};
ghost use Rattle.trial.specs.Cases.{case_text};
ghost use Rattle.trial.specs.Trials.{Excused, LeafRows, OverLeaves, TooFew, Tried, first_of};

mod faults;

pub use faults::TrialFault;
use level::{Letter, Level, Ternary};
use std::alloc::{AllocError, Global};
use std::fmt;
use store::{LEAVES, PartKind, Store, StoreFault};

/// A part of a kind over two letters, of which it takes as many as it has operands; a leaf has the letter a.
// Two letters whatever the kind, and no enum with as many as it takes: each part is tried over two leaves, and what it
// answers may not depend on a letter that it ignores.
#[derive(Clone, Copy, PartialEq, Eq, Debug)]
pub struct Case {
    pub kind: PartKind,
    pub a: Letter,
    pub b: Letter,
}

impl Case {
    /// The letter that the rules give the part.
    // Written apart from the tables of cells, since their answers are compared with it.
    pub fn rule_letter(self) -> Letter
        ensures { result ≡ kind_letter self.kind self.a self.a self.b }
    {
        let Case { kind, a, b } = self;
        match kind {
            PartKind::Zero => Letter::Zero,
            PartKind::One => Letter::One,
            PartKind::Leaf => a,
            PartKind::Not => a.not(),
            PartKind::And => a.and(b),
            PartKind::Or => a.or(b),
            PartKind::Xor => a.xor(b),
        }
    }

    // A leaf table in which the leaves 0 and 1 have the letters a and b.
    fn leaf_rows(self, heap: Global) -> Result<Vec<Ternary>, AllocError>
        ensures { IfOk result (λ rows. LeafRows self.a self.b rows.items) }
    {
        let mut rows = vec![in heap; Ternary(Letter::Unknown); LEAVES]?;
        rows[0] = Ternary(self.a);
        rows[1] = Ternary(self.b);
        Ok(rows)
    }

    /// Puts the part on trial in a new store.
    pub fn try_part<S: Store + Drop>(self, heap: Global) -> Result<Trial, TrialFault>
        ensures { MatchResult result (λ t. Tried S.Store self.kind self.a self.b t) (λ e. Excused S.Store self.kind e) }
    {
        let mut store = S::new(heap, CELLS)?;
        let place = place_over_leaves(&mut store, self.kind)?;
        let leaves = self.leaf_rows(heap)?;
        let letter = signal_letter(heap, &store, &leaves, place.signal)?;
        Ok(Trial {
            letter,
            cells: place.cells,
        })
    }
}

/// The part's name, and the letters that it takes, a space before each.
impl fmt::Display for Case {
    ghost output = { λ case. Some (case_text case) };

    fn fmt<W: fmt::Write>(&self, f: &mut fmt::Formatter<W>) -> fmt::Result {
        let Case { kind, a, b } = *self;
        match kind {
            PartKind::Zero | PartKind::One => write!(f, "{kind}"),
            PartKind::Leaf | PartKind::Not => write!(f, "{kind} {a}"),
            PartKind::And | PartKind::Or | PartKind::Xor => write!(f, "{kind} {a} {b}"),
        }
    }
}

/// What a part answered, and how many cells it took.
#[derive(Clone, Copy, PartialEq, Eq, Debug)]
pub struct Trial {
    pub letter: Letter,
    pub cells: usize,
}

// How many cells the store of a trial has.
const CELLS: usize = 16;

// Where a part stands, by the number that its store answers, and how many cells it took.
#[derive(Clone, Copy)]
struct Placement {
    signal: usize,
    cells: usize,
}

// A part's first operand: a signal, or the number of a leaf.
fn first_operand(kind: PartKind, signal: usize) -> usize
    ensures { result ≡ first_of kind signal }
{
    match kind {
        PartKind::Leaf => 0,
        _ => signal,
    }
}

// Places a part over the leaves 0 and 1.
fn place_over_leaves<S: Store>(store: &mut S, kind: PartKind) -> Result<Placement, StoreFault>
    ensures { MatchResult result (λ p. OverLeaves S.Store kind store.new p) (λ e. (e ≡ Full) × TooFew S.Store.COSTS kind (S.Store.means store.old).free) }
{
    let a = store.place(PartKind::Leaf.code(), 0, 0)?;
    let b = store.place(PartKind::Leaf.code(), 1, 0)?;
    let before = store.count();
    let signal = store.place(kind.code(), first_operand(kind, a), b)?;
    Ok(Placement {
        signal,
        cells: store.count() - before,
    })
}

// The letter of a signal, for the levels of the leaves.
fn signal_letter<S: Store>(
    heap: Global,
    store: &S,
    leaves: &[Ternary],
    signal: usize,
) -> Result<Letter, TrialFault>
    requires there { signal < (S.Store.means store.now).size }
    requires wide { 1088 ≤ length leaves.now }
    ensures { MatchResult result
        (λ x. x ≡ at ((S.Store.means store.now).signals (column ternary 0 (take 1088 leaves.now))) signal)
        (λ e. e ≡ OutOfMemory) }
{
    let mut work = vec![in heap; Ternary::zero(); store.count()]?;
    store.settle(leaves, &mut work)?;
    Ok(work[signal].letter(0)?)
}
