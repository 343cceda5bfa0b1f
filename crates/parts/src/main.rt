//! Shows what each part answers in each store, for every combination of operand letters.
#![tactic(auto)]

use anyhow::anyhow;
use cells::{GateTable, NandTable};
use level::Letter;
use store::{PartKind, Store};
use trial::{Case, Trial};

/// A report of trials: where its lines are printed, how many there are, and in how many the store's letter was the
/// rules'.
#[derive(Drop)]
struct Report<'a, R> {
    rt: &'a R,
    lines: usize,
    agreed: usize,
}

impl<'a, R: Print + AllocGlobal> Report<'a, R> {
    fn new(rt: &'a R) -> Self {
        Report {
            rt,
            lines: 0,
            agreed: 0,
        }
    }

    // Puts a case on trial, prints the letter that came out and the cells that it took, and holds the letter to the rules.
    fn show_trial<S: Store + Drop>(&mut self, store: &str, case: Case) -> anyhow::Result<()> {
        let Trial { letter, cells } = case.try_part::<S>(self.rt.alloc())?;
        println!(self.rt; "{store} {case} = {letter}, cells {cells}")?;
        self.lines = self.lines.saturating_add(1);
        if letter == case.rule_letter() {
            self.agreed = self.agreed.saturating_add(1);
        }
        Ok(())
    }

    // Every combination of the letters that each part uses. The store's name goes beside its type, since a trait only for a
    // name would say no more.
    fn show_store<S: Store + Drop>(&mut self, store: &str) -> anyhow::Result<()> {
        for kind in PartKind::ALL {
            let operands = kind.operand_count();
            for &a in letters_of(0 < operands) {
                for &b in letters_of(1 < operands) {
                    self.show_trial::<S>(store, Case { kind, a, b })?;
                }
            }
        }
        Ok(())
    }

    // What each store answers where both sides are 1.
    fn show_both_one(&self, kind: PartKind) -> anyhow::Result<()> {
        let case = Case {
            kind,
            a: Letter::One,
            b: Letter::One,
        };
        let gate = case.try_part::<GateTable>(self.rt.alloc())?.letter;
        let nand = case.try_part::<NandTable>(self.rt.alloc())?.letter;
        println!(self.rt; "{kind} of 1 and 1: gate answers {gate}, nand answers {nand}")?;
        Ok(())
    }

    // How many lines agree; all of them must.
    fn close(self) -> anyhow::Result<()> {
        let Report { rt, lines, agreed } = self;
        println!(rt; "{agreed} of {lines} lines agree with the letter rules")?;
        if agreed < lines {
            return Err(anyhow!("a store answered another letter than the rules give"));
        }
        Ok(())
    }
}

// The letters that an operand takes in turn: each of them, or X alone where the part does not take the operand.
fn letters_of(taken: bool) -> &'static [Letter] {
    if taken {
        &Letter::ALL
    } else {
        &[Letter::Unknown]
    }
}

fn main(rt: HostRuntime) -> anyhow::Result<()> {
    let mut report = Report::new(&rt);
    report.show_store::<GateTable>("gate")?;
    report.show_store::<NandTable>("nand")?;
    report.show_both_one(PartKind::Or)?;
    report.show_both_one(PartKind::Xor)?;
    report.close()
}
