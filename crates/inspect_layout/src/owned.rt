//! Rows that belong to a row of another table.
ghost use Rattle.std.specs.Prelude.{◌≡◌, ℕ};
ghost use Rattle.inspect_layout.specs.Inner.{Front};

use database::{ExitRow, StatementRow, TargetRow};

// A row that belongs to a row of another table, and has the number of that.
pub(crate) trait Owned: Copy {
    ghost owner: { Self → ℕ };

    fn owner(&self) -> usize
        ensures { result ≡ owner self.now };
}

impl Owned for StatementRow {
    ghost owner = { λ s. s.step };

    fn owner(&self) -> usize {
        self.step
    }
}

impl Owned for ExitRow {
    ghost owner = { λ e. e.left };

    fn owner(&self) -> usize {
        self.left
    }
}

impl Owned for TargetRow {
    ghost owner = { λ t. t.statement };

    fn owner(&self) -> usize {
        self.statement
    }
}

// The rows in front that belong to that number, as many as there are; and the others.
pub(crate) fn split_own<T: Owned>(rows: &[T], number: usize) -> (&[T], &[T])
    ensures { Front T.owner number rows.now result.0.now result.1.now }
{
    let count = rows.iter().take_while(|row| row.owner() == number).count();
    rows.split_at(count)
}
