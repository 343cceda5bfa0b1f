//! What a cell may read.
ghost use Rattle.std.specs.Prelude.{◌≡◌, ℕ, ◌<◌, length};
ghost use Rattle.store.specs.Meaning.{at};
ghost use Rattle.store.specs.Settle.{column};

use level::Level;

/// The levels of the 1,088 leaves, and of the signals before the cell.
#[derive(Drop)]
pub struct Sources<'a, L> {
    pub(crate) leaves: &'a [L],
    pub(crate) signals: &'a [L],
    ghost wide: { length leaves.now ≡ 1088 },
}

// The level of a row.
fn level_at<L: Level>(rows: &[L], n: u32) -> L
    requires { n < length rows.now }
    ensures { (k : ℕ) → k < L.Level.LANES → L.Level.letters result k ≡ at (column L.Level k rows.now) n }
{
    // `as`, since no `From` leads from u32 to usize; the check proves that no bit is lost.
    rows[n as usize]
}

impl<L: Level> Sources<'_, L> {
    /// The level of a leaf.
    pub(crate) fn leaf(&self, n: u32) -> L
        requires { n < 1088 }
        ensures { (k : ℕ) → k < L.Level.LANES → L.Level.letters result k ≡ at (column L.Level k self.now.leaves.now) n }
    {
        level_at(self.leaves, n)
    }

    /// The level of a signal.
    pub(crate) fn signal(&self, n: u32) -> L
        requires { n < length self.now.signals.now }
        ensures { (k : ℕ) → k < L.Level.LANES → L.Level.letters result k ≡ at (column L.Level k self.now.signals.now) n }
    {
        level_at(self.signals, n)
    }
}
