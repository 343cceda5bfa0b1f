//! Calls on a bench, and what they answer.
use fault::Refusal;

/// A call on a bench.
#[derive(Clone, Copy, Debug)]
pub enum Call<'a, L> {
    /// Opens: the registers get these levels, one for each bit, the inputs 0, and there is a reset.
    Open(&'a [L]),
    /// Drives an input bit, counted from 0 over all inputs.
    Drive(usize, L),
    /// Gives all registers and steps their next levels together.
    Clock,
    /// Gives the steps that are marked for it 1, and other steps 0.
    Reset,
    /// Asks for the level of a point.
    Look(usize),
}

/// What a call answers.
#[derive(Clone, Copy, Debug)]
pub enum Answer<L> {
    /// It was done.
    Done,
    /// The level of the point.
    Level(L),
    /// It was refused, and changed nothing.
    Refused(Refusal),
}
