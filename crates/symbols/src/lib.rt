//! The symbols of a module: what is declared, and what a name stands for.
#![tactic(auto)]

mod items;
mod names;
mod references;
mod widths;

pub use items::{
    MOST_BITS, MOST_DECLARED_BITS, MOST_SYMBOLS, is_width, note_items, note_name, note_overflow,
    note_width, written_width,
};
pub use references::{Standing, bus_of, note_reference, symbol_at, symbol_width};
pub use widths::{
    last_of, note_beside, note_joined, note_unequal, note_up_to, row_at, width_unless,
};
