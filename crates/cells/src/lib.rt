//! Two stores: a table of gates, and a table of NAND cells.
#![tactic(auto)]

mod cell;
mod cell_list;
mod nand;
mod part;
mod pattern;
mod sources;
mod table;

pub use nand::NandCell;
pub use part::Part;
pub use table::CellTable;

/// A store whose cells are the parts themselves.
pub type GateTable = CellTable<Part>;

/// A store whose cells are constants, leaves and NANDs.
pub type NandTable = CellTable<NandCell>;
