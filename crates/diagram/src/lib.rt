// Hilbert's curve for 2 to 8 axes: its rows, its states and the numbering that reckons with them.

#![tactic(auto)]

// A state.
mod pair;
// An entry of a table of states.
mod entry;
// The X2 sequence, written by recursion.
mod sequence;
// Rows and rotations, reckoned.
mod rows;
// A state with its number of axes, and what a digit has in it.
mod state;
// The room that a diagram needs.
mod room;
// The states by number.
mod numbered;
// The diagram, written to lists.
mod writing;
// The diagram, as a table of its own.
mod diagram_table;
// The reckoned numbering.
mod reckoned;
// Two axes: the published algorithm.
mod plane;

pub use diagram_table::DiagramTable;
pub use entry::Entry;
pub use pair::Pair;
pub use plane::plane_cell;
pub use reckoned::{HilbertRule, Reckoned};
pub use room::{DiagramRoom, diagram_room};
pub use sequence::write_x2;
pub use writing::write_diagram;
