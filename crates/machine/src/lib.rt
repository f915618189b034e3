// Machines: numberings that are followed digit by digit, in both directions, and the simplest of them.

#![tactic(auto)]

// The trait of every machine.
mod machine;
// Bits of keys, n-points and coordinates.
mod bits;
// From a key to its cell and from a cell to its key.
mod follow;
// The same with what is refused: the calls of a numbering, for any machine.
mod calls;
// The trait of machines whose consecutive cells share a face.
mod joined;
// Their steps.
mod steps;
// The rules by which a digit leads on, for every number of axes.
mod curve_rule;
// The numbering by a rule.
mod curve;
// The Z numbering.
mod z_order;

pub use calls::{cell_by, key_by};
pub use curve::Curve;
pub use curve_rule::{CurveRule, JoinedRule};
pub use joined::JoinedMachine;
pub use machine::Machine;
pub use steps::step_by;
pub use z_order::{ZOrder, ZRule};
