// The vocabulary of everything above: what is refused, grids and their limits, steps, and boxes.

#![tactic(auto)]

// What a call refuses, each case with its number.
mod refusal;
// The number of a refusal, what it tells, and its sentence.
mod telling;
// Want of memory as a refusal.
mod memory;
// A number of axes.
mod axis_count;
// A grid: its axes and its order, within the limits.
mod grid;
// From a cell to one beside it.
mod step;
// A box: two corners, in order.
mod grid_box;

pub use axis_count::AxisCount;
pub use grid::Grid;
pub use grid_box::GridBox;
pub use refusal::Refusal;
pub use step::{Direction, Step};
pub use telling::Told;
