// What a numbering means, its laws, and the turnings over any numbering.

#![tactic(auto)]

// The trait of every numbering.
mod numbering;
// The trait of those whose consecutive cells share a face.
mod unbroken;
// The turning that runs through the keys backwards.
mod reversal;
// What the turnings share that change each cell.
mod turned;
// The turning that mirrors one axis.
mod mirror;
// The turning that exchanges two axes.
mod exchange;
// Whether a numbering has an axis.
mod axes;
// The key of the cell beside a key's.
mod neighbours;
// What every pile of turnings keeps, and what it means.
mod piles;

pub use exchange::Exchange;
pub use mirror::Mirror;
pub use neighbours::neighbour;
pub use numbering::Numbering;
pub use piles::{cell_under, step_under};
pub use reversal::Reversal;
pub use unbroken::Unbroken;
