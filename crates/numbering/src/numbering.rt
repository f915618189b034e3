ghost use Rattle.std.specs.Prelude.{◌≡◌};
ghost use Rattle.grid.specs.Answers.{answer};
ghost use Rattle.grid.specs.Grids.{Limits};
ghost use Rattle.numbering.specs.Calls.{CellAnswer, KeyAnswer, Undo, key_in_grid};
ghost use Rattle.numbering.specs.Meaning.{Meaning, OneKey, Nesting};

use grid::{Grid, Refusal};

// A numbering gives each cell of a grid a key, and each key a cell.
//
// A grid has n axes and an order k: every axis has 2^k coordinates, and there are N = 2^(n k) cells. A cell is a list
// of n coordinates, axis 1 first. Keys run from 0 to N - 1.
//
// What a numbering means is n, k and one function from keys to cells, its ghost member `meaning`. It keeps two laws.
//
//   One key   Each key below N has a cell of the grid, and each cell of the grid has exactly one key below N.
//   Nesting   At every level j up to k the runs of 2^(n j) keys are the cubes of side 2^j: two keys agree in their
//             quotient by 2^(n j) if and only if their cells agree in every coordinate's quotient by 2^j.
//
// An implementation gives the grid, the cell of a key and the key of a cell, and proves the laws. Everything above is
// generic: it is proved once, from the laws, for every numbering there is.
//
// Order of refusals. A key given: 10, where it is not below N. A list for a cell: 11, where it has not n places. A cell
// given: 11, then 12, where a coordinate is not below 2^k, telling the lowest such axis. A refused call alters nothing.
pub trait Numbering {
    ghost meaning: { Self → Meaning };

    fn grid(&self) -> Grid
        ensures axes { result.axes ≡ (meaning self.now).axes }
        ensures order { result.order ≡ (meaning self.now).order };

    fn axes(&self) -> u32
        ensures { result ≡ (meaning self.now).axes }
    {
        self.grid().axes()
    }

    fn order(&self) -> u32
        ensures { result ≡ (meaning self.now).order }
    {
        self.grid().order()
    }

    // Fills the list with the cell of a key.
    fn cell_of(&self, key: u64, cell: &mut [u32]) -> Result<(), Refusal>
        ensures { CellAnswer (meaning self.now) key cell.old result cell.new };

    // The key of a cell.
    fn key_of(&self, cell: &[u32]) -> Result<u64, Refusal>
        ensures { KeyAnswer (meaning self.now) cell.now result };

    // The key of the cell of a key, which is that key again; and the two calls undo each other, for all keys and cells.
    fn round_trip(&self, key: u64) -> Result<u64, Refusal>
        ensures answer { result ≡ answer (key_in_grid (meaning self.now) key) key }
        ensures undo { Undo (meaning self.now) }
    {
        // The front of eight places: no call of a numbering asks for memory, and a slice has its length.
        let mut places = [0; 8];
        let cell = &mut places[0..self.axes() as usize];
        self.cell_of(key, cell)?;
        self.key_of(cell)
    }

    ghost limits: { (x : Self) → Limits (meaning x).axes (meaning x).order };

    // Every cell has exactly one key.
    ghost onekey: { (x : Self) → OneKey (meaning x) };

    // Keys lie in one block exactly when their cells do.
    ghost nesting: { (x : Self) → Nesting (meaning x) };
}
