ghost use Rattle.numbering.specs.Calls.{CellAnswer, KeyAnswer};
ghost use Rattle.machine.specs.Followed.{meaning_of};

use crate::follow::{to_cell, to_key};
use crate::machine::Machine;
use grid::Refusal;

// Fills the list with the cell of a key.
pub fn cell_by<M: Machine>(m: &M, key: u64, cell: &mut [u32]) -> Result<(), Refusal>
    ensures { CellAnswer (meaning_of M.Machine m.now) key cell.old result cell.new }
{
    m.grid().check_key(key)?;
    m.grid().check_length(cell)?;
    to_cell(m, key, cell);
    Ok(())
}

// The key of a cell.
pub fn key_by<M: Machine>(m: &M, cell: &[u32]) -> Result<u64, Refusal>
    ensures { KeyAnswer (meaning_of M.Machine m.now) cell.now result }
{
    m.grid().check(cell)?;
    Ok(to_key(m, cell))
}
