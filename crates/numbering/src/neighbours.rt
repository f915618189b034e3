ghost use Rattle.std.specs.Prelude.{◌≡◌, ◌<◌};
ghost use Rattle.numbering.specs.Calls.{NeighbourAnswer, beside};

use crate::axes::check_axis;
use crate::numbering::Numbering;
use grid::{Direction, Refusal, Step};

// The key of the cell that a step leads to from the cell of a key.
pub fn neighbour<N: Numbering>(numbering: &N, key: u64, step: Step) -> Result<u64, Refusal>
    ensures { NeighbourAnswer (N.Numbering.meaning numbering.now) key step result }
{
    let grid = numbering.grid();
    // The front of eight places: no call of a numbering asks for memory, and a slice has its length.
    let mut places = [0; 8];
    let cell = &mut places[0..grid.axes() as usize];
    numbering.cell_of(key, cell)?;
    check_axis(numbering, step.axis)?;
    let x = &mut cell[(step.axis - 1) as usize];
    *x = moved(grid.side(), step.direction, *x).ok_or(Refusal::NoNeighbour { axis: step.axis })?;
    numbering.key_of(cell)
}

// The coordinate beside x, if there is one below the side.
fn moved(side: u32, direction: Direction, x: u32) -> Option<u32>
    requires { x < side }
    ensures { result ≡ beside side direction x }
{
    match direction {
        Direction::Up if x + 1 < side => Some(x + 1),
        Direction::Down if x > 0 => Some(x - 1),
        _ => None,
    }
}
