ghost use Rattle.std.specs.Prelude.{◌≡◌, ◌*◌, ◌<◌, ◌≤◌, length, IfOk};
ghost use Rattle.grid.specs.Answers.{refusal};
ghost use Rattle.grid.specs.Axes.{lowest};
ghost use Rattle.grid.specs.Grids.{grid_side, grid_size, grid_refusal, key_check, step_check, length_check, cell_check, outside};

use crate::axis_count::AxisCount;
use crate::refusal::Refusal;

// A grid of 2 to 8 axes and an order of at least 1, whose keys have at most 60 bits.
// Its axes are a plain number, which clauses name; `axis_count` gives them as one of 2 to 8.
#[derive(Clone, Copy, PartialEq, Eq, Debug)]
pub struct Grid {
    pub(crate) axes: u32,
    pub(crate) order: u32,
    ghost limits: { (2 ≤ axes) × (axes ≤ 8) × (1 ≤ order) × (axes * order ≤ 60) },
}

impl Grid {
    // The grid of that many axes and that order.
    pub fn new(axes: u32, order: u32) -> Result<Grid, Refusal>
        ensures refused { refusal result ≡ grid_refusal axes order }
        ensures grid { IfOk result (λ g. (g.axes ≡ axes) × (g.order ≡ order)) }
    {
        AxisCount::try_from(axes)?;
        if order < 1 || u64::from(axes) * u64::from(order) > 60 {
            return Err(Refusal::Order { order });
        }
        Ok(Grid { axes, order })
    }

    pub fn axes(self) -> u32
        ensures { result ≡ self.axes }
    {
        self.axes
    }

    // The same as a number that is known to be one of axes.
    pub fn axis_count(self) -> AxisCount
        ensures { result.count ≡ self.axes }
    {
        AxisCount { count: self.axes }
    }

    pub fn order(self) -> u32
        ensures { result ≡ self.order }
    {
        self.order
    }

    // How many coordinates an axis has.
    pub fn side(self) -> u32
        ensures is { result ≡ grid_side self.order }
        ensures positive { 0 < result }
    {
        1 << self.order
    }

    // How many cells there are, and keys.
    pub fn size(self) -> u64
        ensures is { result ≡ grid_size self.axes self.order }
        ensures positive { 0 < result }
    {
        1 << (self.axes * self.order)
    }

    // Whether a key is below the number of cells.
    pub fn check_key(self, key: u64) -> Result<(), Refusal>
        ensures { refusal result ≡ key_check self.axes self.order key }
    {
        if key >= self.size() {
            return Err(Refusal::Key { key });
        }
        Ok(())
    }

    // Whether a key has a next one.
    pub fn check_step(self, key: u64) -> Result<(), Refusal>
        ensures { refusal result ≡ step_check self.axes self.order key }
    {
        self.check_key(key)?;
        if key + 1 == self.size() {
            return Err(Refusal::LastKey { key });
        }
        Ok(())
    }

    // Whether a list has one place for each axis.
    pub fn check_length(self, list: &[u32]) -> Result<(), Refusal>
        ensures { refusal result ≡ length_check self.axes list.now }
    {
        if list.len() != self.axes as usize {
            return Err(Refusal::CellLength { length: list.len() });
        }
        Ok(())
    }

    // Whether a list is a cell of this grid.
    pub fn check(self, cell: &[u32]) -> Result<(), Refusal>
        ensures { refusal result ≡ cell_check self.axes self.order cell.now }
    {
        self.check_length(cell)?;
        if let Some(axis) = lowest_outside(cell, self.side()) {
            return Err(Refusal::Coordinate { axis });
        }
        Ok(())
    }
}

// The lowest axis on which a cell is outside. That a list has at most eight places is asked: a type for it would be made of
// what is lent at every call that asks it.
fn lowest_outside(cell: &[u32], side: u32) -> Option<u32>
    requires { length cell.now ≤ 8 }
    ensures { result ≡ lowest (outside side) cell.now }
{
    cell.iter()
        .position(|x| *x >= side)
        .map(|place| place as u32 + 1)
}
