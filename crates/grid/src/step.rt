ghost use Rattle.std.specs.Prelude.{◌≡◌, Some};

use std::fmt;

// Along an axis: towards higher coordinates or lower ones.
#[derive(Clone, Copy, PartialEq, Eq, Debug)]
pub enum Direction {
    Up,
    Down,
}

impl Direction {
    ghost use Rattle.grid.specs.Steps.{opposite};

    pub fn opposite(self) -> Direction
        ensures { result ≡ opposite self }
    {
        match self {
            Direction::Up => Direction::Down,
            Direction::Down => Direction::Up,
        }
    }
}

impl fmt::Display for Direction {
    ghost use Rattle.grid.specs.Steps.{word};

    ghost output = { λ d. Some (word d) };

    fn fmt<W: fmt::Write>(&self, f: &mut fmt::Formatter<W>) -> fmt::Result {
        f.write_str(match self {
            Direction::Up => "up",
            Direction::Down => "down",
        })
    }
}

// From a cell to one that shares a face with it: one axis, counted from 1, up or down by one.
#[derive(Clone, Copy, PartialEq, Eq, Debug)]
pub struct Step {
    pub axis: u32,
    pub direction: Direction,
}
