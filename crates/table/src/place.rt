ghost use Rattle.std.specs.Prelude.{◌≡◌, ◌+◌, ◌*◌, ◌^◌};

use grid::AxisCount;

// An entry of a table, by its state and its digit.
#[derive(Clone, Copy, PartialEq, Eq, Debug)]
pub(crate) struct Place {
    pub(crate) state: u32,
    pub(crate) digit: u32,
}

impl Place {
    // Where the entry stands in its list.
    pub(crate) fn index(self, axes: AxisCount) -> usize
        ensures { result ≡ self.state * 2 ^ axes.count + self.digit }
    {
        self.state as usize * axes.points() as usize + self.digit as usize
    }
}
