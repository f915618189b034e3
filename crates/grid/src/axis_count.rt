ghost use Rattle.std.specs.Prelude.{◌≡◌, ◌^◌, ◌≤◌};

use crate::refusal::Refusal;

// A number of axes that a grid can have.
#[derive(Clone, Copy, PartialEq, Eq, Debug)]
pub struct AxisCount {
    pub(crate) count: u32,
    ghost least: { 2 ≤ count },
    ghost most: { count ≤ 8 },
}

impl AxisCount {
    pub fn get(self) -> u32
        ensures { result ≡ self.count }
    {
        self.count
    }

    // How many n-points there are, and digits of a key.
    pub fn points(self) -> u32
        ensures is { result ≡ 2 ^ self.count }
        ensures few { result ≤ 256 }
    {
        1 << self.count
    }
}

impl TryFrom<u32> for AxisCount {
    ghost use Rattle.grid.specs.AxisCounts.{CountAnswer};

    type Error = Refusal;

    ghost try_from_gives = { CountAnswer };

    fn try_from(axes: u32) -> Result<AxisCount, Refusal> {
        if axes < 2 || axes > 8 {
            return Err(Refusal::Axes { axes });
        }
        Ok(AxisCount { count: axes })
    }
}
