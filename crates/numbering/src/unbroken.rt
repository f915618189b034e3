ghost use Rattle.std.specs.Prelude.{◌≡◌, ◌-◌};
ghost use Rattle.numbering.specs.Calls.{StepAnswer};
ghost use Rattle.numbering.specs.Faces.{FaceToFace, OneStep};
ghost use Rattle.numbering.specs.Meaning.{size};

use crate::numbering::Numbering;
use grid::{Refusal, Step};

// A numbering whose consecutive cells share a face.
pub trait Unbroken: Numbering {
    // The step from the cell of a key to that of the next one.
    fn step(&self, key: u64) -> Result<Step, Refusal>
        ensures { StepAnswer (Self.Numbering.meaning self.now) key result };

    // How many steps there are from the first cell to the last: the cells of c and c + 1 share a face, for all keys at once, and one step alone leads from the one to the other.
    fn steps(&self) -> u64
        ensures count { result ≡ size (Self.Numbering.meaning self.now) - 1 }
        ensures joined { FaceToFace (Self.Numbering.meaning self.now) }
        ensures one { OneStep }
    {
        self.grid().size() - 1
    }

    ghost joined: { (x : Self) → FaceToFace (Self.Numbering.meaning x) };
}
