ghost use Rattle.std.specs.Prelude.{◌≡◌};
ghost use Rattle.numbering.specs.Turnings.{reversed};
ghost use Rattle.numbering.specs.Reversals.{reversed_onekey, reversed_nesting, reversed_joined};

use crate::numbering::Numbering;
use crate::unbroken::Unbroken;
use grid::{Grid, Refusal, Step};

// Key c has the cell of the inner numbering's key N - 1 - c.
// Not a `Turned`: that changes cells and keeps their keys, and a trait for both would give each an empty half.
#[derive(Drop)]
pub struct Reversal<N: Numbering> {
    inner: N,
}

impl<N: Numbering> Reversal<N> {
    pub fn new(inner: N) -> Self
        ensures { result.inner ≡ inner }
    {
        Reversal { inner }
    }

    // Gives the inner numbering back.
    pub fn into_inner(self) -> N
        ensures { result ≡ self.inner }
    {
        self.inner
    }
}

impl<N: Numbering> Numbering for Reversal<N> {
    ghost meaning = { λ x. reversed (N.Numbering.meaning x.inner) };

    ghost limits = { λ x. N.Numbering.limits x.inner };

    ghost onekey = { λ x. reversed_onekey (N.Numbering.meaning x.inner) (N.Numbering.onekey x.inner) };

    ghost nesting = { λ x. reversed_nesting (N.Numbering.meaning x.inner) (N.Numbering.nesting x.inner) };

    fn grid(&self) -> Grid {
        self.inner.grid()
    }

    fn cell_of(&self, key: u64, cell: &mut [u32]) -> Result<(), Refusal> {
        let grid = self.inner.grid();
        grid.check_key(key)?;
        self.inner.cell_of(grid.size() - 1 - key, cell)
    }

    fn key_of(&self, cell: &[u32]) -> Result<u64, Refusal> {
        let key = self.inner.key_of(cell)?;
        Ok(self.inner.grid().size() - 1 - key)
    }
}

impl<N: Unbroken> Unbroken for Reversal<N> {
    ghost joined = { λ x. reversed_joined (N.Numbering.meaning x.inner) (N.Unbroken.joined x.inner) };

    fn step(&self, key: u64) -> Result<Step, Refusal> {
        let grid = self.inner.grid();
        grid.check_step(key)?;
        let step = self.inner.step(grid.size() - 2 - key)?;
        Ok(Step {
            direction: step.direction.opposite(),
            ..step
        })
    }
}
