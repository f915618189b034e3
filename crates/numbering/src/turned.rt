ghost use Rattle.std.specs.Prelude.{◌≡◌, ℕ, ◌≤◌, List};
ghost use Rattle.grid.specs.declared.step.Step.{Step};
ghost use Rattle.numbering.specs.Meaning.{Meaning};
ghost use Rattle.numbering.specs.Turnings.{turned};
ghost use Rattle.numbering.specs.Turned.{Turns, Carries, turned_onekey, turned_nesting, turned_joined};

use crate::numbering::Numbering;
use crate::unbroken::Unbroken;
use grid::{Grid, Refusal, Step};

// What a turning does that changes each cell by itself.
pub trait CellTurn: Copy {
    // The cell that a cell becomes, by the axes and the order of the grid.
    ghost changed: { Self → ℕ → ℕ → List ℕ → List ℕ };

    // The step that a step becomes, by the axes of the grid.
    ghost carried: { Self → ℕ → Step → Step };

    // Changes a cell.
    fn turn_cell(self, grid: Grid, cell: &mut [u32])
        ensures { cell.new ≡ changed self grid.axes grid.order cell.old };

    // The step between two changed cells, from that between the two. Axes count from 1.
    fn turn_step(self, grid: Grid, step: Step) -> Step
        ensures { 1 ≤ step.axis → result ≡ carried self grid.axes step };

    // The change undoes itself, and keeps the grid and its blocks.
    ghost turns: { (x : Self) (m : Meaning) → Turns m (changed x m.axes m.order) };

    // A step that leads from one cell to another becomes one that leads from the one changed to the other changed.
    ghost carries: { (x : Self) (m : Meaning) → Carries m (changed x m.axes m.order) (carried x m.axes) };
}

// The inner numbering with each cell changed.
#[derive(Drop)]
pub struct Turned<T: CellTurn, N: Numbering> {
    pub(crate) inner: N,
    pub(crate) turn: T,
}

impl<T: CellTurn, N: Numbering> Turned<T, N> {
    // Gives the inner numbering back.
    pub fn into_inner(self) -> N
        ensures { result ≡ self.inner }
    {
        self.inner
    }
}

impl<T: CellTurn, N: Numbering> Numbering for Turned<T, N> {
    ghost meaning = { λ x.
        let m = N.Numbering.meaning x.inner in
        turned (T.CellTurn.changed x.turn m.axes m.order) m };

    ghost limits = { λ x. N.Numbering.limits x.inner };

    ghost onekey = { λ x.
        let m = N.Numbering.meaning x.inner in
        turned_onekey m (N.Numbering.onekey x.inner) _ (T.CellTurn.turns x.turn m) };

    ghost nesting = { λ x.
        let m = N.Numbering.meaning x.inner in
        turned_nesting m (N.Numbering.onekey x.inner) _ (T.CellTurn.turns x.turn m) (N.Numbering.nesting x.inner) };

    fn grid(&self) -> Grid {
        self.inner.grid()
    }

    fn cell_of(&self, key: u64, cell: &mut [u32]) -> Result<(), Refusal> {
        self.inner.cell_of(key, cell)?;
        self.turn.turn_cell(self.grid(), cell);
        Ok(())
    }

    fn key_of(&self, cell: &[u32]) -> Result<u64, Refusal> {
        let grid = self.grid();
        grid.check(cell)?;
        // The front of eight places: no call of a numbering asks for memory, and a slice has its length.
        let mut places = [0; 8];
        let turned = &mut places[0..cell.len()];
        turned.copy_from_slice(cell);
        self.turn.turn_cell(grid, turned);
        self.inner.key_of(turned)
    }
}

impl<T: CellTurn, N: Unbroken> Unbroken for Turned<T, N> {
    ghost joined = { λ x.
        let m = N.Numbering.meaning x.inner in
        turned_joined m (N.Numbering.onekey x.inner) _ (T.CellTurn.turns x.turn m) _ (T.CellTurn.carries x.turn m) (N.Unbroken.joined x.inner) };

    fn step(&self, key: u64) -> Result<Step, Refusal> {
        let step = self.inner.step(key)?;
        Ok(self.turn.turn_step(self.grid(), step))
    }
}
