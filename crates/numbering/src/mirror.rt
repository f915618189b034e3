ghost use Rattle.std.specs.Prelude.{◌≡◌, ◌-◌, ◌≤◌};
ghost use Rattle.grid.specs.Answers.{refusal, unless};
ghost use Rattle.grid.specs.Grids.{grid_side};
ghost use Rattle.numbering.specs.Calls.{axis_refusal};
ghost use Rattle.numbering.specs.Turnings.{mirror_cell};
ghost use Rattle.numbering.specs.Mirrors.{mirror_turns, mirror_step, mirror_carries};

use crate::axes::check_axis;
use crate::numbering::Numbering;
use crate::turned::{CellTurn, Turned};
use grid::{Grid, Refusal, Step};

// The inner numbering with one coordinate x replaced by the side less 1 less x.
pub type Mirror<N> = Turned<MirrorAxis, N>;

// The axis whose coordinate a mirror replaces.
#[derive(Clone, Copy, PartialEq, Eq, Debug)]
pub struct MirrorAxis {
    // Counted from 1. No call sets an axis past the last, which would mirror nothing.
    axis: u32,
    ghost counted: { 1 ≤ axis },
}

impl<N: Numbering> Turned<MirrorAxis, N> {
    // The mirror on axis 1.
    pub fn new(inner: N) -> Self
        ensures inner { result.inner ≡ inner }
        ensures axis { result.turn.axis ≡ 1 }
    {
        Turned {
            inner,
            turn: MirrorAxis { axis: 1 },
        }
    }

    // Mirrors on another axis, counted from 1; refused, it keeps the former.
    pub fn set_axis(&mut self, axis: u32) -> Result<(), Refusal>
        ensures refused { refusal result ≡ axis_refusal (N.Numbering.meaning self.old.inner) axis }
        ensures inner { self.new.inner ≡ self.old.inner }
        ensures axis { self.new.turn.axis ≡ unless (axis_refusal (N.Numbering.meaning self.old.inner) axis) axis self.old.turn.axis }
    {
        check_axis(&self.inner, axis)?;
        self.turn = MirrorAxis { axis };
        Ok(())
    }
}

impl CellTurn for MirrorAxis {
    ghost changed = { λ x axes order. mirror_cell (grid_side order) (x.axis - 1) };

    ghost carried = { λ x axes. mirror_step (x.axis - 1) };

    ghost turns = { λ x m. mirror_turns m (x.axis - 1) };

    ghost carries = { λ x m. mirror_carries m (x.axis - 1) };

    // By index: once what a slice's get_mut lends is given back, a proof knows none of the elements.
    // A coordinate past the side becomes 0, so any cell may be given.
    #[tactic(auto, using(std::proofs::lemmas::List::set_past))]
    fn turn_cell(self, grid: Grid, cell: &mut [u32]) {
        let place = (self.axis - 1) as usize;
        if place < cell.len() {
            cell[place] = (grid.side() - 1).saturating_sub(cell[place]);
        }
    }

    fn turn_step(self, _grid: Grid, step: Step) -> Step {
        if step.axis != self.axis {
            return step;
        }
        Step {
            direction: step.direction.opposite(),
            ..step
        }
    }
}
