ghost use Rattle.std.specs.Prelude.{◌≡◌, ◌+◌, ◌-◌, ◌≤◌};
ghost use Rattle.grid.specs.Answers.{refusal, unless};
ghost use Rattle.numbering.specs.Calls.{axes_refusal};
ghost use Rattle.numbering.specs.Turnings.{exchange_cell, partner};
ghost use Rattle.numbering.specs.Exchanges.{exchange_turns, exchange_step, exchange_carries};

use crate::axes::check_axis;
use crate::numbering::Numbering;
use crate::turned::{CellTurn, Turned};
use grid::{Grid, Refusal, Step};

// The inner numbering with two coordinates exchanged; equal axes exchange nothing.
pub type Exchange<N> = Turned<ExchangedAxes, N>;

// The two axes whose coordinates change places.
#[derive(Clone, Copy, PartialEq, Eq, Debug)]
pub struct ExchangedAxes {
    // Counted from 1. No call sets an axis past the last, which would exchange nothing.
    first: u32,
    second: u32,
    ghost counted: { (1 ≤ first) × (1 ≤ second) },
}

impl<N: Numbering> Turned<ExchangedAxes, N> {
    // The exchange of axes 1 and 2.
    pub fn new(inner: N) -> Self
        ensures inner { result.inner ≡ inner }
        ensures first { result.turn.first ≡ 1 }
        ensures second { result.turn.second ≡ 2 }
    {
        Turned {
            inner,
            turn: ExchangedAxes {
                first: 1,
                second: 2,
            },
        }
    }

    // Exchanges other axes, counted from 1; refused, it keeps the former.
    pub fn set_axes(&mut self, first: u32, second: u32) -> Result<(), Refusal>
        ensures refused { refusal result ≡ axes_refusal (N.Numbering.meaning self.old.inner) first second }
        ensures inner { self.new.inner ≡ self.old.inner }
        ensures first { self.new.turn.first ≡ unless (axes_refusal (N.Numbering.meaning self.old.inner) first second) first self.old.turn.first }
        ensures second { self.new.turn.second ≡ unless (axes_refusal (N.Numbering.meaning self.old.inner) first second) second self.old.turn.second }
    {
        check_axis(&self.inner, first)?;
        check_axis(&self.inner, second)?;
        self.turn = ExchangedAxes { first, second };
        Ok(())
    }
}

impl ExchangedAxes {
    // The axis whose coordinate comes to this axis, of so many.
    fn other(self, axes: u32, axis: u32) -> u32
        ensures { 1 ≤ axis → result ≡ partner axes (self.first - 1) (self.second - 1) (axis - 1) + 1 }
    {
        if self.first > axes || self.second > axes {
            axis
        } else if axis == self.first {
            self.second
        } else if axis == self.second {
            self.first
        } else {
            axis
        }
    }
}

impl CellTurn for ExchangedAxes {
    ghost changed = { λ x axes order. exchange_cell (x.first - 1) (x.second - 1) };

    ghost carried = { λ x axes. exchange_step axes (x.first - 1) (x.second - 1) };

    ghost turns = { λ x m. exchange_turns m (x.first - 1) (x.second - 1) };

    ghost carries = { λ x m. exchange_carries m (x.first - 1) (x.second - 1) };

    fn turn_cell(self, _grid: Grid, cell: &mut [u32]) {
        let first = (self.first - 1) as usize;
        let second = (self.second - 1) as usize;
        if first < cell.len() && second < cell.len() {
            cell.swap(first, second);
        }
    }

    fn turn_step(self, grid: Grid, step: Step) -> Step {
        Step {
            axis: self.other(grid.axes(), step.axis),
            ..step
        }
    }
}
