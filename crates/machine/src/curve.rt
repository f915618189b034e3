ghost use Rattle.std.specs.Prelude.{◌≡◌};
ghost use Rattle.grid.specs.Answers.{refusal, unless};
ghost use Rattle.grid.specs.Grids.{grid_refusal};
ghost use Rattle.grid.proofs.Limited.{limited};
ghost use Rattle.machine.specs.Means.{means};
ghost use Rattle.machine.specs.Curves.{curve_limits, curve_lawful, curve_unbroken};

use crate::calls::{cell_by, key_by};
use crate::curve_rule::{CurveRule, JoinedRule};
use crate::joined::JoinedMachine;
use crate::machine::Machine;
use crate::steps::step_by;
use grid::{Grid, Refusal, Step};
use numbering::{Numbering, Unbroken};
use std::marker::PhantomData;

// The numbering by a rule, in a grid that can be set: it stores no table.
#[derive(Drop)]
pub struct Curve<R> {
    pub(crate) grid: Grid,
    rule: PhantomData<R>,
}

impl<R> Curve<R> {
    // At first of two axes and order 1.
    pub fn new() -> Curve<R>
        ensures axes { result.grid.axes ≡ 2 }
        ensures order { result.grid.order ≡ 1 }
    {
        Curve {
            grid: Grid::new(2, 1).unwrap(),
            rule: PhantomData,
        }
    }

    // Sets the axes and the order; refused, both are as they were.
    pub fn set(&mut self, axes: u32, order: u32) -> Result<(), Refusal>
        ensures refused { refusal result ≡ grid_refusal axes order }
        ensures axes { self.new.grid.axes ≡ unless (grid_refusal axes order) axes self.old.grid.axes }
        ensures order { self.new.grid.order ≡ unless (grid_refusal axes order) order self.old.grid.order }
    {
        self.grid = Grid::new(axes, order)?;
        Ok(())
    }
}

impl<R: CurveRule> Machine for Curve<R> {
    type State = R::State;

    ghost model = { λ x. R.model x.grid.axes };

    ghost begin = { λ _. R.begin };

    ghost depth = { λ x. x.grid.order };

    ghost exact = { λ x. let l = limited x.grid.limits in R.exact x.grid.axes l.least_axes l.most_axes };

    ghost begins = { λ x. let l = limited x.grid.limits in R.begins x.grid.axes l.least_axes l.most_axes };

    ghost limits = { λ x. curve_limits R.model x.grid R.same_axes };

    fn grid(&self) -> Grid {
        self.grid
    }

    fn first(&self) -> R::State {
        R::first()
    }

    fn point(&self, state: R::State, digit: u32) -> u32 {
        R::point(self.grid.axis_count(), state, digit)
    }

    fn digit(&self, state: R::State, point: u32) -> u32 {
        R::digit(self.grid.axis_count(), state, point)
    }

    fn next(&self, state: R::State, digit: u32) -> R::State {
        R::next(self.grid.axis_count(), state, digit)
    }
}

impl<R: JoinedRule> JoinedMachine for Curve<R> {
    ghost rules = { λ x. let l = limited x.grid.limits in R.rules x.grid.axes l.least_axes l.most_axes };
}

impl<R: CurveRule> Numbering for Curve<R> {
    ghost meaning = { λ x. means (R.model x.grid.axes) x.grid.order R.begin };

    ghost limits = { λ x. (curve_lawful R.model x.grid R.begin R.exact R.begins R.same_axes).limits };

    ghost onekey = { λ x. (curve_lawful R.model x.grid R.begin R.exact R.begins R.same_axes).one_key };

    ghost nesting = { λ x. (curve_lawful R.model x.grid R.begin R.exact R.begins R.same_axes).nesting };

    fn grid(&self) -> Grid {
        Machine::grid(self)
    }

    fn cell_of(&self, key: u64, cell: &mut [u32]) -> Result<(), Refusal> {
        cell_by(self, key, cell)
    }

    fn key_of(&self, cell: &[u32]) -> Result<u64, Refusal> {
        key_by(self, cell)
    }
}

impl<R: JoinedRule> Unbroken for Curve<R> {
    ghost joined = { λ x. curve_unbroken R.model x.grid R.begin R.exact R.begins R.rules };

    fn step(&self, key: u64) -> Result<Step, Refusal> {
        step_by(self, key)
    }
}
