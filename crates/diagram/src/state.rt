ghost use Rattle.std.specs.Prelude.{◌≡◌, ◌+◌, ◌%◌, ◌^◌, ◌<◌, ◌≤◌};
ghost use Rattle.diagram.specs.Diagrams.{slot as slot_of};
ghost use Rattle.diagram.specs.Pairs.{next_of, origin, point_of, seen_from};

use crate::pair::Pair;
use crate::rows::{gray, rotate, shift_of, start_of, ungray};
use grid::AxisCount;

// A state of the diagram of that many axes.
#[derive(Clone, Copy)]
pub(crate) struct State {
    pub(crate) axes: AxisCount,
    pub(crate) pair: Pair,
    ghost start: { pair.start < 2 ^ axes.count },
    ghost shift: { pair.shift < axes.count },
}

// A digit or an n-point is required to be below 2^n: as a type with axes of its own it would be made and taken apart at each call.
impl State {
    // The state to begin with.
    pub(crate) fn first(axes: AxisCount) -> State
        ensures axes { result.axes ≡ axes }
        ensures pair { result.pair ≡ origin }
    {
        State {
            axes,
            pair: Pair { start: 0, shift: 0 },
        }
    }

    // The n-point of a digit.
    pub(crate) fn point(self, digit: u32) -> u32
        requires { digit < 2 ^ self.axes.count }
        ensures is { result ≡ point_of self.axes.count self.pair digit }
        ensures small { result < 256 }
    {
        (rotate(self.axes, self.pair.shift, gray(u64::from(digit))) ^ self.pair.start) as u32
    }

    // The digit of an n-point. No search: the point is turned back, and its Gray code undone.
    pub(crate) fn digit(self, point: u32) -> u32
        requires { point < 2 ^ self.axes.count }
        ensures small { result < 2 ^ self.axes.count }
        ensures is { point_of self.axes.count self.pair result ≡ point }
    {
        let back = self.axes.get() - self.pair.shift;
        ungray(rotate(self.axes, back, u64::from(point) ^ self.pair.start)) as u32
    }

    // The state after a digit.
    pub(crate) fn next(self, digit: u32) -> State
        requires { digit < 2 ^ self.axes.count }
        ensures axes { result.axes ≡ self.axes }
        ensures pair { result.pair ≡ next_of self.axes.count self.pair digit }
    {
        let row = u64::from(digit);
        self.turned_by(start_of(self.axes, row), shift_of(self.axes, row))
    }

    // The state that a row with this start and shift leads to.
    pub(crate) fn turned_by(self, start: u64, shift: u32) -> State
        requires start { start < 2 ^ self.axes.count }
        requires shift { shift ≤ self.axes.count }
        ensures axes { result.axes ≡ self.axes }
        ensures start { result.pair.start ≡ seen_from self.axes.count self.pair start }
        ensures shift { result.pair.shift ≡ (self.pair.shift + shift) % self.axes.count }
    {
        State {
            axes: self.axes,
            pair: Pair {
                start: rotate(self.axes, self.pair.shift, start) ^ self.pair.start,
                shift: (self.pair.shift + shift) % self.axes.get(),
            },
        }
    }

    // Where the number of this state is noted.
    pub(crate) fn slot(self) -> usize
        ensures is { result ≡ slot_of self.axes.count self.pair }
        ensures within { result < 2048 }
    {
        self.pair.shift as usize * self.axes.points() as usize + self.pair.start as usize
    }
}
