ghost use Rattle.std.specs.Prelude.{◌≡◌, ℕ, ◌^◌, ◌<◌, T};
ghost use Rattle.grid.specs.Grids.{Limits};
ghost use Rattle.machine.specs.Machines.{Machine as Model, Exact, keys};
ghost use Rattle.machine.specs.Means.{AlwaysLawful};

use grid::Grid;

// A machine that is followed from one of its states, one digit for each level of the order.
pub trait Machine {
    type State: Copy;

    ghost model: { Self → Model 2 Self.State };

    // The state to begin with.
    ghost begin: { Self → Self.State };

    // The order.
    ghost depth: { Self → ℕ };

    fn grid(&self) -> Grid
        ensures axes { result.axes ≡ (model self.now).n }
        ensures order { result.order ≡ depth self.now };

    fn first(&self) -> Self::State
        ensures { result ≡ begin self.now };

    // The next three require a state and a digit of this machine: which there are depends on `self`, so no type can say it.

    // The n-point of a digit.
    fn point(&self, state: Self::State, digit: u32) -> u32
        requires state { T ((model self.now).is_state state) }
        requires small { digit < 2 ^ (model self.now).n }
        ensures { result ≡ (model self.now).point state digit };

    // The digit of an n-point.
    fn digit(&self, state: Self::State, point: u32) -> u32
        requires state { T ((model self.now).is_state state) }
        requires small { point < 2 ^ (model self.now).n }
        ensures small { result < 2 ^ (model self.now).n }
        ensures is { (model self.now).point state result ≡ point };

    // The state after a digit.
    fn next(&self, state: Self::State, digit: u32) -> Self::State
        requires state { T ((model self.now).is_state state) }
        requires small { digit < 2 ^ (model self.now).n }
        ensures { result ≡ (model self.now).next state digit };

    // How many keys there are. At every order within the limits, and from every state, this machine is a lawful numbering.
    fn size(&self) -> u64
        ensures count { result ≡ keys (model self.now) (depth self.now) }
        ensures lawful { AlwaysLawful (model self.now) }
    {
        self.grid().size()
    }

    // In each state every n-point stands exactly once: both laws of a numbering follow.
    ghost exact: { (x : Self) → Exact (model x) };

    ghost begins: { (x : Self) → T ((model x).is_state (begin x)) };

    ghost limits: { (x : Self) → Limits (model x).n (depth x) };
}
