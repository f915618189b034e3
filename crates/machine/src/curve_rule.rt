ghost use Rattle.std.specs.Prelude.{◌≡◌, ℕ, ◌^◌, ◌<◌, ◌≤◌, T};
ghost use Rattle.machine.specs.Machines.{Machine as Model, Exact};
ghost use Rattle.machine.specs.Rules.{Rules};

use grid::AxisCount;

// A rule by which a digit leads on: for each number of axes it gives a machine, and one state to begin with.
pub trait CurveRule {
    type State: Copy;

    // The machine for a number of axes.
    ghost model: { ℕ → Model 2 Self.State };

    // The state to begin with.
    ghost begin: { Self.State };

    fn first() -> Self::State
        ensures { result ≡ begin };

    // The next three require a state and a digit of the machine for these axes: which there are depends on the axes, so no
    // type can say it.

    // The n-point of a digit.
    fn point(axes: AxisCount, state: Self::State, digit: u32) -> u32
        requires state { T ((model axes.count).is_state state) }
        requires small { digit < 2 ^ (model axes.count).n }
        ensures { result ≡ (model axes.count).point state digit };

    // The digit of an n-point.
    fn digit(axes: AxisCount, state: Self::State, point: u32) -> u32
        requires state { T ((model axes.count).is_state state) }
        requires small { point < 2 ^ (model axes.count).n }
        ensures small { result < 2 ^ (model axes.count).n }
        ensures is { (model axes.count).point state result ≡ point };

    // The state after a digit.
    fn next(axes: AxisCount, state: Self::State, digit: u32) -> Self::State
        requires state { T ((model axes.count).is_state state) }
        requires small { digit < 2 ^ (model axes.count).n }
        ensures { result ≡ (model axes.count).next state digit };

    // The machine for n axes has n.
    ghost same_axes: { (n : ℕ) → (model n).n ≡ n };

    // In each state every n-point stands exactly once.
    ghost exact: { (n : ℕ) → 2 ≤ n → n ≤ 8 → Exact (model n) };

    ghost begins: { (n : ℕ) → 2 ≤ n → n ≤ 8 → T ((model n).is_state begin) };
}

// A rule whose blocks meet: consecutive cells share a face.
pub trait JoinedRule: CurveRule {
    ghost rules: { (n : ℕ) → 2 ≤ n → n ≤ 8 → Rules (Self.CurveRule.model n) };
}
