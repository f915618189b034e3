ghost use Rattle.std.specs.Prelude.{refl};
ghost use Rattle.diagram.specs.Pairs.{pair_machine, origin};
ghost use Rattle.diagram.specs.Kept.{pairs_exact, pairs_rules};
ghost use Rattle.diagram.specs.Reckon.{origin_state};

use crate::pair::Pair;
use crate::state::State;
use grid::AxisCount;
use machine::{Curve, CurveRule, JoinedRule};

// The states are pairs; what a digit has in them is reckoned with starts and shifts.
pub struct HilbertRule;

// Hilbert's curve, reckoned with starts and shifts: it stores no table.
pub type Reckoned = Curve<HilbertRule>;

impl CurveRule for HilbertRule {
    type State = Pair;

    ghost model = { pair_machine };

    ghost begin = { origin };

    ghost same_axes = { λ _. refl };

    ghost exact = { pairs_exact };

    ghost begins = { origin_state };

    fn first() -> Pair {
        Pair { start: 0, shift: 0 }
    }

    fn point(axes: AxisCount, pair: Pair, digit: u32) -> u32 {
        State { axes, pair }.point(digit)
    }

    fn digit(axes: AxisCount, pair: Pair, point: u32) -> u32 {
        State { axes, pair }.digit(point)
    }

    fn next(axes: AxisCount, pair: Pair, digit: u32) -> Pair {
        State { axes, pair }.next(digit).pair
    }
}

impl JoinedRule for HilbertRule {
    ghost rules = { pairs_rules };
}
