ghost use Rattle.std.specs.Prelude.{refl};
ghost use Rattle.machine.specs.Z.{z_machine};
ghost use Rattle.machine.specs.ZExact.{z_exact};

use crate::curve::Curve;
use crate::curve_rule::CurveRule;
use grid::AxisCount;

// One state, in which each digit is its own n-point.
pub struct ZRule;

// The Z numbering: a key has the bits of the coordinates by turns, axis 1 first, most significant first. It is not unbroken.
pub type ZOrder = Curve<ZRule>;

impl CurveRule for ZRule {
    type State = ();

    ghost model = { z_machine };

    ghost begin = { tt };

    ghost same_axes = { λ _. refl };

    ghost exact = { λ n _ _. z_exact n };

    ghost begins = { λ _ _ _. tt };

    fn first() {}

    fn point(_axes: AxisCount, _state: (), digit: u32) -> u32 {
        digit
    }

    fn digit(_axes: AxisCount, _state: (), point: u32) -> u32 {
        point
    }

    fn next(_axes: AxisCount, state: (), _digit: u32) {
        state
    }
}
