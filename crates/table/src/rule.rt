ghost use Rattle.std.specs.Prelude.{◌≡◌};
ghost use Rattle.table.specs.Checks.{rule_refusal};

use crate::place::Place;
use grid::Refusal;

// The rules of a table.
#[derive(Clone, Copy, PartialEq, Eq, Debug)]
pub(crate) enum Rule {
    // 4: in each state every n-point stands exactly once.
    Points,
    // 5: every next state is one of the table's.
    NextStates,
    // 6: the n-points of consecutive digits differ in exactly one bit.
    Neighbours,
    // 7: the first and the last n-point are those of the next states there.
    Corners,
    // 8: the block of a digit ends where that of the next one begins.
    Blocks,
}

impl Rule {
    // In the order in which they are tried.
    pub(crate) const ALL: [Rule; 5] = [
        Rule::Points,
        Rule::NextStates,
        Rule::Neighbours,
        Rule::Corners,
        Rule::Blocks,
    ];

    // The refusal of a table that breaks this rule at that place.
    pub(crate) fn refusal(self, place: Place) -> Refusal
        ensures { result ≡ rule_refusal self place.state place.digit }
    {
        let Place { state, digit } = place;
        match self {
            Rule::Points => Refusal::PointRepeated { state, digit },
            Rule::NextStates => Refusal::NextState { state, digit },
            Rule::Neighbours => Refusal::PointsApart { state, digit },
            Rule::Corners => Refusal::CornerMoved { state, digit },
            Rule::Blocks => Refusal::BlocksApart { state, digit },
        }
    }
}
