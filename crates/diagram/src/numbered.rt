ghost use Rattle.std.specs.Prelude.{◌≡◌, ◌≤◌, ◌&&◌, ◌++◌, length, drop, nat_lt, slice_index_or, Contains};
ghost use Rattle.diagram.specs.Diagrams.{Noted};
ghost use Rattle.diagram.specs.Pairs.{origin};
ghost use Rattle.diagram.specs.States.{most_states, number_of, same_pair};
ghost use Rattle.diagram.specs.States.{states as numbered_states};

use crate::pair::Pair;
use crate::sequence::Sequence;
use crate::state::State;
use grid::AxisCount;

// The rows of a diagram, how many states it has, and where the number of each is noted: at its slot. The slots are those of eight axes, so no heap is needed.
#[derive(Drop)]
pub(crate) struct Numbers {
    pub(crate) sequence: Sequence,
    count: usize,
    notes: [u16; 2048],
    ghost counted: { count ≡ length (numbered_states sequence.axes.count) },
    ghost noted: { Noted sequence.axes.count (numbered_states sequence.axes.count) notes },
}

impl Numbers {
    // Numbers the states as they are first met, at the front of the list.
    pub(crate) fn new(axes: AxisCount, states: &mut [Pair]) -> Numbers
        requires { most_states axes.count ≤ length states.old }
        ensures axes { result.sequence.axes ≡ axes }
        ensures listed { let l = numbered_states axes.count in states.new ≡ l ++ drop (length l) states.old }
    {
        let sequence = Sequence::new(axes);
        let mut notes = [0; 2048];
        states[0] = State::first(axes).pair;
        let mut count = 1;
        let mut taken = 0;
        // By index: the list grows while it is walked, and an iterator would hold it.
        while taken < count {
            let pair = states[taken];
            let state = State { axes, pair };
            for point in 0..axes.points() {
                let next = sequence.next(state, state.digit(point));
                let slot = next.slot();
                if !is_number(&states[..count], usize::from(notes[slot]), next.pair) {
                    states[count] = next.pair;
                    notes[slot] = count as u16;
                    count += 1;
                }
            }
            taken += 1;
        }
        Numbers {
            sequence,
            count,
            notes,
        }
    }

    pub(crate) fn count(&self) -> usize
        ensures is { result ≡ length (numbered_states self.now.sequence.axes.count) }
        ensures few { result ≤ 1024 }
    {
        self.count
    }

    // The number of a state.
    pub(crate) fn of(&self, state: State) -> u16
        requires axes { self.now.sequence.axes ≡ state.axes }
        requires known { Contains (numbered_states state.axes.count) state.pair }
        ensures { result ≡ number_of (numbered_states state.axes.count) state.pair }
    {
        self.notes[state.slot()]
    }
}

// Whether a number is that of the state.
fn is_number(states: &[Pair], number: usize, state: Pair) -> bool
    ensures { result ≡ (nat_lt number (length states.now) && same_pair state (slice_index_or states.now number origin)) }
{
    states.get(number) == Some(&state)
}
