ghost use Rattle.std.specs.Prelude.{◌≡◌, ◌<◌, ◌≤◌, length, take};
ghost use Rattle.numbering.specs.Calls.{StepAnswer};
ghost use Rattle.numbering.specs.Faces.{ShareFace, Leads};
ghost use Rattle.numbering.specs.Meaning.{size};
ghost use Rattle.machine.specs.Followed.{meaning_of};

use crate::follow::to_cell;
use crate::joined::JoinedMachine;
use crate::machine::Machine;
use grid::{Direction, Refusal, Step};

// The step from the cell of a key to that of the next one.
pub fn step_by<M: JoinedMachine>(m: &M, key: u64) -> Result<Step, Refusal>
    ensures { StepAnswer (meaning_of M.Machine m.now) key result }
{
    let grid = m.grid();
    grid.check_step(key)?;
    let axes = grid.axes() as usize;
    let here = places_of(m, key);
    let there = places_of(m, key + 1);
    Ok(step_between(&here[..axes], &there[..axes]))
}

// The cell of a key at the front of eight places, since no call of a numbering asks for memory.
fn places_of<M: Machine>(m: &M, key: u64) -> [u32; 8]
    requires { key < size (meaning_of M.Machine m.now) }
    ensures { let m' = meaning_of M.Machine m.now in take m'.axes result ≡ m'.cell key }
{
    let mut places = [0; 8];
    to_cell(m, key, &mut places[..m.grid().axes() as usize]);
    places
}

// The step between two cells that share a face. That they have at most eight places is asked: a type for such a list would be
// made of what is lent at every call that asks it.
fn step_between(here: &[u32], there: &[u32]) -> Step
    requires few { length here.now ≤ 8 }
    requires same { length there.now ≡ length here.now }
    requires face { ShareFace (length here.now) here.now there.now }
    ensures { Leads (length here.now) result here.now there.now }
{
    let Some(place) = here.iter().zip(there).position(|(a, b)| a != b) else {
        unreachable()
    };
    let direction = if here[place] < there[place] {
        Direction::Up
    } else {
        Direction::Down
    };
    Step {
        axis: place as u32 + 1,
        direction,
    }
}
