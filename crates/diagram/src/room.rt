ghost use Rattle.std.specs.Prelude.{◌≡◌, ◌*◌, ◌^◌, IfOk};
ghost use Rattle.grid.specs.Answers.{refusal};
ghost use Rattle.diagram.specs.Diagrams.{room_refusal};
ghost use Rattle.diagram.specs.States.{most_states};

use grid::{AxisCount, Refusal};

// How long the lists have to be to which a diagram is written.
#[derive(Clone, Copy, PartialEq, Eq, Debug)]
pub struct DiagramRoom {
    pub states: usize,
    pub entries: usize,
}

impl DiagramRoom {
    // The room for the diagram of that many axes.
    pub(crate) fn new(axes: AxisCount) -> DiagramRoom
        ensures states { result.states ≡ most_states axes.count }
        ensures entries { result.entries ≡ most_states axes.count * 2 ^ axes.count }
    {
        let points = axes.points() as usize;
        let states = axes.get() as usize * (points / 2);
        DiagramRoom {
            states,
            entries: states * points,
        }
    }
}

// The room for the diagram of that many axes.
pub fn diagram_room(axes: u32) -> Result<DiagramRoom, Refusal>
    ensures refused { refusal result ≡ room_refusal axes }
    ensures states { IfOk result (λ room. room.states ≡ most_states axes) }
    ensures entries { IfOk result (λ room. room.entries ≡ most_states axes * 2 ^ axes) }
{
    let axes = AxisCount::try_from(axes)?;
    Ok(DiagramRoom::new(axes))
}
