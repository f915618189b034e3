ghost use Rattle.std.specs.Prelude.{◌≡◌, length, IfOk, None};
ghost use Rattle.grid.specs.Answers.{refusal, OrMemory};
ghost use Rattle.diagram.specs.Diagrams.{entries as diagram_entries};
ghost use Rattle.diagram.specs.States.{states as diagram_states};

use crate::entry::Entry;
use crate::pair::Pair;
use crate::room::DiagramRoom;
use crate::writing::write_diagram;
use grid::{AxisCount, Refusal};
use std::alloc::Global;

// A diagram as a table: how many states it has, and their entries by state and digit.
#[derive(Drop)]
pub struct DiagramTable {
    pub states: u32,
    pub entries: Vec<Entry>,
}

impl DiagramTable {
    // The diagram of that many axes. Only memory can fail, but the error is the one of all calls.
    pub fn new(heap: Global, axes: AxisCount) -> Result<DiagramTable, Refusal>
        ensures refused { OrMemory None (refusal result) }
        ensures states { IfOk result (λ t. t.states ≡ length (diagram_states axes.count)) }
        ensures entries { IfOk result (λ t. t.entries.items ≡ diagram_entries axes.count) }
    {
        let room = DiagramRoom::new(axes);
        let mut pairs = vec![in heap; Pair::default(); room.states]?;
        let mut entries = vec![in heap; Entry::default(); room.entries]?;
        let states = write_diagram(axes.get(), pairs.as_mut_slice(), entries.as_mut_slice())?;
        entries.truncate(states as usize * axes.points() as usize);
        Ok(DiagramTable { states, entries })
    }
}
