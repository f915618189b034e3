ghost use Rattle.std.specs.Prelude.{◌≡◌, ◌*◌, ◌^◌, ◌≤◌, ◌++◌, map, length, drop, Contains, IfOk, OnOk};
ghost use Rattle.grid.specs.Answers.{refusal, unless};
ghost use Rattle.diagram.specs.Diagrams.{diagram_refusal, entry_of};
ghost use Rattle.diagram.specs.Diagrams.{entries as diagram_entries};
ghost use Rattle.diagram.specs.Meetings.{OneNumbering};
ghost use Rattle.diagram.specs.States.{below, most_states};
ghost use Rattle.diagram.specs.States.{states as numbered_states};

use crate::entry::Entry;
use crate::numbered::Numbers;
use crate::pair::Pair;
use crate::room::DiagramRoom;
use crate::state::State;
use grid::{AxisCount, Refusal};

// Writes the diagram of that many axes at the front of two lists, the states by number and their entries by state and digit, and answers how many states there are.
// The lists are lent, so that no heap is needed: `DiagramTable` makes its own.
pub fn write_diagram(axes: u32, states: &mut [Pair], entries: &mut [Entry]) -> Result<u32, Refusal>
    ensures refused { refusal result ≡ diagram_refusal axes (length states.old) (length entries.old) }
    ensures count { IfOk result (λ m. m ≡ length (numbered_states axes)) }
    ensures states { states.new ≡ unless (refusal result) (numbered_states axes ++ drop (length (numbered_states axes)) states.old) states.old }
    ensures entries { entries.new ≡ unless (refusal result) (diagram_entries axes ++ drop (length (numbered_states axes) * 2 ^ axes) entries.old) entries.old }
    ensures numbered { OnOk result (OneNumbering axes) }
{
    let axes = AxisCount::try_from(axes)?;
    let need = DiagramRoom::new(axes);
    if states.len() < need.states {
        return Err(Refusal::Space { need: need.states });
    }
    if entries.len() < need.entries {
        return Err(Refusal::Space { need: need.entries });
    }
    Ok(write_both(axes, states, entries))
}

// The states, then their entries, where there is room for both.
fn write_both(axes: AxisCount, states: &mut [Pair], entries: &mut [Entry]) -> u32
    requires states { most_states axes.count ≤ length states.old }
    requires entries { most_states axes.count * 2 ^ axes.count ≤ length entries.old }
    ensures count { result ≡ length (numbered_states axes.count) }
    ensures states { states.new ≡ numbered_states axes.count ++ drop (length (numbered_states axes.count)) states.old }
    ensures entries { entries.new ≡ diagram_entries axes.count ++ drop (length (numbered_states axes.count) * 2 ^ axes.count) entries.old }
{
    let numbers = Numbers::new(axes, states);
    let count = numbers.count();
    write_entries(&numbers, &states[..count], entries);
    count as u32
}

// The entries of all states, where the states are written and numbered.
fn write_entries(numbers: &Numbers, states: &[Pair], entries: &mut [Entry])
    requires states { states.now ≡ numbered_states numbers.now.sequence.axes.count }
    requires room { length states.now * 2 ^ numbers.now.sequence.axes.count ≤ length entries.old }
    ensures { entries.new ≡ diagram_entries numbers.now.sequence.axes.count ++ drop (length states.now * 2 ^ numbers.now.sequence.axes.count) entries.old }
{
    let axes = numbers.sequence.axes;
    let width = axes.points() as usize;
    // Each row by its place: of what chunks_exact_mut lends nothing is known afterwards.
    for (number, pair) in states.iter().enumerate() {
        let state = State { axes, pair: *pair };
        let row = number * width;
        write_row(numbers, state, &mut entries[row..row + width]);
    }
}

// The entries of one state.
fn write_row(numbers: &Numbers, state: State, row: &mut [Entry])
    requires axes { numbers.now.sequence.axes ≡ state.axes }
    requires known { Contains (numbered_states state.axes.count) state.pair }
    requires long { length row.old ≡ 2 ^ state.axes.count }
    ensures { row.new ≡ map (entry_of state.axes.count (numbered_states state.axes.count) state.pair) (below (2 ^ state.axes.count)) }
{
    for (place, entry) in row.iter_mut().enumerate() {
        let digit = place as u32;
        let next = numbers.sequence.next(state, digit);
        *entry = Entry {
            point: state.point(digit) as u8,
            next: numbers.of(next),
        };
    }
}
