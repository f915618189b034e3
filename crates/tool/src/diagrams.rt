use crate::table_text::Row;
use diagram::DiagramTable;
use grid::AxisCount;
use std::alloc::AllocError;

// Prints the diagram of that many axes: the number of axes and of states, then a line for each state.
pub fn print_diagram(rt: &(impl Print + AllocGlobal), axes: u32) -> anyhow::Result<()> {
    let count = AxisCount::try_from(axes)?;
    // Only memory can fail, and the allocator's words are what this command tells of it.
    let diagram = DiagramTable::new(rt.alloc(), count).map_err(|_| AllocError)?;
    println!(rt; "{axes} {}", diagram.states)?;
    let rows = diagram.entries.as_slice().chunks(count.points() as usize);
    for (state, entries) in rows.enumerate() {
        let row = Row {
            axes,
            state,
            entries,
        };
        println!(rt; "{row}")?;
    }
    Ok(())
}
