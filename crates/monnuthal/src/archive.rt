use crate::survey::Sounding;
use grid::{GridBox, Refusal};
use numbering::Numbering;
use std::alloc::Global;

// A row of the ordered table: a key, and the record that is filed under it, with its number.
#[derive(Clone, Copy)]
pub(crate) struct Row<'a> {
    pub(crate) key: u64,
    pub(crate) number: usize,
    pub(crate) sounding: &'a Sounding,
}

// Files each record under the key of its cell, in ascending key order.
pub(crate) fn file<'a, N: Numbering>(
    heap: Global,
    numbering: &N,
    soundings: &'a [Sounding],
) -> Result<Vec<Row<'a>>, Refusal> {
    let mut table = Vec::new(heap);
    for (number, sounding) in soundings.iter().enumerate() {
        table.push(Row {
            key: numbering.key_of(&sounding.cell)?,
            number,
            sounding,
        })?;
    }
    table.sort_unstable_by_key(|row| (row.key, row.number));
    Ok(table)
}

// The search: the shallow middle of the chart.
pub(crate) fn wanted() -> Result<GridBox, Refusal> {
    let mut place = GridBox::zero();
    place.make(&[3, 4, 0], &[9, 9, 7])?;
    Ok(place)
}

// The rows whose cell lies in a box, by a look at every row. Only memory can fail, but the error is the one of all calls.
pub(crate) fn scan<'a>(
    heap: Global,
    table: &[Row<'a>],
    wanted: GridBox,
) -> Result<Vec<Row<'a>>, Refusal> {
    Ok(
        table
            .iter()
            .copied()
            .filter(|row| wanted.contains(&row.sounding.cell))
            .collect(heap)?,
    )
}
