use crate::archive::Row;
use crate::faces::all_shared;
use crate::survey::Sounding;
use diagram::Reckoned;
use grid::{Direction, GridBox, Step};
use numbering::{Numbering, Unbroken, neighbour};
use std::io;

// The records as they came, each with its cell and its key on both curves.
pub(crate) fn records<N: Numbering, M: Numbering>(
    rt: &impl Print,
    hilbert: &N,
    z_order: &M,
    soundings: &[Sounding],
) -> io::Result<()> {
    let grid = hilbert.grid();
    let axes = grid.axes();
    let order = grid.order();
    let side = grid.side();
    let size = grid.size();
    println!(rt;
        "A grid of {axes} axes and order {order}: {side} coordinates on an axis, {size} cells."
    )?;
    println!(rt; "")?;
    println!(rt; "The records, with their cells and their keys on both curves")?;
    println!(rt; "  no  station        east  north  depth  Hilbert     Z")?;
    for (number, sounding) in soundings.iter().enumerate() {
        let station = sounding.station;
        let [east, north, depth] = sounding.cell;
        match (
            hilbert.key_of(&sounding.cell),
            z_order.key_of(&sounding.cell),
        ) {
            (Ok(key), Ok(z)) => println!(rt;
                "  {number:>2}  {station:<13}  {east:>4}  {north:>5}  {depth:>5}  {key:>7}  {z:>4}"
            )?,
            (Err(refusal), _) | (_, Err(refusal)) => {
                println!(rt; "  {number:>2}  {station:<13}  {refusal}")?
            }
        }
    }
    Ok(())
}

// The table in key order.
pub(crate) fn table(rt: &impl Print, table: &[Row]) -> io::Result<()> {
    println!(rt; "")?;
    println!(rt; "The table, in the order of the Hilbert keys")?;
    list(rt, table)
}

// A box, and the rows in it.
pub(crate) fn rows(rt: &impl Print, wanted: GridBox, found: &[Row]) -> io::Result<()> {
    let [west, south, top, ..] = wanted.low();
    let [east, north, bottom, ..] = wanted.high();
    let count = found.len();
    println!(rt; "")?;
    println!(rt;
        "The box from ({west}, {south}, {top}) to ({east}, {north}, {bottom}), by a look at every row: {count} rows"
    )?;
    list(rt, found)
}

fn list(rt: &impl Print, rows: &[Row]) -> io::Result<()> {
    println!(rt; "    key  no  station")?;
    for row in rows {
        let Row {
            key,
            number,
            sounding,
        } = *row;
        let station = sounding.station;
        println!(rt; "  {key:>5}  {number:>2}  {station}")?;
    }
    Ok(())
}

// The keys above and below each row along the depth.
pub(crate) fn neighbours<N: Numbering>(
    rt: &impl Print,
    numbering: &N,
    rows: &[Row],
) -> io::Result<()> {
    println!(rt; "")?;
    println!(rt; "Their neighbours along axis 3, the depth")?;
    for row in rows {
        let key = row.key;
        print!(rt; "  {key:>5}: ")?;
        beside(rt, numbering, key, Direction::Down)?;
        print!(rt; "; ")?;
        beside(rt, numbering, key, Direction::Up)?;
        println!(rt; "")?;
    }
    Ok(())
}

fn beside<N: Numbering>(
    rt: &impl Print,
    numbering: &N,
    key: u64,
    direction: Direction,
) -> io::Result<()> {
    match neighbour(numbering, key, Step { axis: 3, direction }) {
        Ok(other) => print!(rt; "{direction} {other}"),
        Err(refusal) => print!(rt; "{direction} {refusal}"),
    }
}

// Every step on a small grid of 2, 3 and 4 axes.
pub(crate) fn faces(rt: &impl Print) -> anyhow::Result<()> {
    println!(rt; "")?;
    println!(rt; "Consecutive keys, step by step")?;
    for axes in 2u32..5 {
        let mut numbering = Reckoned::new();
        numbering.set(axes, 2)?;
        let steps = numbering.steps();
        let word = if all_shared(&numbering)? {
            "share"
        } else {
            "do NOT share"
        };
        println!(rt;
            "  {axes} axes, order 2: {steps} steps, cells of consecutive keys {word} a face"
        )?;
    }
    Ok(())
}
