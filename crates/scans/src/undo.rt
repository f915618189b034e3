// Key to cell and cell to key undo each other: every key of small grids, by each numbering and a pile of turnings.
use crate::hilbert::{cell, curve};
use machine::ZOrder;
use numbering::{Exchange, Mirror, Numbering, Reversal};
use std::process::Abort;
use std::test::Fail;

const GRIDS: [(u32, u32); 6] = [(2, 1), (2, 2), (2, 3), (3, 1), (3, 2), (3, 3)];

// The cell of a key has that key.
fn returns<N: Numbering>(rt: &impl Abort, numbering: &N, key: u64) -> Result<(), Fail> {
    let places = cell(numbering, key)?;
    let cell = &places[0..numbering.axes() as usize];
    assert_eq!(rt; numbering.key_of(cell)?, key);
    assert_eq!(rt; numbering.round_trip(key)?, key);
    Ok(())
}

fn scan<N: Numbering>(rt: &impl Abort, numbering: &N) -> Result<(), Fail> {
    for key in 0..numbering.grid().size() {
        returns(rt, numbering, key)?;
    }
    Ok(())
}

fn z_order(axes: u32, order: u32) -> Result<ZOrder, Fail> {
    curve(axes, order)
}

#[test]
fn alone(rt: HostRuntime) -> Result<(), Fail> {
    for (axes, order) in GRIDS {
        scan(&rt, &z_order(axes, order)?)?;
    }
    Ok(())
}

#[test]
fn turned(rt: HostRuntime) -> Result<(), Fail> {
    for (axes, order) in GRIDS {
        scan(&rt, &Reversal::new(z_order(axes, order)?))?;
        let mut mirror = Mirror::new(z_order(axes, order)?);
        scan(&rt, &mirror)?;
        mirror.set_axis(axes)?;
        scan(&rt, &mirror)?;
        let mut exchange = Exchange::new(z_order(axes, order)?);
        scan(&rt, &exchange)?;
        exchange.set_axes(axes, 1)?;
        scan(&rt, &exchange)?;
    }
    Ok(())
}

#[test]
fn piled(rt: HostRuntime) -> Result<(), Fail> {
    for (axes, order) in GRIDS {
        let mut exchange = Exchange::new(z_order(axes, order)?);
        exchange.set_axes(axes, 1)?;
        let mut mirror = Mirror::new(exchange);
        mirror.set_axis(2)?;
        scan(&rt, &Reversal::new(mirror))?;
    }
    Ok(())
}
