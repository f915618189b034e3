// Hilbert's curve: the twelve printed states in three axes, published cells, and full scans of small grids.
ghost use Rattle.std.specs.Prelude.{◌<◌};

use diagram::{Reckoned, plane_cell, write_x2};
use grid::Grid;
use machine::Curve;
use numbering::{Numbering, Unbroken, neighbour};
use std::process::Abort;
use std::test::Fail;

// A state of three axes as it is printed, and the digits that lead there from state 0.
pub(crate) struct PrintedState {
    // How many digits, and the key that they are.
    digits: u32,
    key: u64,
    // By digit: the n-point and the next state, in two lines as they are printed.
    pub(crate) points: [u32; 8],
    pub(crate) next: [usize; 8],
}

pub(crate) const STATES: [PrintedState; 12] = [
    PrintedState {
        digits: 0,
        key: 0,
        points: [0, 1, 3, 2, 6, 7, 5, 4],
        next: [1, 2, 2, 3, 3, 5, 5, 4],
    },
    PrintedState {
        digits: 1,
        key: 0,
        points: [0, 2, 6, 4, 5, 7, 3, 1],
        next: [2, 0, 0, 8, 8, 7, 7, 6],
    },
    PrintedState {
        digits: 1,
        key: 1,
        points: [0, 4, 5, 1, 3, 7, 6, 2],
        next: [0, 1, 1, 9, 9, 11, 11, 10],
    },
    PrintedState {
        digits: 1,
        key: 3,
        points: [3, 2, 0, 1, 5, 4, 6, 7],
        next: [11, 6, 6, 0, 0, 9, 9, 8],
    },
    PrintedState {
        digits: 1,
        key: 7,
        points: [5, 7, 3, 1, 0, 2, 6, 4],
        next: [9, 7, 7, 11, 11, 0, 0, 5],
    },
    PrintedState {
        digits: 1,
        key: 5,
        points: [6, 2, 3, 7, 5, 1, 0, 4],
        next: [10, 8, 8, 6, 6, 4, 4, 0],
    },
    PrintedState {
        digits: 2,
        key: 7,
        points: [3, 7, 6, 2, 0, 4, 5, 1],
        next: [3, 11, 11, 5, 5, 1, 1, 7],
    },
    PrintedState {
        digits: 2,
        key: 5,
        points: [5, 4, 6, 7, 3, 2, 0, 1],
        next: [4, 9, 9, 10, 10, 6, 6, 1],
    },
    PrintedState {
        digits: 2,
        key: 3,
        points: [6, 4, 0, 2, 3, 1, 5, 7],
        next: [5, 10, 10, 1, 1, 3, 3, 9],
    },
    PrintedState {
        digits: 2,
        key: 11,
        points: [5, 1, 0, 4, 6, 2, 3, 7],
        next: [7, 4, 4, 2, 2, 8, 8, 3],
    },
    PrintedState {
        digits: 2,
        key: 15,
        points: [6, 7, 5, 4, 0, 1, 3, 2],
        next: [8, 5, 5, 7, 7, 2, 2, 11],
    },
    PrintedState {
        digits: 2,
        key: 13,
        points: [3, 1, 5, 7, 6, 4, 0, 2],
        next: [6, 3, 3, 4, 4, 10, 10, 2],
    },
];

// A numbering by a rule, at a grid of that many axes and that order.
pub(crate) fn curve<R>(axes: u32, order: u32) -> Result<Curve<R>, Fail> {
    let mut numbering = Curve::new();
    numbering.set(axes, order)?;
    Ok(numbering)
}

fn reckoned(axes: u32, order: u32) -> Result<Reckoned, Fail> {
    curve(axes, order)
}

// The cell of a key, zeros behind it. At the front of an array, which is no longer than a Vec would be.
pub(crate) fn cell<N: Numbering>(numbering: &N, key: u64) -> Result<[u32; 8], Fail> {
    let mut places = [0u32; 8];
    numbering.cell_of(key, &mut places[0..numbering.axes() as usize])?;
    Ok(places)
}

// The n-point of the bits at a place, 0 or 1.
fn point_at(cell: [u32; 3], place: u32) -> u32
    requires { place < 2 }
{
    let [x, y, z] = cell;
    ((x >> place) & 1) * 4 + ((y >> place) & 1) * 2 + ((z >> place) & 1)
}

// The n-points of the last two digits of a key, and back.
fn last_points(rt: &impl Abort, order: u32, key: u64, before: u32, last: u32) -> Result<(), Fail> {
    let numbering = reckoned(3, order)?;
    let mut cell = [0u32; 3];
    numbering.cell_of(key, &mut cell)?;
    assert_eq!(rt; point_at(cell, 0), last);
    assert_eq!(rt; point_at(cell, 1), before);
    assert_eq!(rt; numbering.key_of(&cell)?, key);
    Ok(())
}

#[test]
fn printed_states(rt: HostRuntime) -> Result<(), Fail> {
    for state in &STATES {
        for (d, (before, next)) in state.points.iter().zip(&state.next).enumerate() {
            let row = STATES.get(*next).ok_or("no such state")?;
            for (e, last) in row.points.iter().enumerate() {
                let key = state
                    .key
                    .wrapping_mul(64)
                    .wrapping_add(d as u64 * 8)
                    .wrapping_add(e as u64);
                last_points(&rt, state.digits.wrapping_add(2), key, *before, *last)?;
            }
        }
    }
    Ok(())
}

#[test]
fn published_cells(rt: HostRuntime) -> Result<(), Fail> {
    assert_eq!(rt; plane_cell(3, 17)?, (1, 4));
    assert_eq!(rt; plane_cell(3, 40)?, (6, 6));
    let numbering = reckoned(3, 2)?;
    for (key, x, y, z) in [(7, 0, 0, 1), (8, 0, 0, 2), (63, 3, 0, 0)] {
        assert_eq!(rt; numbering.key_of(&[x, y, z])?, key);
    }
    // Leading zero digits count.
    assert_eq!(rt; plane_cell(1, 1)?, (0, 1));
    assert_eq!(rt; plane_cell(2, 1)?, (1, 0));
    Ok(())
}

#[test]
fn row_sequence(rt: HostRuntime) -> Result<(), Fail> {
    let printed = [0u8, 1, 0, 2, 0, 2, 3, 7, 3, 7, 6, 4, 6, 4, 5, 4];
    let mut list = [9u8; 17];
    assert_eq!(rt; write_x2(3, &mut list)?, 16);
    assert_eq!(rt; &list[..16], printed.as_slice());
    assert_eq!(rt; list[16], 9);
    assert!(rt; write_x2(9, &mut list).is_err() && write_x2(4, &mut list).is_err());
    Ok(())
}

const GRIDS: [(u32, u32); 9] = [
    (2, 1),
    (2, 2),
    (2, 3),
    (3, 1),
    (3, 2),
    (4, 1),
    (4, 2),
    (5, 1),
    (5, 2),
];

// A key lies in one cube with the first key of each of its blocks.
fn nested<N: Numbering>(rt: &impl Abort, numbering: &N, key: u64) -> Result<(), Fail> {
    let here = cell(numbering, key)?;
    for lower in 0..numbering.order() {
        let block = Grid::new(numbering.axes(), lower + 1)?;
        let first = cell(numbering, key - key % block.size())?;
        for (x, y) in here.iter().zip(first.iter()) {
            assert_eq!(rt; *x / block.side(), *y / block.side());
        }
    }
    Ok(())
}

#[test]
fn scans(rt: HostRuntime) -> Result<(), Fail> {
    for (axes, order) in GRIDS {
        let numbering = reckoned(axes, order)?;
        for key in 0..numbering.grid().size() {
            assert_eq!(rt; numbering.round_trip(key)?, key);
            nested(&rt, &numbering, key)?;
        }
        for key in 0..numbering.steps() {
            assert_eq!(rt; neighbour(&numbering, key, numbering.step(key)?)?, key + 1);
        }
    }
    Ok(())
}
