// The numbering by a table: at its making, installed, refused, and against the reckoning at full depth.
use crate::damaged::told;
use diagram::{Entry, Reckoned};
use grid::{Step, Told};
use numbering::{Numbering, Unbroken};
use std::process::Abort;
use std::test::Fail;
use table::{FOUR_STATES, TableNumbering};

// A key for each round, spread over all of them.
fn spread(round: u64, size: u64) -> u64 {
    round.wrapping_mul(0x9e37_79b9_7f4a_7c15) % size.max(1)
}

// The cell of a key, which has that key again; zeros behind it. An array is no longer here than a Vec would be.
fn cell<N: Numbering>(rt: &impl Abort, numbering: &N, key: u64) -> Result<[u32; 8], Fail> {
    let mut places = [0u32; 8];
    let cell = &mut places[0..numbering.axes() as usize];
    numbering.cell_of(key, cell)?;
    assert_eq!(rt; numbering.key_of(cell)?, key);
    Ok(places)
}

// Both numberings have one cell for a key, and one step.
fn agree<N: Unbroken, M: Unbroken>(
    rt: &impl Abort,
    table: &N,
    reckoned: &M,
    key: u64,
) -> Result<(), Fail> {
    assert_eq!(rt; cell(rt, table, key)?, cell(rt, reckoned, key)?);
    if key < table.steps() {
        assert_eq!(rt; table.step(key)?, reckoned.step(key)?);
    }
    Ok(())
}

#[test]
fn full_depth(rt: HostRuntime) -> Result<(), Fail> {
    for (axes, order) in [(2, 30), (3, 20), (4, 15), (5, 12), (6, 10), (7, 8), (8, 7)] {
        let mut table = TableNumbering::new(rt.alloc())?;
        table.install_diagram(rt.alloc(), axes, order)?;
        let mut reckoned = Reckoned::new();
        reckoned.set(axes, order)?;
        let size = table.grid().size();
        for round in 0..3000 {
            agree(&rt, &table, &reckoned, spread(round, size))?;
        }
        agree(&rt, &table, &reckoned, size - 1)?;
    }
    Ok(())
}

// At its making the built-in table at order 1: the cells of keys 0 to 3.
#[test]
fn at_its_making(rt: HostRuntime) -> Result<(), Fail> {
    let table = TableNumbering::new(rt.alloc())?;
    assert_eq!(rt; table.states(), 4);
    assert_eq!(rt; table.order(), 1);
    for (key, x, y) in [(0, 0, 0), (1, 0, 1), (2, 1, 1), (3, 1, 0)] {
        assert_eq!(rt; table.key_of(&[x, y])?, key);
    }
    Ok(())
}

// A refused table or order keeps the former; leading zero digits count.
#[test]
fn installed(rt: HostRuntime) -> Result<(), Fail> {
    let heap = rt.alloc();
    let mut table = TableNumbering::new(heap)?;
    table.install(heap, 2, 4, &FOUR_STATES, 3)?;
    let mut broken = FOUR_STATES;
    broken[14] = Entry { point: 0, next: 2 };
    assert_eq!(rt;
        told(table.install(heap, 2, 4, &broken, 3)),
        Err((Some(8), Told::Two(3, 2)))
    );
    // The table is looked at before the order.
    assert_eq!(rt;
        told(table.install(heap, 2, 4, &broken, 31)),
        Err((Some(8), Told::Two(3, 2)))
    );
    assert_eq!(rt;
        told(table.install(heap, 2, 4, &FOUR_STATES, 31)),
        Err((Some(9), Told::One(31)))
    );
    assert_eq!(rt;
        told(table.install(heap, 2, 4, &FOUR_STATES, 0)),
        Err((Some(9), Told::One(0)))
    );
    assert_eq!(rt;
        told(table.install_diagram(heap, 9, 0)),
        Err((Some(1), Told::One(9)))
    );
    assert_eq!(rt;
        told(table.install_diagram(heap, 7, 9)),
        Err((Some(9), Told::One(9)))
    );
    assert_eq!(rt; table.order(), 3);
    assert_eq!(rt; table.key_of(&[1, 4])?, 17);
    assert_eq!(rt; table.key_of(&[6, 6])?, 40);
    table.install_diagram(heap, 2, 2)?;
    assert_eq!(rt; table.key_of(&[1, 0])?, 1);
    table.install_diagram(heap, 2, 1)?;
    assert_eq!(rt; table.key_of(&[0, 1])?, 1);
    Ok(())
}
