// Written diagrams: the printed tables of three axes whole, both ways, the four states of two axes, and what is left alone.
use crate::hilbert::STATES;
use diagram::{DiagramTable, Entry, Pair, diagram_room, write_diagram};
use grid::{AxisCount, Refusal};
use std::alloc::Global;
use std::test::Fail;

// A state of the other printed table: by n-point its digit, and below it the next state, in two lines as they are printed.
struct ByPoint {
    digits: [usize; 8],
    next: [u16; 8],
}

const BY_POINT: [ByPoint; 12] = [
    ByPoint {
        digits: [0, 1, 3, 2, 7, 6, 4, 5],
        next: [1, 2, 3, 2, 4, 5, 3, 5],
    },
    ByPoint {
        digits: [0, 7, 1, 6, 3, 4, 2, 5],
        next: [2, 6, 0, 7, 8, 8, 0, 7],
    },
    ByPoint {
        digits: [0, 3, 7, 4, 1, 2, 6, 5],
        next: [0, 9, 10, 9, 1, 1, 11, 11],
    },
    ByPoint {
        digits: [2, 3, 1, 0, 5, 4, 6, 7],
        next: [6, 0, 6, 11, 9, 0, 9, 8],
    },
    ByPoint {
        digits: [4, 3, 5, 2, 7, 0, 6, 1],
        next: [11, 11, 0, 7, 5, 9, 0, 7],
    },
    ByPoint {
        digits: [6, 5, 1, 2, 7, 4, 0, 3],
        next: [4, 4, 8, 8, 0, 6, 10, 6],
    },
    ByPoint {
        digits: [4, 7, 3, 0, 5, 6, 2, 1],
        next: [5, 7, 5, 3, 1, 1, 11, 11],
    },
    ByPoint {
        digits: [6, 7, 5, 4, 1, 0, 2, 3],
        next: [6, 1, 6, 10, 9, 4, 9, 10],
    },
    ByPoint {
        digits: [2, 5, 3, 4, 1, 6, 0, 7],
        next: [10, 3, 1, 1, 10, 3, 5, 9],
    },
    ByPoint {
        digits: [2, 1, 5, 6, 3, 0, 4, 7],
        next: [4, 4, 8, 8, 2, 7, 2, 3],
    },
    ByPoint {
        digits: [4, 5, 7, 6, 3, 2, 0, 1],
        next: [7, 2, 11, 2, 7, 5, 8, 5],
    },
    ByPoint {
        digits: [6, 1, 7, 0, 5, 2, 4, 3],
        next: [10, 3, 2, 6, 10, 3, 4, 4],
    },
];

// A record and an entry that no diagram has.
const NO_PAIR: Pair = Pair {
    start: 999,
    shift: 99,
};

const NO_ENTRY: Entry = Entry {
    point: 255,
    next: 65535,
};

#[derive(Drop)]
pub(crate) struct Written {
    pub(crate) states: Vec<Pair>,
    pub(crate) entries: Vec<Entry>,
    pub(crate) count: u32,
}

// The diagram of that many axes, in lists that are longer by one.
pub(crate) fn diagram_of(heap: Global, axes: u32) -> Result<Written, Refusal> {
    let room = diagram_room(axes)?;
    let mut states = vec![in heap; NO_PAIR; room.states.wrapping_add(1)]?;
    let mut entries = vec![in heap; NO_ENTRY; room.entries.wrapping_add(1)]?;
    let count = write_diagram(axes, states.as_mut_slice(), entries.as_mut_slice())?;
    Ok(Written {
        states,
        entries,
        count,
    })
}

#[test]
fn printed_tables(rt: HostRuntime) -> Result<(), Fail> {
    let table = diagram_of(rt.alloc(), 3)?;
    assert_eq!(rt; table.count, 12);
    let rows = table.entries.as_slice().chunks(8);
    for (row, printed) in rows.zip(&STATES) {
        for (entry, (point, next)) in row.iter().zip(printed.points.iter().zip(&printed.next)) {
            assert_eq!(rt; u32::from(entry.point), *point);
            assert_eq!(rt; usize::from(entry.next), *next);
        }
    }
    Ok(())
}

#[test]
fn printed_tables_backwards(rt: HostRuntime) -> Result<(), Fail> {
    let table = diagram_of(rt.alloc(), 3)?;
    let rows = table.entries.as_slice().chunks(8);
    for (row, printed) in rows.zip(&BY_POINT) {
        for (point, (digit, next)) in printed.digits.iter().zip(&printed.next).enumerate() {
            let entry = row.get(*digit).ok_or("no such digit")?;
            assert_eq!(rt; usize::from(entry.point), point);
            assert_eq!(rt; entry.next, *next);
        }
    }
    Ok(())
}

// Axes, states and entries.
const SIZES: [(u32, u32, usize); 7] = [
    (2, 4, 16),
    (3, 12, 96),
    (4, 32, 512),
    (5, 80, 2560),
    (6, 192, 12288),
    (7, 448, 57344),
    (8, 1024, 262144),
];

#[test]
fn numbers_of_states(rt: HostRuntime) -> Result<(), Fail> {
    for (axes, count, entries) in SIZES {
        let table = diagram_of(rt.alloc(), axes)?;
        assert_eq!(rt; table.count, count);
        // What stands behind is left alone.
        let last = table.states.get(count as usize).ok_or("no record behind")?;
        assert_eq!(rt; *last, NO_PAIR);
        assert_eq!(rt; table.entries.get(entries), Some(&NO_ENTRY));
        assert_eq!(rt; table.entries.len(), entries.wrapping_add(1));
    }
    Ok(())
}

// The states themselves, in two axes: starts and shifts.
#[test]
fn four_pairs(rt: HostRuntime) -> Result<(), Fail> {
    let table = diagram_of(rt.alloc(), 2)?;
    for (state, (start, shift)) in table.states.iter().zip([(0, 0), (0, 1), (3, 1), (3, 0)]) {
        assert_eq!(rt; *state, Pair { start, shift });
    }
    Ok(())
}

// The diagram as a table of its own has memory enough, and no room to spare.
#[test]
fn tables_made(rt: HostRuntime) -> Result<(), Fail> {
    for (axes, count, entries) in SIZES {
        let table = DiagramTable::new(rt.alloc(), AxisCount::try_from(axes)?)?;
        assert_eq!(rt; table.states, count);
        assert_eq!(rt; table.entries.len(), entries);
    }
    Ok(())
}
