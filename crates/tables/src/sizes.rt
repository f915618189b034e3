// The numbers of axes, states and entries at their edges.
use crate::damaged::met;
use diagram::Entry;
use grid::Told;
use std::test::Fail;
use table::FOUR_STATES;

#[test]
fn axes_and_states(rt: HostRuntime) {
    assert_eq!(rt; met(0, 0, &[]), Err((Some(1), Told::One(0))));
    assert_eq!(rt; met(1, 4, &FOUR_STATES), Err((Some(1), Told::One(1))));
    assert_eq!(rt; met(9, 4, &FOUR_STATES), Err((Some(1), Told::One(9))));
    assert_eq!(rt; met(2, 0, &[]), Err((Some(2), Told::One(0))));
    assert_eq!(rt; met(8, 4097, &[]), Err((Some(2), Told::One(4097))));
    assert_eq!(rt;
        met(8, u32::MAX, &FOUR_STATES),
        Err((Some(2), Told::One(u64::from(u32::MAX))))
    );
}

#[test]
fn lengths(rt: HostRuntime) -> Result<(), Fail> {
    assert_eq!(rt; met(2, 4, &[]), Err((Some(3), Told::One(0))));
    assert_eq!(rt;
        met(2, 4, &FOUR_STATES[0..15]),
        Err((Some(3), Told::One(15)))
    );
    assert_eq!(rt; met(2, 3, &FOUR_STATES), Err((Some(3), Told::One(16))));
    assert_eq!(rt; met(2, 4096, &FOUR_STATES), Err((Some(3), Told::One(16))));
    let mut long = FOUR_STATES.to_vec(rt.alloc())?;
    long.push(Entry { point: 0, next: 0 })?;
    assert_eq!(rt; met(2, 4, long.as_slice()), Err((Some(3), Told::One(17))));
    // As many entries as 8 axes and one state have.
    let row = vec![in rt.alloc(); Entry { point: 0, next: 0 }; 256]?;
    assert_eq!(rt; met(8, 1, row.as_slice()), Err((Some(4), Told::Two(0, 1))));
    Ok(())
}

// The four states over and over: as many as there may be, and one more.
#[test]
fn most_states(rt: HostRuntime) -> Result<(), Fail> {
    let mut table = FOUR_STATES.repeat(rt.alloc(), 1024)?;
    assert_eq!(rt; met(2, 4096, table.as_slice()), Ok(()));
    if let Some(last) = table.as_mut_slice().last_mut() {
        last.next = 4096;
    }
    assert_eq!(rt;
        met(2, 4096, table.as_slice()),
        Err((Some(5), Told::Two(4095, 3)))
    );
    table.extend_from_slice(&FOUR_STATES[0..4])?;
    assert_eq!(rt;
        met(2, 4097, table.as_slice()),
        Err((Some(2), Told::One(4097)))
    );
    Ok(())
}
