// Tables that break a rule in one place, with the number and the place that are told.
use diagram::Entry;
use grid::{Refusal, Told};
use table::FOUR_STATES;

// A refusal by its number and what it tells.
pub(crate) type Met = (Option<u32>, Told);

// What the check meets.
pub(crate) fn met(axes: u32, states: u32, entries: &[Entry]) -> Result<(), Met> {
    told(table::check(axes, states, entries))
}

pub(crate) fn told(answer: Result<(), Refusal>) -> Result<(), Met> {
    answer.map_err(|refusal| (refusal.number(), refusal.told()))
}

// The four-state table with another entry at a place: n-point and next state; then the number, the state and the digit.
const DAMAGES: [(usize, u8, u16, u32, u64, u64); 13] = [
    (0, 4, 1, 4, 0, 0),
    (1, 0, 0, 4, 0, 1),
    (15, 3, 1, 4, 3, 3),
    (15, 255, 1, 4, 3, 3),
    (0, 0, 4, 5, 0, 0),
    (15, 1, 4, 5, 3, 3),
    (15, 1, 65535, 5, 3, 3),
    (0, 0, 2, 7, 0, 0),
    (3, 2, 3, 7, 0, 3),
    (15, 1, 0, 7, 3, 3),
    (1, 1, 2, 8, 0, 0),
    (1, 1, 1, 8, 0, 1),
    (14, 0, 2, 8, 3, 2),
];

#[test]
fn one_entry(rt: HostRuntime) {
    for (place, point, next, number, state, digit) in DAMAGES {
        let mut table = FOUR_STATES;
        if let Some(entry) = table.get_mut(place) {
            *entry = Entry { point, next };
        }
        assert_eq!(rt;
            met(2, 4, &table),
            Err((Some(number), Told::Two(state, digit)))
        );
    }
    assert_eq!(rt; met(2, 4, &FOUR_STATES), Ok(()));
}

// The n-points of one state in another order, each of them still there once.
#[test]
fn points_apart(rt: HostRuntime) {
    let mut table = FOUR_STATES;
    table[1].point = 3;
    table[2].point = 1;
    assert_eq!(rt; met(2, 4, &table), Err((Some(6), Told::Two(0, 0))));
    let mut table = FOUR_STATES;
    table[14].point = 1;
    table[15].point = 0;
    assert_eq!(rt; met(2, 4, &table), Err((Some(6), Told::Two(3, 1))));
}

// A rule is tried over the whole table before the next one.
#[test]
fn rules_in_order(rt: HostRuntime) {
    let mut table = FOUR_STATES;
    table[1].next = 2;
    assert_eq!(rt; met(2, 4, &table), Err((Some(8), Told::Two(0, 0))));
    table[15].next = 0;
    assert_eq!(rt; met(2, 4, &table), Err((Some(7), Told::Two(3, 3))));
    table[9].point = 0;
    table[10].point = 1;
    assert_eq!(rt; met(2, 4, &table), Err((Some(6), Told::Two(2, 0))));
    table[14].next = 4;
    assert_eq!(rt; met(2, 4, &table), Err((Some(5), Told::Two(3, 2))));
    table[15].point = 0;
    assert_eq!(rt; met(2, 4, &table), Err((Some(4), Told::Two(3, 3))));
}

// One state alone: consecutive blocks do not meet.
#[test]
fn one_state(rt: HostRuntime) {
    let mut table = [Entry { point: 0, next: 0 }; 4];
    table[1].point = 1;
    table[2].point = 3;
    table[3].point = 2;
    assert_eq!(rt; met(2, 1, &table), Err((Some(8), Told::Two(0, 0))));
}
