// Refusals at their edges, with the number and what is told.
use grid::{Direction, Grid, GridBox, Refusal, Step, Told};
use machine::ZOrder;
use numbering::{Exchange, Mirror, Numbering, neighbour};
use std::process::Abort;
use std::test::Fail;

fn refused<T: Drop>(
    rt: &impl Abort,
    answer: Result<T, Refusal>,
    number: u32,
    told: Told,
) -> Result<(), Fail> {
    let Err(refusal) = answer else {
        return Err(Fail::new("it was not refused"));
    };
    assert_eq!(rt; refusal.number(), Some(number));
    assert_eq!(rt; refusal.told(), told);
    Ok(())
}

#[test]
fn limits(rt: HostRuntime) -> Result<(), Fail> {
    // The greatest order for each number of axes from 2 on, and one more.
    for (axes, most) in (2u32..9).zip([30u32, 20, 15, 12, 10, 8, 7]) {
        assert_eq!(rt; Grid::new(axes, most)?.axes(), axes);
        refused(
            &rt,
            Grid::new(axes, most + 1),
            9,
            Told::One(u64::from(most) + 1),
        )?;
        refused(&rt, Grid::new(axes, 0), 9, Told::One(0))?;
    }
    refused(&rt, Grid::new(1, 1), 1, Told::One(1))?;
    refused(&rt, Grid::new(9, 0), 1, Told::One(9))
}

#[test]
fn refused_set_keeps_the_grid(rt: HostRuntime) -> Result<(), Fail> {
    let mut numbering = ZOrder::new();
    numbering.set(7, 8)?;
    refused(&rt, numbering.set(7, 9), 9, Told::One(9))?;
    refused(&rt, numbering.set(2, 31), 9, Told::One(31))?;
    refused(&rt, numbering.set(0, 0), 1, Told::One(0))?;
    assert_eq!(rt; numbering.axes(), 7);
    assert_eq!(rt; numbering.order(), 8);
    Ok(())
}

#[test]
fn keys_and_cells(rt: HostRuntime) -> Result<(), Fail> {
    let mut numbering = ZOrder::new();
    numbering.set(2, 2)?;
    let mut long = [7u32; 3];
    refused(&rt, numbering.cell_of(16, &mut long), 10, Told::One(16))?;
    refused(&rt, numbering.cell_of(15, &mut long), 11, Told::One(3))?;
    assert_eq!(rt; long, [7; 3]);
    for (key, x, y) in [
        (0, 0, 0),
        (3, 1, 1),
        (6, 1, 2),
        (9, 2, 1),
        (12, 2, 2),
        (15, 3, 3),
    ] {
        let mut cell = [7u32; 2];
        numbering.cell_of(key, &mut cell)?;
        assert_eq!(rt; cell, [x, y]);
        assert_eq!(rt; numbering.key_of(&[x, y])?, key);
    }
    refused(&rt, numbering.key_of(&[4, 4, 4]), 11, Told::One(3))?;
    refused(&rt, numbering.key_of(&[3, 4]), 12, Told::One(2))?;
    refused(&rt, numbering.key_of(&[4, 4]), 12, Told::One(1))?;
    refused(&rt, numbering.round_trip(16), 10, Told::One(16))
}

#[test]
fn beside(rt: HostRuntime) -> Result<(), Fail> {
    let mut numbering = ZOrder::new();
    numbering.set(2, 2)?;
    let direction = Direction::Up;
    assert_eq!(rt; neighbour(&numbering, 0, Step { axis: 2, direction })?, 1);
    assert_eq!(rt; neighbour(&numbering, 3, Step { axis: 1, direction })?, 9);
    refused(
        &rt,
        neighbour(&numbering, 16, Step { axis: 3, direction }),
        10,
        Told::One(16),
    )?;
    refused(
        &rt,
        neighbour(&numbering, 15, Step { axis: 3, direction }),
        14,
        Told::One(3),
    )?;
    refused(
        &rt,
        neighbour(&numbering, 15, Step { axis: 2, direction }),
        15,
        Told::One(2),
    )
}

#[test]
fn turnings_set(rt: HostRuntime) -> Result<(), Fail> {
    let mut mirror = Mirror::new(ZOrder::new());
    refused(&rt, mirror.set_axis(3), 14, Told::One(3))?;
    refused(&rt, mirror.set_axis(0), 14, Told::One(0))?;
    let mut exchange = Exchange::new(mirror.into_inner());
    refused(&rt, exchange.set_axes(3, 0), 14, Told::One(3))?;
    refused(&rt, exchange.set_axes(1, 0), 14, Told::One(0))
}

#[test]
fn boxes(rt: HostRuntime) -> Result<(), Fail> {
    let mut place = GridBox::zero();
    place.make(&[1, 2, 3], &[1, 5, 9])?;
    refused(&rt, place.make(&[1, 2], &[1, 2, 3]), 16, Told::Two(2, 3))?;
    refused(&rt, place.make(&[1], &[1]), 16, Told::Two(1, 1))?;
    refused(&rt, place.make(&[0; 9], &[0; 9]), 16, Told::Two(9, 9))?;
    refused(&rt, place.make(&[1, 6, 3], &[1, 5, 2]), 17, Told::One(2))?;
    assert_eq!(rt; place.axes(), 3);
    assert!(rt; place.contains(&[1, 5, 3]) && place.contains(&[1, 2, 9]));
    assert!(rt;
        !place.contains(&[1, 6, 3]) && !place.contains(&[0, 2, 3]) && !place.contains(&[1, 2])
    );
    Ok(())
}

#[test]
fn sentence(rt: HostRuntime) -> Result<(), Fail> {
    let refusal = Refusal::CornerLengths { low: 2, high: 3 };
    let text = refusal.to_string(rt.alloc())?;
    assert!(rt;
        text.as_str()
            == "refused with 16: the corners differ in length or have not 2 to 8 coordinates (2, 3)"
    );
    Ok(())
}
