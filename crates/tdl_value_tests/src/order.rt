// Items in order of their times.
use std::alloc::Global;
use std::test::Fail;
use tdl_control::NoMemory;
use tdl_fraction::Frac;
use tdl_order::{TimeOf, sort_by_time};

#[derive(Drop)]
struct Mark {
    time: Frac,
    place: usize,
}

struct ByTime;

impl TimeOf<Mark> for ByTime {
    ghost time_of = { λ mark. mark.time };

    fn time(mark: &Mark) -> Frac {
        mark.time
    }
}

// The places of marks at these times, in order of the times.
fn places(alloc: Global, times: &[u8]) -> Result<Vec<usize>, NoMemory> {
    let mut marks = Vec::new(alloc);
    for (place, time) in times.iter().enumerate() {
        let time = Frac::whole(i64::from(*time));
        marks.push(Mark { time, place })?;
    }
    sort_by_time::<Mark, ByTime>(&mut marks)?;
    Ok(marks.iter().map(|mark| mark.place).collect(alloc)?)
}

// Times, and their places in order. The last are so many that the sort takes memory.
static ORDERS: [(&[u8], &[usize]); 5] = [
    (&[], &[]),
    (&[1, 3, 3, 4], &[0, 1, 2, 3]),
    (&[4, 3, 2, 1], &[3, 2, 1, 0]),
    (&[2, 0, 2, 1, 0], &[1, 4, 3, 0, 2]),
    (
        &[
            2, 0, 1, 2, 0, 1, 2, 0, 1, 2, 0, 1, 2, 0, 1, 2, 0, 1, 2, 0, 1, 2, 0, 1,
        ],
        &[
            1, 4, 7, 10, 13, 16, 19, 22, 2, 5, 8, 11, 14, 17, 20, 23, 0, 3, 6, 9, 12, 15, 18, 21,
        ],
    ),
];

#[test]
fn puts_in_order(rt: HostRuntime) -> Result<(), Fail> {
    for (times, sorted) in &ORDERS {
        assert!(rt; places(rt.alloc(), times)?.as_slice() == *sorted);
    }
    Ok(())
}
