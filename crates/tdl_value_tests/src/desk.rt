// What plays, and what is muted and soloed, by the changes that were made.
ghost use Rattle.std.specs.Prelude.{◌≡◌, ◌↔◌, ◌≤◌, IsTrue};
ghost use Rattle.tdl_desk.specs.Desk.{HasOrbit};

use std::rc::Rc;
use std::test::Fail;
use tdl_control::NoMemory;
use tdl_desk::{Change, Desk};

fn has_orbit(change: &Change<u32>) -> bool
    ensures { IsTrue result ↔ HasOrbit change.now }
{
    match change {
        Change::Set { orbit, .. }
        | Change::Mute { orbit }
        | Change::Unmute { orbit }
        | Change::Solo { orbit }
        | Change::Unsolo { orbit } => 1 <= *orbit && *orbit <= 16,
        _ => true,
    }
}

// Makes a change from a cycle on, if it may be made.
fn make(desk: &mut Desk<u32>, boundary: u32, change: Change<u32>) -> Result<(), NoMemory>
    requires { desk.old.settled ≤ boundary }
    ensures { desk.new.settled ≡ desk.old.settled }
{
    if has_orbit(&change) {
        desk.reserve()?;
        desk.add(boundary, change);
    }
    Ok(())
}

fn set(pattern: u32) -> Change<u32> {
    Change::Set { orbit: 1, pattern }
}

// Whether orbit 1 plays the pattern at a cycle.
fn plays(desk: &Desk<u32>, cycle: u32, pattern: u32) -> bool
    requires { desk.now.settled ≤ cycle }
{
    desk.pattern(cycle, 1).copied() == Some(pattern)
}

// What plays on orbit 1 at some cycles, settled on the way.
#[test]
fn plays_by_the_later_call(rt: HostRuntime) -> Result<(), Fail> {
    let mut desk = Desk::new(rt.alloc());
    make(&mut desk, 8, set(50))?;
    make(&mut desk, 1, set(60))?;
    assert!(rt; desk.pattern(0, 1).is_none() && plays(&desk, 1, 60) && plays(&desk, 8, 60));
    desk.settle(1);
    assert!(rt; desk.settled() == 1 && plays(&desk, 7, 60));
    desk.settle(8);
    assert!(rt; plays(&desk, 8, 60) && plays(&desk, 9, 60));
    Ok(())
}

// Changes, and whether orbits 1, 2 and 3 are heard after each.
static HEARD: [(Change<u32>, [bool; 3]); 8] = [
    (
        Change::Set {
            orbit: 1,
            pattern: 50,
        },
        [true, true, true],
    ),
    (Change::Mute { orbit: 2 }, [true, false, true]),
    (Change::Solo { orbit: 2 }, [false, true, false]),
    (Change::Unmute { orbit: 2 }, [false, true, false]),
    (Change::Hush, [false, true, false]),
    (Change::Unsolo { orbit: 2 }, [true, true, true]),
    (Change::Mute { orbit: 3 }, [true, true, false]),
    (Change::UnmuteAll, [true, true, true]),
];

fn heard(desk: &Desk<u32>) -> [bool; 3]
    requires { desk.now.settled ≤ 0 }
{
    [desk.audible(0, 1), desk.audible(0, 2), desk.audible(0, 3)]
}

#[test]
fn hears_orbits(rt: HostRuntime) -> Result<(), Fail> {
    let mut desk = Desk::new(rt.alloc());
    for (change, orbits) in &HEARD {
        make(&mut desk, 0, *change)?;
        assert!(rt; heard(&desk) == *orbits);
    }
    assert!(rt; desk.pattern(0, 1).is_none() && !desk.any_soloed(0));
    Ok(())
}

// What is soloed up to a cycle, settled before it.
#[test]
fn solos_until_a_cycle(rt: HostRuntime) -> Result<(), Fail> {
    let mut desk: Desk<u32> = Desk::new(rt.alloc());
    make(&mut desk, 0, Change::Solo { orbit: 16 })?;
    desk.settle(3);
    make(&mut desk, 5, Change::UnsoloAll)?;
    assert!(rt; desk.soloed(4, 16) && !desk.muted(4, 16) && !desk.soloed(5, 16));
    assert!(rt; desk.any_soloed(4) && desk.audible_among(4, 16, true));
    Ok(())
}

// A pattern and a hush that hold before a jump to a cycle, and were made after it: nothing comes at that cycle.
#[test]
fn leaves_nothing_that_was_to_come(rt: HostRuntime) -> Result<(), Fail> {
    let mut desk = Desk::new(rt.alloc());
    make(&mut desk, 8, set(50))?;
    make(&mut desk, 1, set(60))?;
    make(&mut desk, 1, Change::Hush)?;
    assert!(rt; desk.pattern(1, 1).is_none() && desk.pattern(7, 1).is_none());
    assert!(rt; desk.pattern(8, 1).is_none() && desk.pattern(4096, 1).is_none());
    Ok(())
}

// A pattern that can govern no more is dropped while the desk still stands.
#[test]
fn drops_what_governs_no_more(rt: HostRuntime) -> Result<(), Fail> {
    let first = Rc::new(rt.alloc(), 50_u32).map_err(|_| NoMemory)?;
    let again = first.clone().map_err(|_| NoMemory)?;
    let second = Rc::new(rt.alloc(), 60_u32).map_err(|_| NoMemory)?;
    let mut desk = Desk::new(rt.alloc());
    desk.reserve()?;
    desk.add(
        0,
        Change::Set {
            orbit: 1,
            pattern: again,
        },
    );
    desk.reserve()?;
    desk.add(
        0,
        Change::Set {
            orbit: 1,
            pattern: second,
        },
    );
    assert!(rt; Rc::strong_count(&first) == 1);
    desk.settle(1);
    assert!(rt; desk.pattern(1, 1).is_some_and(|pattern| **pattern == 60));
    Ok(())
}
