// The core machine, and performers who share it. What it answers to calls is in the scripts of `app`.
use std::alloc::Global;
use std::sync::Wait;
use std::thread::Threads;
use tdl_core::{Call, Core, boundary, two_performers};
use tdl_fraction::{Frac, LAST_UNITS, TICK_UNITS};
use tdl_tempo::Tempo;

// A frontier, every how many cycles, and the boundary.
static BOUNDARIES: [(u64, u32, u32); 10] = [
    (0, 1, 0),
    (1, 1, 1),
    (46_080, 1, 1),
    (46_081, 1, 2),
    (LAST_UNITS, 1, 1_048_576),
    (0, 4096, 0),
    (1, 4096, 4096),
    (7 * TICK_UNITS, 8, 8),
    (8 * TICK_UNITS + 1, 8, 16),
    (LAST_UNITS, 4095, 1_052_415),
];

fn has_boundaries() -> bool {
    for (frontier, every, wanted) in &BOUNDARIES {
        let (frontier, every) = (*frontier, *every);
        if frontier > LAST_UNITS || every < 1 || every > 4096 {
            return false;
        }
        if boundary(frontier, every) != *wanted {
            return false;
        }
    }
    true
}

#[test]
fn gives_boundaries(rt: HostRuntime) {
    assert!(rt; has_boundaries());
}

#[test]
fn keeps_its_tempo(rt: HostRuntime) {
    let tempo = Frac::of(9, 16).and_then(|cps| Tempo::of(cps, 7));
    let core = tempo.and_then(|tempo| Core::start(rt.alloc(), tempo).ok());
    assert!(rt; core.is_some_and(|core| core.tempo().origin() == 7));
}

// How many looks a core has accepted after two performers looked twice each.
fn looks_of_two<R: Threads + Wait + Sync>(rt: &R, alloc: Global) -> Option<u32> {
    let tempo = Tempo::of(Frac::of(9, 16)?, 7)?;
    let Ok(core) = Core::start(alloc, tempo) else {
        return None;
    };
    let looks = (Call::Look, Call::Look);
    let (core, _, _) = two_performers(rt, alloc, core, looks, (Call::Look, Call::Look))?;
    Some(core.history().len())
}

#[test]
fn two_performers_look(rt: HostRuntime) {
    assert!(rt; looks_of_two(&rt, rt.alloc()) == Some(4));
}
