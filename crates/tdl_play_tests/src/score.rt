// What a desk plays from one time up to another: packets, and notes of MIDI.
ghost use Rattle.tdl_desk.specs.Desk.{HasOrbit};

use crate::patterns::program_of;
use std::alloc::Global;
use tdl_compile::Program;
use tdl_desk::{Change, Desk};
use tdl_fraction::{Frac, LAST_UNITS};
use tdl_midi::Note;
use tdl_notes::Tone;
use tdl_osc::Packets;
use tdl_score::{Due, due_between};
use tdl_tempo::Tempo;

// The first second of 1970, from 1900 on.
const NEW_YEAR_1970: u32 = 2_208_988_800;

// An orbit that has a pattern from a cycle on.
type Set = (u8, u32, &'static [u8]);

// The key of a note, its onset and its stop, in halves of a cycle.
type Half = (u8, u8, u8);

// What the desk has, and what it plays from one time up to another, in tick units.
#[derive(Clone, Copy)]
struct Case {
    sets: &'static [Set],
    muted: &'static [u8],
    from: u64,
    to: u64,
    packets: &'static [&'static [u8]],
    tones: &'static [Half],
}

// Packets after OSC 1.0, at a cycle a second from 1970 on: a sound of an orbit, counted from 1, at its time in cycles.
const SN_OF_1_AT_0: &[u8] =
    b"#bundle\0\x83\xaa\x7e\x80\0\0\0\0\0\0\0\x44/dirt/play\0\0,sisisiss\0\0\0\
    cycle\0\0\0\0\0\0\0delta\0\0\0\0\x07\xa1\x20orbit\0\0\0\0\0\0\0s\0\0\0sn\0\0";

const SN_OF_1_AT_HALF: &[u8] =
    b"#bundle\0\x83\xaa\x7e\x80\x80\0\0\0\0\0\0\x44/dirt/play\0\0,sisisiss\0\0\0\
    cycle\0\0\0\0\0\0\0delta\0\0\0\0\x07\xa1\x20orbit\0\0\0\0\0\0\0s\0\0\0sn\0\0";

const BD_OF_16_AT_0: &[u8] =
    b"#bundle\0\x83\xaa\x7e\x80\0\0\0\0\0\0\0\x44/dirt/play\0\0,sisisiss\0\0\0\
    cycle\0\0\0\0\0\0\0delta\0\0\0\0\x07\xa1\x20orbit\0\0\0\0\0\0\x0fs\0\0\0bd\0\0";

const BD_OF_16_AT_HALF: &[u8] =
    b"#bundle\0\x83\xaa\x7e\x80\x80\0\0\0\0\0\0\x44/dirt/play\0\0,sisisiss\0\0\0\
    cycle\0\0\0\0\0\0\0delta\0\0\0\0\x07\xa1\x20orbit\0\0\0\0\0\0\x0fs\0\0\0bd\0\0";

const BD_OF_1_AT_HALF: &[u8] =
    b"#bundle\0\x83\xaa\x7e\x80\x80\0\0\0\0\0\0\x44/dirt/play\0\0,sisisiss\0\0\0\
    cycle\0\0\0\0\0\0\0delta\0\0\0\0\x07\xa1\x20orbit\0\0\0\0\0\0\0s\0\0\0bd\0\0";

const BD_OF_1_AT_1: &[u8] =
    b"#bundle\0\x83\xaa\x7e\x81\0\0\0\0\0\0\0\x44/dirt/play\0\0,sisisiss\0\0\0\
    cycle\0\0\0\0\0\0\x01delta\0\0\0\0\x07\xa1\x20orbit\0\0\0\0\0\0\0s\0\0\0bd\0\0";

const BD_OF_2_FOR_TWO_CYCLES: &[u8] =
    b"#bundle\0\x83\xaa\x7e\x80\0\0\0\0\0\0\0\x44/dirt/play\0\0,sisisiss\0\0\0\
    cycle\0\0\0\0\0\0\0delta\0\0\0\0\x1e\x84\x80orbit\0\0\0\0\0\0\x01s\0\0\0bd\0\0";

const BD_OF_1_FOR_CYCLE_1: &[u8] =
    b"#bundle\0\x83\xaa\x7e\x81\0\0\0\0\0\0\0\x44/dirt/play\0\0,sisisiss\0\0\0\
    cycle\0\0\0\0\0\0\x01delta\0\0\0\0\x0f\x42\x40orbit\0\0\0\0\0\0\0s\0\0\0bd\0\0";

static CASES: [Case; 10] = [
    // by onset, whichever orbit was set first, and at one onset by orbit
    Case {
        sets: &[(16, 0, b"bd bd"), (1, 0, b"sn sn")],
        muted: &[],
        from: 0,
        to: 46_080,
        packets: &[
            SN_OF_1_AT_0,
            BD_OF_16_AT_0,
            SN_OF_1_AT_HALF,
            BD_OF_16_AT_HALF,
        ],
        tones: &[],
    },
    // what is muted not at all
    Case {
        sets: &[(16, 0, b"bd bd"), (1, 0, b"sn sn")],
        muted: &[16],
        from: 0,
        to: 46_080,
        packets: &[SN_OF_1_AT_0, SN_OF_1_AT_HALF],
        tones: &[],
    },
    // onsets from the first time on and before the second, over the end of a cycle
    Case {
        sets: &[(1, 0, b"bd bd")],
        muted: &[],
        from: 23_040,
        to: 69_120,
        packets: &[BD_OF_1_AT_HALF, BD_OF_1_AT_1],
        tones: &[],
    },
    Case {
        sets: &[(1, 0, b"bd bd")],
        muted: &[],
        from: 1,
        to: 23_040,
        packets: &[],
        tones: &[],
    },
    // with the length of the whole, however short the time is
    Case {
        sets: &[(2, 0, b"slow 2 $ s \"bd\"")],
        muted: &[],
        from: 0,
        to: 1,
        packets: &[BD_OF_2_FOR_TWO_CYCLES],
        tones: &[],
    },
    Case {
        sets: &[(2, 0, b"slow 2 $ s \"bd\"")],
        muted: &[],
        from: 1,
        to: 92_160,
        packets: &[],
        tones: &[],
    },
    // each of two equal rows, and from the boundary of a change on
    Case {
        sets: &[(1, 1, b"[bd, bd]")],
        muted: &[],
        from: 0,
        to: 46_080,
        packets: &[],
        tones: &[],
    },
    Case {
        sets: &[(1, 1, b"[bd, bd]")],
        muted: &[],
        from: 0,
        to: 92_160,
        packets: &[BD_OF_1_FOR_CYCLE_1, BD_OF_1_FOR_CYCLE_1],
        tones: &[],
    },
    // notes of MIDI get no packet
    Case {
        sets: &[(1, 0, b"midi midi")],
        muted: &[],
        from: 0,
        to: 92_160,
        packets: &[],
        tones: &[(60, 0, 1), (60, 1, 2), (60, 2, 3), (60, 3, 4)],
    },
    // each note up to its whole's end, and none of a map out of range
    Case {
        sets: &[
            (2, 0, b"note \"0 7\" # s \"midi\""),
            (1, 0, b"fastcat [note \"68\", n \"4\"] # s \"midi\""),
        ],
        muted: &[],
        from: 0,
        to: 23_041,
        packets: &[],
        tones: &[(60, 0, 1), (64, 1, 2), (67, 1, 2)],
    },
];

// A change of an orbit from a cycle on, if there is memory for it.
fn make(desk: &mut Desk<Program>, boundary: u32, change: Change<Program>) -> Option<()>
    requires { HasOrbit change }
{
    desk.reserve().ok()?;
    if desk.settled() > boundary {
        return None;
    }
    desk.add(boundary, change);
    Some(())
}

fn desk_of(alloc: Global, case: &Case) -> Option<Desk<Program>> {
    let mut desk = Desk::new(alloc);
    for (orbit, boundary, pattern) in case.sets {
        if *orbit < 1 || *orbit > 16 {
            return None;
        }
        let pattern = program_of(alloc, pattern)?;
        let orbit = *orbit;
        make(&mut desk, *boundary, Change::Set { orbit, pattern })?;
    }
    for orbit in case.muted {
        if *orbit < 1 || *orbit > 16 {
            return None;
        }
        make(&mut desk, 0, Change::Mute { orbit: *orbit })?;
    }
    Some(desk)
}

fn due(alloc: Global, case: &Case) -> Option<Due> {
    let desk = desk_of(alloc, case)?;
    let tempo = Tempo::of(Frac::whole(1), NEW_YEAR_1970)?;
    if desk.settled() != 0 || case.from >= case.to || case.to > LAST_UNITS {
        return None;
    }
    due_between(alloc, &desk, case.from, case.to, tempo).ok()
}

fn has_packets(found: &Packets, wanted: &[&[u8]]) -> bool {
    if found.len() != wanted.len() {
        return false;
    }
    for (i, bytes) in wanted.iter().enumerate() {
        if found.get(i).bytes() != *bytes {
            return false;
        }
    }
    true
}

fn tone_of((key, onset, stop): Half) -> Tone {
    Tone {
        onset: Frac::ten_thousandths(i64::from(onset) * 5_000),
        stop: Frac::ten_thousandths(i64::from(stop) * 5_000),
        note: Note {
            channel: 0,
            key,
            velocity: 64,
        },
    }
}

fn has_tones(found: &[Tone], wanted: &[Half]) -> bool {
    if found.len() != wanted.len() {
        return false;
    }
    for (i, half) in wanted.iter().enumerate() {
        if found[i] != tone_of(*half) {
            return false;
        }
    }
    true
}

fn plays(alloc: Global, case: &Case) -> Option<bool> {
    let due = due(alloc, case)?;
    Some(has_packets(&due.osc, case.packets) && has_tones(due.tones.as_slice(), case.tones))
}

fn all_play(alloc: Global) -> bool {
    for case in &CASES {
        if plays(alloc, case) != Some(true) {
            return false;
        }
    }
    true
}

#[test]
fn plays_what_begins_in_the_time(rt: HostRuntime) {
    assert!(rt; all_play(rt.alloc()));
}
