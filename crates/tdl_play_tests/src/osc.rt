// Worked bundles, byte by byte.
use std::alloc::Global;
use tdl_control::Map;
use tdl_event::Row;
use tdl_fraction::Frac;
use tdl_osc::{Packet, packet};
use tdl_tempo::Tempo;

// A tempo, a row, and the bytes of its bundle. Fractions and controls are texts.
#[derive(Clone, Copy)]
struct Case {
    cps: &'static [u8],
    origin: u32,
    onset: &'static [u8],
    length: &'static [u8],
    orbit: u8,
    controls: &'static [u8],
    bytes: &'static [u8],
}

// Checked against a writer of OSC 1.0 in another language.
static CASES: [Case; 3] = [
    Case {
        cps: b"1/2",
        origin: 2_208_988_800,
        onset: b"0",
        length: b"1/2",
        orbit: 1,
        controls: b"s=bd",
        bytes: b"#bundle\0\x83\xaa\x7e\x80\0\0\0\0\0\0\0\x44\
            /dirt/play\0\0,sisisiss\0\0\0\
            cycle\0\0\0\0\0\0\0delta\0\0\0\0\x0f\x42\x40orbit\0\0\0\0\0\0\0\
            s\0\0\0bd\0\0",
    },
    Case {
        cps: b"9/16",
        origin: 2_208_988_800,
        onset: b"10/3",
        length: b"1/3",
        orbit: 16,
        controls: b"accelerate=-2147483648 gain=1 n=-3 s=drum speed=2 unit=c velocity=127",
        bytes: b"#bundle\0\x83\xaa\x7e\x85\xed\x09\x7b\x42\0\0\0\xa0\
            /dirt/play\0\0,sisisisisisisssisssi\0\0\0\
            cycle\0\0\0\0\0\0\x03delta\0\0\0\0\x09\x0a\xd0orbit\0\0\0\0\0\0\x0f\
            accelerate\0\0\x80\0\0\0gain\0\0\0\0\0\0\0\x01n\0\0\0\xff\xff\xff\xfd\
            s\0\0\0drum\0\0\0\0speed\0\0\0\0\0\0\x02unit\0\0\0\0c\0\0\0\
            velocity\0\0\0\0\0\0\0\x7f",
    },
    Case {
        cps: b"1/65535",
        origin: u32::MAX,
        onset: b"1",
        length: b"1",
        orbit: 1,
        controls: b"-",
        bytes: b"#bundle\0\0\0\xff\xfe\0\0\0\0\0\0\0\x38\
            /dirt/play\0\0,sisisi\0\
            cycle\0\0\0\0\0\0\x01delta\0\0\0\x7f\xff\xff\xfforbit\0\0\0\0\0\0\0",
    },
];

fn made(alloc: Global, row: &Row, tempo: Tempo) -> Option<Packet> {
    let zero = Frac::whole(0);
    if row.onset.is_less(zero) || !row.onset.is_less(Frac::whole(1 << 20)) {
        return None;
    }
    if !zero.is_less(row.length) || row.orbit < 1 {
        return None;
    }
    packet(alloc, row, tempo).ok()
}

fn is_made(alloc: Global, case: &Case) -> Option<bool> {
    let tempo = Tempo::of(Frac::read(case.cps)?, case.origin)?;
    let row = Row {
        onset: Frac::read(case.onset)?,
        length: Frac::read(case.length)?,
        orbit: case.orbit,
        controls: Map::read(alloc, case.controls).ok()?,
    };
    Some(made(alloc, &row, tempo)?.bytes() == case.bytes)
}

fn are_made(alloc: Global) -> bool {
    for case in &CASES {
        if is_made(alloc, case) != Some(true) {
            return false;
        }
    }
    true
}

#[test]
fn makes_the_bundle_of_a_row(rt: HostRuntime) {
    assert!(rt; are_made(rt.alloc()));
}
