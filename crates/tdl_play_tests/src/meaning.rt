// What patterns mean: their events in arcs, and when they are known to repeat.
use crate::patterns::{arc_of, lines_of, program_of};
use std::alloc::Global;
use tdl_meaning::{plain, repeats_after};

// A pattern, the ends of an arc, and the lines of its events there.
#[derive(Clone, Copy)]
pub struct Meant(
    pub &'static [u8],
    pub &'static [u8],
    pub &'static [u8],
    pub &'static [u8],
);

pub static MEANT: [Meant; 6] = [
    Meant(
        b"stack [fast 2 $ rev $ timecat [(1, n \"1\"), (2, n \"2\")], cat [n \"1\", n \"2\"]]",
        b"1/4",
        b"3/2",
        b"1/3 1/2 1/3 1/2 n=1\n\
          0 1/3 1/4 1/3 n=2\n\
          5/6 1 5/6 1 n=1\n\
          1/2 5/6 1/2 5/6 n=2\n\
          0 1 1/4 1 n=1\n\
          4/3 3/2 4/3 3/2 n=1\n\
          1 4/3 1 4/3 n=2\n\
          1 2 1 3/2 n=2\n",
    ),
    Meant(
        b"n \"0\" +| (mask \"t\" $ every' 2 1 (within (0, 0.5) (const silence)) $ 0.25 ~> (ply 2 $ n \"1\"))",
        b"0",
        b"2",
        b"-1/4 1/4 0 1/4 n=1\n\
          1/4 3/4 1/4 3/4 n=1\n\
          3/4 5/4 3/4 1 n=1\n\
          3/4 5/4 1 5/4 n=1\n\
          7/4 9/4 7/4 2 n=1\n",
    ),
    Meant(b"n \"3\" |+| n \"5\"", b"0", b"1", b"0 1 0 1 n=8\n"),
    Meant(b"mask \"t\" $ n \"3\"", b"0", b"1", b"0 1 0 1 n=3\n"),
    Meant(b"struct \"t\" $ n \"5\"", b"0", b"1", b"0 1 0 1 n=5\n"),
    Meant(b"struct \"f\" $ n \"5\"", b"0", b"1", b""),
];

fn is_meant(alloc: Global, meant: &Meant) -> Option<bool> {
    let Meant(pattern, from, to, lines) = meant;
    let program = program_of(alloc, pattern)?;
    let arc = arc_of(from, to)?;
    let events = plain(alloc, program.table(), program.root(), arc).ok()?;
    Some(lines_of(alloc, &events)?.bytes() == *lines)
}

fn are_meant(alloc: Global) -> bool {
    for meant in &MEANT {
        if is_meant(alloc, meant) != Some(true) {
            return false;
        }
    }
    true
}

#[test]
fn plays_each_kind(rt: HostRuntime) {
    assert!(rt; are_meant(rt.alloc()));
}

// Patterns that are known to repeat after so many cycles and its multiples, and after no other count up to 6.
static PERIODS: [(&[u8], u32); 10] = [
    (b"n \"0\"", 1),
    (b"slow 3 $ n \"0\"", 3),
    (b"fast 2 $ cat [n \"0\", n \"0\", n \"0\"]", 3),
    (b"cat [n \"0\", cat [n \"0\", n \"0\", n \"0\"]]", 6),
    (b"fast \"<1 2>\" $ n \"0\"", 2),
    (b"every 3 rev $ n \"0\"", 3),
    (b"1 ~> (every 3 rev $ n \"0\")", 3),
    (b"mask \"<1 1>\" $ 1 ~> (every 3 rev $ n \"0\")", 6),
    (b"ply 2 $ mask \"<1 1>\" $ 1 ~> (every 3 rev $ n \"0\")", 6),
    (
        b"within (0, 1) id $ mask \"<1 1>\" $ every 3 rev $ n \"0\"",
        6,
    ),
];

fn repeats_by(alloc: Global, pattern: &[u8], period: u32) -> Option<bool> {
    let program = program_of(alloc, pattern)?;
    for cycles in 1u32..=6 {
        let repeats = cycles.checked_rem(period)? == 0;
        if repeats_after(program.table(), program.root(), cycles) != repeats {
            return Some(false);
        }
    }
    Some(true)
}

fn repeat(alloc: Global) -> bool {
    for (pattern, period) in &PERIODS {
        if repeats_by(alloc, pattern, *period) != Some(true) {
            return false;
        }
    }
    true
}

#[test]
fn knows_when_patterns_repeat(rt: HostRuntime) {
    assert!(rt; repeat(rt.alloc()));
}
