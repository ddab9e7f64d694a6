// A query of a program answers what the pattern means.
ghost use Rattle.std.specs.Prelude.{◌≡◌, ◌<◌};
ghost use Rattle.tdl_fraction.specs.Units.{IsQueryArc};

use crate::meaning::{MEANT, Meant};
use crate::patterns::{arc_of, lines_of, program_of};
use std::alloc::Global;
use std::marker::Brand;
use std::sync::ledger::{Blank, Ledger};
use tdl_compile::Program;
use tdl_event::Events;
use tdl_fraction::TimeArc;
use tdl_grid::GridProgram;
use tdl_meaning::{StepCount, plain};

// The program's events in the arc.
fn events_in<L: Ledger>(
    alloc: Global,
    blank: Blank,
    program: &Program,
    arc: TimeArc,
) -> Option<Events>
    requires name { blank.name ≡ L.name }
    requires parts { blank.parts ≡ L.parts }
    requires some { 0 < blank.parts }
    requires arc { IsQueryArc arc }
{
    let mut steps: StepCount<L> = StepCount::new(blank);
    GridProgram::of(program).query(alloc, arc, &mut steps).ok()
}

// Those that have their onset.
fn onsets_in<L: Ledger>(
    alloc: Global,
    blank: Blank,
    program: &Program,
    arc: TimeArc,
) -> Option<Events>
    requires name { blank.name ≡ L.name }
    requires parts { blank.parts ≡ L.parts }
    requires some { 0 < blank.parts }
    requires arc { IsQueryArc arc }
{
    let mut steps: StepCount<L> = StepCount::new(blank);
    GridProgram::of(program).onsets(alloc, arc, &mut steps).ok()
}

// A pattern, the ends of an arc that cuts its events, how many it has there, and how many have their onset.
#[derive(Clone, Copy)]
struct Cut(&'static [u8], &'static [u8], &'static [u8], usize, usize);

// One at least for each way in which an arc may cut the events of a kind of tree.
static CUTS: [Cut; 21] = [
    Cut(b"n \"0 1 2\"", b"1/6", b"5/6", 3, 2),
    Cut(b"n \"0 1 2\"", b"5/12", b"7/12", 1, 0),
    Cut(b"n \"0 1 2\"", b"1/3", b"2/3", 1, 1),
    Cut(b"n \"0 1 2\"", b"5/6", b"7/6", 2, 1),
    Cut(b"n \"0 1@4 2\"", b"1/12", b"11/12", 3, 2),
    Cut(b"n \"0 1@4 2\"", b"1/6", b"5/6", 1, 1),
    Cut(b"n \"0 1@4 2\"", b"1/2", b"5/4", 4, 3),
    Cut(b"n \"<[0 1 2] 3>\"", b"1/2", b"7/2", 7, 6),
    Cut(b"rev $ n \"0 1@4 2\"", b"1/12", b"1/2", 2, 1),
    Cut(b"rev $ n \"0 1@4 2\"", b"1/6", b"11/12", 2, 2),
    Cut(
        b"stack [rev $ n \"0 1@4 2\", n \"3\"]",
        b"1/12",
        b"1/2",
        3,
        1,
    ),
    Cut(b"fast 1.5 $ n \"0 1 2\"", b"1/4", b"5/4", 6, 4),
    Cut(b"fast \"[1 1 0]*1.5\" $ n \"3\"", b"1/4", b"5/4", 4, 1),
    Cut(
        b"every' 2 1 (const (n \"0 1 2\")) $ n \"3\"",
        b"1/2",
        b"7/2",
        7,
        6,
    ),
    Cut(b"0.25 ~> n \"0 1 2\"", b"1/2", b"5/4", 4, 2),
    Cut(b"ply 2 $ n \"0 1 2\"", b"1/4", b"5/4", 7, 6),
    Cut(
        b"within (0.25, 0.75) (# s \"bd\") $ n \"0 1 2\"",
        b"1/2",
        b"3/2",
        4,
        3,
    ),
    Cut(
        b"within (0, 0.25) (const silence) $ within (0.75, 1) (const silence) $ n \"0 1 2\"",
        b"1/2",
        b"3/2",
        3,
        2,
    ),
    Cut(b"n \"3\" |+ n \"0 1 2\"", b"1/4", b"5/4", 4, 1),
    Cut(b"n \"3\" +| n \"0 1 2\"", b"1/4", b"5/4", 4, 3),
    Cut(b"n \"3\" |+| n \"0 1 2\"", b"1/4", b"5/4", 4, 3),
];

// Whether the query answers so many events, those of the plain meaning.
fn plays_as_meant(alloc: Global, cut: &Cut) -> Option<bool> {
    let Cut(pattern, from, to, count, _) = cut;
    let program = program_of(alloc, pattern)?;
    let arc = arc_of(from, to)?;
    let events = events_in::<Brand>(alloc, Blank::new(1), &program, arc)?;
    let lines = lines_of(alloc, &events)?;
    let meant = plain(alloc, program.table(), program.root(), arc).ok()?;
    Some(events.len() == *count && lines.bytes() == lines_of(alloc, &meant)?.bytes())
}

// Whether so many have their onset.
fn begins_as_meant(alloc: Global, cut: &Cut) -> Option<bool> {
    let Cut(pattern, from, to, _, begun) = cut;
    let program = program_of(alloc, pattern)?;
    let arc = arc_of(from, to)?;
    let events = onsets_in::<Brand>(alloc, Blank::new(1), &program, arc)?;
    Some(events.len() == *begun)
}

fn play_as_meant(alloc: Global) -> bool {
    for cut in &CUTS {
        if plays_as_meant(alloc, cut) != Some(true) || begins_as_meant(alloc, cut) != Some(true) {
            return false;
        }
    }
    true
}

#[test]
fn plays_what_is_meant(rt: HostRuntime) {
    assert!(rt; play_as_meant(rt.alloc()));
}

fn has_events(alloc: Global, meant: &Meant) -> Option<bool> {
    let Meant(pattern, from, to, lines) = meant;
    let program = program_of(alloc, pattern)?;
    let arc = arc_of(from, to)?;
    let events = events_in::<Brand>(alloc, Blank::new(1), &program, arc)?;
    Some(lines_of(alloc, &events)?.bytes() == *lines)
}

fn have_events(alloc: Global) -> bool {
    for meant in &MEANT {
        if has_events(alloc, meant) != Some(true) {
            return false;
        }
    }
    true
}

#[test]
fn plays_each_kind(rt: HostRuntime) {
    assert!(rt; have_events(rt.alloc()));
}
