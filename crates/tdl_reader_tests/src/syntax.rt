// What the reader answers for texts of each kind.
ghost use Rattle.std.specs.Prelude.{IsTrue};
ghost use Rattle.tdl_mini_tree.specs.Valid.{fits_key};

mod edges;
mod faults;
mod numbers;
mod readable;

use self::faults::Fault;
use std::alloc::Global;
use tdl_control::{Faulted, Key};
use tdl_mini::read_mini;
use tdl_mini_tree::{Extremes, Kind, MiniKind};

// The kind of the fault of a text, and its offset.
fn fault_of(alloc: Global, kind: Kind, text: &[u8]) -> Option<(MiniKind, u32)>
    requires { IsTrue (fits_key kind) }
{
    if text.len() > 1 << 24 {
        return None;
    }
    match read_mini(alloc, text, kind) {
        Ok(_) | Err(Faulted::NoMemory) => None,
        Err(Faulted::At { kind, at }) => Some((kind, at)),
    }
}

// Whether each text of the kind has its fault, at its offset.
fn have_faults(alloc: Global, kind: Kind, rows: &[Fault]) -> bool
    requires { IsTrue (fits_key kind) }
{
    for Fault(fault, text, at) in rows {
        if fault_of(alloc, kind, text) != Some((*fault, *at)) {
            return false;
        }
    }
    true
}

// Whether each text of the kind is read.
fn are_read(alloc: Global, kind: Kind, texts: &[&[u8]]) -> bool
    requires { IsTrue (fits_key kind) }
{
    for text in texts {
        if text.len() > 1 << 24 || read_mini(alloc, text, kind).is_err() {
            return false;
        }
    }
    true
}

#[test]
fn tells_faults(rt: HostRuntime) {
    let alloc = rt.alloc();
    assert!(rt; have_faults(alloc, Kind::Sound, &faults::SOUNDS));
    assert!(rt; have_faults(alloc, Kind::Note { key: Key::N }, &faults::NOTES));
    assert!(rt; have_faults(alloc, Kind::Int { key: Key::Speed }, &faults::INTEGERS));
    assert!(rt; have_faults(alloc, Kind::Word { key: Key::Unit }, &faults::WORDS));
    assert!(rt; have_faults(alloc, Kind::Bool, &faults::TRUTHS));
    assert!(rt; have_faults(alloc, Kind::Count, &faults::COUNTS));
    assert!(rt; have_faults(alloc, Kind::Ratio, &faults::RATIOS));
}

#[test]
fn tells_faults_at_edges(rt: HostRuntime) {
    let alloc = rt.alloc();
    assert!(rt; have_faults(alloc, Kind::Sound, &edges::SOUNDS));
    assert!(rt; have_faults(alloc, Kind::Note { key: Key::N }, &edges::NOTES));
    assert!(rt; have_faults(alloc, Kind::Int { key: Key::Speed }, &edges::INTEGERS));
    assert!(rt; have_faults(alloc, Kind::Word { key: Key::Unit }, &edges::WORDS));
    assert!(rt; have_faults(alloc, Kind::Bool, &edges::TRUTHS));
    assert!(rt; have_faults(alloc, Kind::Count, &edges::COUNTS));
    assert!(rt; have_faults(alloc, Kind::Ratio, &edges::RATIOS));
}

#[test]
fn reads(rt: HostRuntime) {
    let alloc = rt.alloc();
    assert!(rt; are_read(alloc, Kind::Sound, &readable::SOUNDS));
    assert!(rt; are_read(alloc, Kind::Note { key: Key::Note }, &readable::NOTES));
    assert!(rt; are_read(alloc, Kind::Int { key: Key::Speed }, &readable::INTEGERS));
    assert!(rt; are_read(alloc, Kind::Word { key: Key::Unit }, &readable::WORDS));
    assert!(rt; are_read(alloc, Kind::Bool, &readable::TRUTHS));
    assert!(rt; are_read(alloc, Kind::Count, &readable::COUNTS));
    assert!(rt; are_read(alloc, Kind::Ratio, &readable::RATIOS));
}

// The span of the values of a text of counts.
fn extremes_of(alloc: Global, text: &[u8]) -> Option<Extremes> {
    if text.len() > 1 << 24 {
        return None;
    }
    let tree = read_mini(alloc, text, Kind::Count).ok()?;
    Some(tree.span())
}

// A text of hits, one of steps, and whether there is a rhythm for each choice of the two.
#[derive(Clone, Copy)]
struct Rhythms(&'static [u8], &'static [u8], bool);

static RHYTHMS: [Rhythms; 4] = [
    Rhythms(b"3 .. 5", b"8", true),
    Rhythms(b"3 <1 [9 2]>", b"8", false),
    Rhythms(b"3*9 -8", b"<9 8>", true),
    Rhythms(b"3", b"8 .. 129", false),
];

fn have_rhythms(alloc: Global, cases: &[Rhythms]) -> bool {
    for Rhythms(hits, steps, wanted) in cases {
        match (extremes_of(alloc, hits), extremes_of(alloc, steps)) {
            (Some(hits), Some(steps)) if hits.has_rhythms(steps) == *wanted => {}
            _ => return false,
        }
    }
    true
}

#[test]
fn tells_the_span_of_values(rt: HostRuntime) {
    let alloc = rt.alloc();
    assert!(rt; have_rhythms(alloc, &RHYTHMS));
    assert!(rt; extremes_of(alloc, b"~ <> [~ ~]").map(Extremes::is_empty) == Some(true));
}
