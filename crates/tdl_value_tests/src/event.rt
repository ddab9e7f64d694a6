// Events, and lists of them.
use std::alloc::Global;
use std::test::Fail;
use tdl_control::{Faulted, Leaf, Map, MapKind, NoMemory, Text};
use tdl_event::{Event, Events};
use tdl_fraction::{Frac, TimeArc};

type Ends = (&'static str, &'static str);

// A whole, a window that its part lies in, and a value.
type Row = (Ends, Ends, &'static str);

fn arc((start, stop): Ends) -> Option<TimeArc> {
    TimeArc::of(Frac::read(start.as_bytes())?, Frac::read(stop.as_bytes())?)
}

// The event whose part is what the whole shares with a window.
fn event(whole: Ends, window: Ends, value: Leaf) -> Option<Event> {
    let whole = arc(whole)?;
    let window = arc(window)?;
    let part = whole.meet(window)?;
    Some(Event { whole, part, value })
}

// A truth, an index, or controls.
fn value(alloc: Global, text: &str) -> Result<Leaf, Faulted<MapKind>> {
    if text == "true" {
        return Ok(Leaf::Truth(true));
    }
    if text == "3" {
        return Ok(Leaf::Index(3));
    }
    Ok(Leaf::Controls(Map::read(alloc, text.as_bytes())?))
}

fn events_of(alloc: Global, rows: &[Row]) -> Result<Events, Fail> {
    let mut events = Events::new(alloc);
    for (whole, window, text) in rows {
        let value = value(alloc, text)?;
        events.push(event(*whole, *window, value).ok_or("an event")?)?;
    }
    Ok(events)
}

fn prints(alloc: Global, events: &Events, lines: &str) -> Result<bool, NoMemory> {
    let mut text = Text::new(alloc);
    events.print(&mut text)?;
    Ok(text.bytes() == lines.as_bytes())
}

static KINDS: [Row; 4] = [
    (("0", "1/2"), ("0", "1/2"), "s=bd"),
    (("0", "1/2"), ("0", "1/2"), "true"),
    (("0", "1/2"), ("0", "1/2"), "3"),
    (("1/2", "2"), ("1", "3/2"), "s=sn"),
];

#[test]
fn prints_a_line_for_each_map(rt: HostRuntime) -> Result<(), Fail> {
    let alloc = rt.alloc();
    assert!(rt; Events::new(alloc).is_empty());
    let events = events_of(alloc, &KINDS)?;
    assert!(rt; events.len() == 4 && !events.is_empty());
    assert!(rt; prints(alloc, &events, "0 1/2 0 1/2 s=bd\n1/2 2 1 3/2 s=sn\n")?);
    Ok(())
}

// Windows, and whether an event of the first cycle that is seen in them has its onset.
static WINDOWS: [(Ends, bool); 4] = [
    (("0", "1"), true),
    (("0", "1/2"), true),
    (("-1", "1/2"), true),
    (("1/2", "1"), false),
];

fn has_onset(window: Ends) -> Option<bool> {
    Some(event(("0", "1"), window, Leaf::Truth(true))?.has_onset())
}

static CYCLES: [Row; 3] = [
    (("0", "1"), ("0", "1"), "n=5"),
    (("1", "2"), ("1", "2"), "n=6"),
    (("2", "3"), ("2", "3"), "n=7"),
];

static ONE: [Row; 1] = [(("0", "1"), ("0", "1"), "n=8")];

#[test]
fn clips_and_appends_in_order(rt: HostRuntime) -> Result<(), Fail> {
    for (window, wanted) in &WINDOWS {
        assert!(rt; has_onset(*window) == Some(*wanted));
    }
    let alloc = rt.alloc();
    let window = arc(("1/2", "5/4")).ok_or("an arc")?;
    let mut events = events_of(alloc, &CYCLES)?.clip(window);
    events.append(events_of(alloc, &ONE)?)?;
    let lines = "0 1 1/2 1 n=5\n1 2 1 5/4 n=6\n0 1 0 1 n=8\n";
    assert!(rt; prints(alloc, &events, lines)?);
    events.clear();
    assert!(rt; events.is_empty());
    Ok(())
}

#[test]
fn gives_events_other_times_and_places(rt: HostRuntime) -> Result<(), Fail> {
    let alloc = rt.alloc();
    let mut events = events_of(alloc, &CYCLES)?;
    assert!(rt; events.len() == 3);
    let times = event(("3", "4"), ("3", "7/2"), Leaf::Truth(true)).ok_or("an event")?;
    events.retime(1, times.whole, times.part);
    assert!(rt; prints(alloc, &events, "0 1 0 1 n=5\n3 4 3 7/2 n=6\n2 3 2 3 n=7\n")?);
    assert!(rt; events.len() == 3);
    events.swap(0, 2);
    events.truncate(2);
    assert!(rt; prints(alloc, &events, "2 3 2 3 n=7\n3 4 3 7/2 n=6\n")?);
    assert!(rt; events.len() == 2);
    let mut text = Text::new(alloc);
    events.get(1).print(&mut text)?;
    assert!(rt; text.bytes() == b"3 4 3 7/2 n=6\n".as_slice());
    assert!(rt; events.into_vec().len() == 2);
    Ok(())
}
