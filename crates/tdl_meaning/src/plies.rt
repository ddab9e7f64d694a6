ghost use Rattle.std.specs.Prelude.{◌≡◌, ◌<◌, ◌≤◌, ◌++◌, OnOk};
ghost use Rattle.std.specs.List.{flat_map};
ghost use Rattle.tdl_meaning.specs.Kinds.{along, piece, fragments};
ghost use Rattle.tdl_meaning.specs.Proper.{Each};
ghost use Rattle.tdl_meaning.specs.Pieces.{CanPly, CanPlyWhole};

use std::alloc::Global;
use tdl_control::NoMemory;
use tdl_event::{Event, Events};
use tdl_fraction::{Frac, TimeArc};

/// Adds the events, each cut into so many, one after another.
pub fn add_plied(
    alloc: Global,
    times: u32,
    events: Events,
    out: &mut Events,
) -> Result<(), NoMemory>
    requires some { 0 < times }
    requires can { Each (CanPlyWhole times) events }
    ensures { OnOk result (out.new ≡ out.old ++ flat_map (fragments times) events) }
{
    for event in events.into_vec() {
        add_fragments(alloc, times, event, out)?;
    }
    Ok(())
}

// Adds of each of so many equal pieces of the event's whole what the event's part has of it. The last one takes the
// event's own value.
fn add_fragments(alloc: Global, times: u32, event: Event, out: &mut Events) -> Result<(), NoMemory>
    requires some { 0 < times }
    requires can { CanPlyWhole times event }
    ensures { OnOk result (out.new ≡ out.old ++ fragments times event) }
{
    let Event { whole, part, value } = event;
    let last = times - 1;
    for j in 0..last {
        let next = piece(times, whole, j);
        if let Some(cut) = next.meet(part) {
            out.push(Event {
                whole: next,
                part: cut,
                value: value.copy(alloc)?,
            })?;
        }
    }
    let next = piece(times, whole, last);
    match next.meet(part) {
        Some(cut) => out.push(Event {
            whole: next,
            part: cut,
            value,
        }),
        None => Ok(()),
    }
}

// The next of so many equal pieces of the arc, after j of them.
fn piece(times: u32, arc: TimeArc, j: u32) -> TimeArc
    requires below { j < times }
    requires can { CanPly times arc }
    ensures { result ≡ piece times arc j }
{
    TimeArc::of(along(times, arc, j), along(times, arc, j + 1)).unwrap()
}

// Where j of so many equal pieces of the arc end. Both products are no further from 0 than its ends.
fn along(times: u32, arc: TimeArc, j: u32) -> Frac
    requires some { 0 < times }
    requires within { j ≤ times }
    requires can { CanPly times arc }
    ensures { result ≡ along times arc j }
{
    let left = arc
        .start()
        .times_plus_over((times - j) as u64, 0, times as u64);
    let passed = arc.stop().times_plus_over(j as u64, 0, times as u64);
    left.add(passed)
}
