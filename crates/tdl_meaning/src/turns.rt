ghost use Rattle.std.specs.Prelude.{◌≡◌, ◌≤◌, ◌++◌, map, take, drop, length};
ghost use Rattle.tdl_meaning.specs.Pattern.{turned_time, turned, turned_event};
ghost use Rattle.tdl_meaning.specs.Proper.{Each};
ghost use Rattle.tdl_meaning.specs.Ranges.{HasEnds};
ghost use Rattle.tdl_meaning.specs.Turns.{CanTurn};

use crate::cycle::Cycle;
use tdl_event::Events;
use tdl_fraction::{Frac, TimeArc};

// The time as far from the cycle's end as it was from its start.
fn turned_time(cycle: Cycle, time: Frac) -> Frac
    requires { CanTurn cycle time }
    ensures { result ≡ turned_time cycle time }
{
    time.taken_from(2 * cycle.number() + 1)
}

/// The arc, turned round in the cycle.
pub fn turned(cycle: Cycle, arc: TimeArc) -> TimeArc
    requires start { CanTurn cycle arc.start }
    requires stop { CanTurn cycle arc.stop }
    ensures { result ≡ turned cycle arc }
{
    let start = turned_time(cycle, arc.stop());
    let stop = turned_time(cycle, arc.start());
    TimeArc::of(start, stop).unwrap()
}

/// Turns the events of the list from this place on round in the cycle, in place.
pub fn turn(cycle: Cycle, events: &mut Events, from: usize)
    requires from { from ≤ length events.old }
    requires times { Each (HasEnds (CanTurn cycle)) (drop from events.old) }
    ensures { events.new ≡ take from events.old ++ map (turned_event cycle) (drop from events.old) }
{
    for i in from..events.len() {
        let event = events.get(i);
        let whole = turned(cycle, event.whole);
        let part = turned(cycle, event.part);
        events.retime(i, whole, part);
    }
}
