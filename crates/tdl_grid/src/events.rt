ghost use Rattle.std.specs.Prelude.{◌≡◌, ◌<◌, ◌≤◌, ◌^◌, ◌++◌, IfOk, OnOk};
ghost use Rattle.std.specs.Int.{◌∣◌};
ghost use Rattle.std.specs.List.{filter};
ghost use Rattle.tdl_fraction.specs.Rational.{frac};
ghost use Rattle.tdl_fraction.specs.Range.{InRange};
ghost use Rattle.tdl_meaning.specs.Onsets.{has_onset};
ghost use Rattle.tdl_meaning.specs.Proper.{Each};
ghost use Rattle.tdl_grid.specs.Span.{arc_of};
ghost use Rattle.tdl_grid.specs.Item.{event_of};
ghost use Rattle.tdl_grid.specs.ItemLaws.{events_of};
ghost use Rattle.tdl_grid.specs.Times.{HasTimes};

use crate::conversions::count_at;
use crate::items::{Item, Items};
use crate::spans::Span;
use std::alloc::Global;
use std::marker::Model;
use tdl_control::NoMemory;
use tdl_event::{Event, Events};
use tdl_fraction::{Frac, TimeArc};

/// Adds the events that the items are in the unit, in their order. They are those of an arc that stops at this time.
pub fn add_events(
    alloc: Global,
    items: Items,
    unit: u128,
    stop: Frac,
    out: &mut Events,
) -> Result<(), NoMemory>
    requires positive { 0 < unit }
    requires small { unit ≤ 2 ^ 88 }
    requires stop { stop.den ∣ unit }
    requires in_range { Each (HasTimes unit) items }
    ensures { OnOk result (out.new ≡ out.old ++ events_of unit items.entry) }
{
    let mut times = Times::of(unit, stop);
    for item in items.into_vec() {
        out.push(times.event(alloc, item)?)?;
    }
    Ok(())
}

/// Adds those of the events that have their onset, in their order.
pub fn add_onsets(
    alloc: Global,
    items: Items,
    unit: u128,
    stop: Frac,
    out: &mut Events,
) -> Result<(), NoMemory>
    requires positive { 0 < unit }
    requires small { unit ≤ 2 ^ 88 }
    requires stop { stop.den ∣ unit }
    requires in_range { Each (HasTimes unit) items }
    ensures { OnOk result (out.new ≡ out.old ++ filter has_onset (events_of unit items.entry)) }
{
    let mut times = Times::of(unit, stop);
    for item in items.into_vec() {
        if item.has_onset() {
            out.push(times.event(alloc, item)?)?;
        }
    }
    Ok(())
}

// The times of counts of a unit. Two are kept: the one that was asked for last, since most events begin where the one
// before stops, and the end of an arc, since it cuts events.
#[derive(Drop)]
struct Times {
    unit: u128,
    last: Timed,
    end: Timed,
}

// A count with its time.
#[derive(Clone, Copy)]
struct Timed {
    count: i128,
    time: Frac,
}

impl Model for Times {
    ghost use Rattle.std.specs.Prelude.{ℕ};
    ghost use Rattle.tdl_grid.specs.Times.{IsTimeOf};

    ghost Value = { ℕ };

    ghost view = { λ t. t.unit };

    ghost invariant = { λ t. IsTimeOf t.unit t.last.count t.last.time × IsTimeOf t.unit t.end.count t.end.time };
}

impl Times {
    // Those of the unit, for an arc that stops at this time.
    fn of(unit: u128, stop: Frac) -> Times
        requires positive { 0 < unit }
        requires small { unit ≤ 2 ^ 88 }
        requires stop { stop.den ∣ unit }
        ensures { result ≡ unit }
    {
        let end = Timed {
            count: count_at(stop, unit),
            time: stop,
        };
        let last = end;
        Times { unit, last, end }
    }

    // The event that the item is. Most parts are whole; those that are cut begin as the whole does, or end as the arc.
    fn event(&mut self, alloc: Global, item: Item) -> Result<Event, NoMemory>
        requires { HasTimes self.old item }
        ensures value { IfOk result (λ event. event ≡ event_of self.old item.entry) }
        ensures unit { self.new ≡ self.old }
    {
        let Item { whole, part, value } = item;
        let all = part == whole;
        let part = self.arc(part);
        let whole = if all { part } else { self.arc(whole) };
        let value = value.into_leaf(alloc)?;
        Ok(Event { whole, part, value })
    }

    // The arc that the span is.
    fn arc(&mut self, span: Span) -> TimeArc
        requires start { InRange (frac span.start self.old) }
        requires stop { InRange (frac span.stop self.old) }
        ensures positive { 0 < self.old }
        ensures value { result ≡ arc_of self.old span }
        ensures unit { self.new ≡ self.old }
    {
        let start = self.at(span.start());
        let stop = self.at(span.stop());
        TimeArc::of(start, stop).unwrap()
    }

    // The time of the count.
    fn at(&mut self, count: i128) -> Frac
        requires { InRange (frac count self.old) }
        ensures positive { 0 < self.old }
        ensures value { result ≡ frac count self.old }
        ensures unit { self.new ≡ self.old }
    {
        if count == self.end.count {
            return self.end.time;
        }
        if count != self.last.count {
            self.last = Timed {
                count,
                time: Frac::from_parts(count, self.unit),
            };
        }
        self.last.time
    }
}
