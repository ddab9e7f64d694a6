ghost use Rattle.std.specs.Cmp.Rules.{comparing};
ghost use Rattle.std.proofs.Common.{rules};
ghost use Rattle.std.specs.Prelude.{◌≡◌, ◌↔◌, IsTrue, ℕ, option_map, ◌<◌, ◌≤◌, ◌^◌, pos, ◌+ℤ◌, ◌-ℤ◌, ◌*ℤ◌, nat_abs};
ghost use Rattle.std.specs.Int.{◌∣◌};
ghost use Rattle.tdl_fraction.specs.Arc.{meet};
ghost use Rattle.tdl_meaning.specs.Pattern.{cycle_arc};
ghost use Rattle.tdl_grid.specs.Span.{IsCount, IsSpan, same_span, finer_span, later_span, earlier_span, turn_span, span_between, met, cycle_span, arc_of};

use crate::counts::count_of;
use std::marker::Model;
use tdl_meaning::Cycle;

/// The counts from `start` up to `stop`, without `stop`, of a unit that stands beside the span. The start is before
/// the stop.
#[derive(Clone, Copy)]
pub struct Span {
    start: i128,
    stop: i128,
}

impl Model for Span {
    ghost use Rattle.tdl_grid.specs.Span.{Span as SpanValue, IsSpan};
    ghost use Rattle.tdl_grid.specs.Stored.{span_code};

    ghost Value = { SpanValue };

    ghost coded = { span_code };

    ghost view = { λ s. record { start = s.start; stop = s.stop } };

    ghost invariant = { λ s. IsSpan s.start s.stop };

    ghost inverse = { λ s. record { start = s.start; stop = s.stop } };
}

impl Span {
    /// The span between two counts. None where `start` is not before `stop`.
    pub fn of(start: i128, stop: i128) -> Option<Span>
        requires start { IsCount start }
        requires stop { IsCount stop }
        ensures { result ≡ span_between start stop }
    {
        if start < stop {
            Some(Span { start, stop })
        } else {
            None
        }
    }

    /// The span from one count up to another.
    pub fn between(start: i128, stop: i128) -> Span
        requires { IsSpan start stop }
        ensures { result ≡ record { start = start; stop = stop } }
    {
        Span { start, stop }
    }

    /// The cycle, in counts of the unit.
    pub fn of_cycle(cycle: Cycle, unit: u128) -> Span
        requires positive { 0 < unit }
        requires small { unit ≤ 2 ^ 88 }
        requires last { nat_abs (cycle +ℤ pos 1) ≤ 2 ^ 36 }
        ensures counts { result ≡ cycle_span unit cycle }
        ensures arc { arc_of unit result ≡ cycle_arc cycle }
    {
        Span {
            start: count_of(cycle.number(), unit),
            stop: count_of(cycle.later(1).number(), unit),
        }
    }

    /// The first count.
    pub fn start(self) -> i128
        ensures value { result ≡ self.start }
        ensures span { IsSpan self.start self.stop }
    {
        self.start
    }

    /// The count that the span ends at, and leaves out.
    pub fn stop(self) -> i128
        ensures value { result ≡ self.stop }
        ensures span { IsSpan self.start self.stop }
    {
        self.stop
    }

    /// The span so many counts later.
    pub fn later(self, by: i128) -> Span
        requires start { IsCount (self.start +ℤ by) }
        requires stop { IsCount (self.stop +ℤ by) }
        ensures { result ≡ later_span by self }
    {
        Span {
            start: self.start + by,
            stop: self.stop + by,
        }
    }

    /// The span so many counts earlier.
    pub fn earlier(self, by: i128) -> Span
        requires start { IsCount (self.start -ℤ by) }
        requires stop { IsCount (self.stop -ℤ by) }
        ensures { result ≡ earlier_span by self }
    {
        Span {
            start: self.start - by,
            stop: self.stop - by,
        }
    }

    /// The span turned round: each of its counts is taken from this one.
    pub fn turned(self, round: i128) -> Span
        requires start { IsCount (round -ℤ self.start) }
        requires stop { IsCount (round -ℤ self.stop) }
        ensures { result ≡ turn_span (λ n. round -ℤ n) self }
    {
        Span {
            start: round - self.stop,
            stop: round - self.start,
        }
    }

    /// The span in a unit so many times as fine.
    pub fn finer(self, times: u128) -> Span
        requires positive { 0 < times }
        requires small { times ≤ 2 ^ 88 }
        requires start { IsCount (self.start *ℤ pos times) }
        requires stop { IsCount (self.stop *ℤ pos times) }
        ensures { result ≡ finer_span times self }
    {
        Span {
            start: self.start * times as i128,
            stop: self.stop * times as i128,
        }
    }

    /// The span in a unit of which this one has so many in one, if its counts are whole ones there.
    pub fn coarser(self, times: u128) -> Span
        requires positive { 0 < times }
        requires small { times ≤ 2 ^ 88 }
        requires start { times ∣ nat_abs self.start }
        requires stop { times ∣ nat_abs self.stop }
        ensures { finer_span times result ≡ self }
    {
        Span {
            start: self.start / times as i128,
            stop: self.stop / times as i128,
        }
    }

    /// What two spans share. None where that is no count.
    pub fn meet(self, other: Span) -> Option<Span>
        ensures counts { result ≡ met self other }
        ensures arcs { (u : ℕ) → 0 < u → option_map (arc_of u) result ≡ meet (arc_of u self) (arc_of u other) }
    {
        let start = self.start.max(other.start);
        let stop = self.stop.min(other.stop);
        Span::of(start, stop)
    }
}

impl PartialEq for Span {
    ghost eq = { same_span };

    ghost laws = { Prim.search (comparing, rules) depth 9 };

    fn eq(&self, other: &Span) -> bool
        ensures value { result ≡ same_span self.now other.now }
        ensures same { IsTrue result ↔ (self.now ≡ other.now) }
    {
        self.start == other.start && self.stop == other.stop
    }
}

impl Eq for Span {
    ghost laws = { Prim.search (comparing, rules) depth 9 };
}
