ghost use Rattle.std.specs.Prelude.{◌≡◌, ◌↔◌, IsTrue, IsSome, IfSome};
ghost use Rattle.std.specs.Cmp.Rules.{comparing};
ghost use Rattle.std.proofs.Common.{rules};
ghost use Rattle.tdl_fraction.specs.Same.{same_arc};
ghost use Rattle.tdl_fraction.specs.Arc.{IsArc, arc_between, meet};
ghost use Rattle.tdl_fraction.specs.Range.{InRange};
ghost use Rattle.tdl_fraction.specs.Rational.{◌<ℚ◌};

use crate::fraction::Frac;
use std::marker::Model;

/// The times from `start` up to `stop`, without `stop`. The start is before the stop.
#[derive(Clone, Copy)]
pub struct TimeArc {
    start: Frac,
    stop: Frac,
}

impl Model for TimeArc {
    ghost use Rattle.tdl_fraction.specs.Arc.{Arc};
    ghost use Rattle.tdl_fraction.specs.Range.{IsTimeArc};
    ghost use Rattle.tdl_fraction.specs.Stored.{arc_code};

    ghost Value = { Arc };

    ghost coded = { arc_code };

    ghost view = { λ a. record { start = a.start; stop = a.stop } };

    ghost invariant = { λ a. IsTimeArc a.start a.stop };

    ghost inverse = { λ a. record { start = a.start; stop = a.stop } };
}

impl TimeArc {
    /// The arc between two times. None where `start` is not before `stop`.
    pub fn of(start: Frac, stop: Frac) -> Option<TimeArc>
        ensures found { IsSome result ↔ (start <ℚ stop) }
        ensures ends { IfSome result (λ a. (a.start ≡ start) × (a.stop ≡ stop)) }
        ensures value { result ≡ arc_between start stop }
    {
        if start.is_less(stop) {
            Some(TimeArc { start, stop })
        } else {
            None
        }
    }

    /// The first time of the arc.
    pub fn start(self) -> Frac
        ensures value { result ≡ self.start }
        ensures in_range { InRange result }
        ensures arc { IsArc self }
    {
        self.start
    }

    /// The time at which the arc ends, which it leaves out.
    pub fn stop(self) -> Frac
        ensures value { result ≡ self.stop }
        ensures in_range { InRange result }
        ensures arc { IsArc self }
    {
        self.stop
    }

    /// What two arcs share. None where that has no width.
    pub fn meet(self, other: TimeArc) -> Option<TimeArc>
        ensures { result ≡ meet self other }
    {
        let start = self.start().max(other.start());
        let stop = self.stop().min(other.stop());
        TimeArc::of(start, stop)
    }
}

impl PartialEq for TimeArc {
    ghost eq = { same_arc };

    ghost laws = { Prim.search (comparing, rules) depth 9 };

    fn eq(&self, other: &TimeArc) -> bool
        ensures value { result ≡ same_arc self.now other.now }
        ensures same { IsTrue result ↔ (self.now ≡ other.now) }
    {
        self.start == other.start && self.stop == other.stop
    }
}

impl Eq for TimeArc {
    ghost laws = { Prim.search (comparing, rules) depth 9 };
}
