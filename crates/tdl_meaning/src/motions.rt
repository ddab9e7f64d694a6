ghost use Rattle.std.specs.Prelude.{◌≡◌, ◌<◌, ◌≤◌, ◌^◌, ◌++◌, map, take, drop, length, nat_abs};
ghost use Rattle.tdl_fraction.specs.Arc.{map_arc};
ghost use Rattle.tdl_fraction.specs.Range.{InRange};
ghost use Rattle.tdl_meaning.specs.Pattern.{moved, squeezed};
ghost use Rattle.tdl_meaning.specs.Proper.{Each};
ghost use Rattle.tdl_meaning.specs.Ranges.{HasEnds};
ghost use Rattle.tdl_meaning.specs.Motions.{time_at, IsForward, CanMove, StepFits};

use crate::cycle::Cycle;
use tdl_event::Events;
use tdl_fraction::{Frac, TimeArc};

/// How the times of a child's events move into its parent.
#[derive(Drop)]
pub enum Motion {
    /// They are divided by the rate.
    Slower {
        rate: Frac,
    },
    /// They are so many cycles later.
    Later {
        by: i64,
    },
    /// They are later by some time, or earlier where that is below 0.
    Shifted {
        by: Frac,
    },
    /// Times of the cycle go into the share of it that a step has with its weight, which comes after
    /// earlier weights, of weights in all.
    Step {
        cycle: Cycle,
        before: u64,
        weight: u64,
        total: u64,
    },
}

impl Motion {
    /// Where the time goes.
    pub fn at(&self, time: Frac) -> Frac
        requires { CanMove self.now time }
        ensures { result ≡ time_at self.now time }
    {
        match *self {
            Motion::Slower { rate } => time.div(rate),
            Motion::Later { by } => time.add_whole(by),
            Motion::Shifted { by } => time.add(by),
            Motion::Step {
                cycle,
                before,
                weight,
                total,
            } => squeezed(cycle, before, weight, total, time),
        }
    }

    // Where the arc goes.
    fn arc_at(&self, arc: TimeArc) -> TimeArc
        requires forward { IsForward self.now }
        requires start { CanMove self.now arc.start }
        requires stop { CanMove self.now arc.stop }
        ensures { result ≡ map_arc (time_at self.now) arc }
    {
        TimeArc::of(self.at(arc.start()), self.at(arc.stop())).unwrap()
    }

    // Where the time goes, if it is known where an arc goes. It may be an end of that arc.
    fn at_knowing(&self, time: Frac, known: TimeArc, there: TimeArc) -> Frac
        requires time { CanMove self.now time }
        requires there { there ≡ map_arc (time_at self.now) known }
        ensures { result ≡ time_at self.now time }
    {
        if time == known.stop() {
            there.stop()
        } else if time == known.start() {
            there.start()
        } else {
            self.at(time)
        }
    }

    // Where the arc goes, if it is known where another one goes. It may be the same arc, or share an end with it.
    fn arc_knowing(&self, arc: TimeArc, known: TimeArc, there: TimeArc) -> TimeArc
        requires forward { IsForward self.now }
        requires start { CanMove self.now arc.start }
        requires stop { CanMove self.now arc.stop }
        requires there { there ≡ map_arc (time_at self.now) known }
        ensures { result ≡ map_arc (time_at self.now) arc }
    {
        if arc == known {
            return there;
        }
        let start = self.at_knowing(arc.start(), known, there);
        let stop = self.at_knowing(arc.stop(), known, there);
        TimeArc::of(start, stop).unwrap()
    }

    /// Moves the events of the list from this place on, in place.
    pub fn apply(&self, events: &mut Events, from: usize)
        requires from { from ≤ length events.old }
        requires forward { IsForward self.now }
        requires times { Each (HasEnds (CanMove self.now)) (drop from events.old) }
        ensures { events.new ≡ take from events.old ++ map (moved (time_at self.now)) (drop from events.old) }
    {
        if from < events.len() {
            let known = events.get(from).whole;
            let there = self.arc_at(known);
            self.apply_knowing(known, there, events, from);
        }
    }

    /// The same, if it is known where an arc goes. Ends that events have in common with it, or with the event
    /// before them, are not worked out again.
    pub fn apply_knowing(
        &self,
        mut known: TimeArc,
        mut there: TimeArc,
        events: &mut Events,
        from: usize,
    )
        requires from { from ≤ length events.old }
        requires forward { IsForward self.now }
        requires times { Each (HasEnds (CanMove self.now)) (drop from events.old) }
        requires there { there ≡ map_arc (time_at self.now) known }
        ensures { events.new ≡ take from events.old ++ map (moved (time_at self.now)) (drop from events.old) }
    {
        for i in from..events.len() {
            let event = events.get(i);
            let whole = event.whole;
            let moved = self.arc_knowing(whole, known, there);
            let part = self.arc_knowing(event.part, whole, moved);
            events.retime(i, moved, part);
            known = whole;
            there = moved;
        }
    }
}

// Where a time of the cycle goes in a step. Only the weights make a division necessary.
fn squeezed(cycle: Cycle, before: u64, weight: u64, total: u64, time: Frac) -> Frac
    requires total { 0 < total }
    requires between { StepFits cycle before weight total time }
    requires there { InRange (squeezed cycle before weight total time) }
    ensures { result ≡ squeezed cycle before weight total time }
{
    let number = cycle.number();
    time.add_whole(-number)
        .times_plus_over(weight, before as i64, total)
        .add_whole(number)
}
