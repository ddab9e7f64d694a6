ghost use Rattle.std.specs.Prelude.{◌≡◌, ◌≤◌, ◌++◌, length, take, drop};
ghost use Rattle.std.specs.List.{filter};
ghost use Rattle.tdl_meaning.specs.Kinds.{place, is_between, starts_in, passes};

use tdl_event::Events;
use tdl_fraction::{Frac, TimeArc};

/// A part of each cycle, and whether it is meant for what starts there or for what starts elsewhere.
#[derive(Clone, Copy)]
pub struct Window {
    pub from: Frac,
    pub to: Frac,
    pub inside: bool,
}

impl Window {
    /// Whether it is meant for an event with this whole.
    pub fn is_for(&self, whole: TimeArc) -> bool
        ensures { result ≡ starts_in self.now.from self.now.to self.now.inside whole }
    {
        is_between(self.from, self.to, place(whole)) == self.inside
    }

    /// Keeps of the events of the list from this place on those that it is meant for, in their order.
    pub fn filter(&self, events: &mut Events, from: usize)
        requires { from ≤ length events.old }
        ensures { events.new
            ≡ take from events.old ++ filter (passes self.now.from self.now.to self.now.inside) (drop from events.old) }
    {
        let mut kept = from;
        for i in from..events.len() {
            if self.is_for(events.get(i).whole) {
                events.swap(kept, i);
                kept += 1;
            }
        }
        events.truncate(kept);
    }
}

// Whether the time is one from the first up to the second, without the second.
fn is_between(from: Frac, to: Frac, time: Frac) -> bool
    ensures { result ≡ is_between from to time }
{
    !time.is_less(from) && time.is_less(to)
}

// Where in its cycle the arc starts.
fn place(arc: TimeArc) -> Frac
    ensures { result ≡ place arc.start }
{
    let start = arc.start();
    start.sub(Frac::whole(start.floor()))
}
