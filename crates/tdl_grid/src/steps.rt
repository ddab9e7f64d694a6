ghost use Rattle.std.specs.Prelude.{◌≡◌, ◌*◌, ◌≤◌, ◌^◌, nat_abs, option_map};
ghost use Rattle.tdl_grid.specs.Span.{arc_of};

use crate::counts::count_of;
use crate::spans::Span;
use tdl_meaning::Cycle;

/// A step of a sequence in a cycle: its weight after earlier weights, of weights in all, where a weight of one has so
/// many counts of the cycle.
#[derive(Clone, Copy)]
pub struct Step {
    pub cycle: Cycle,
    pub before: u64,
    pub weight: u64,
    pub total: u64,
    pub width: u128,
}

impl Step {
    ghost use Rattle.tdl_grid.specs.Step.{IsStep, step_delay, share_span, asked_step, asked_arc};

    /// How many counts a time of the step's own cycle is later in its share.
    pub fn delay(&self) -> i128
        requires { IsStep self.now }
        ensures value { let s = self.now in result ≡ step_delay s.cycle s.before s.weight s.total s.width }
        ensures bound { nat_abs result ≤ 2 ^ 126 }
    {
        let own = count_of(self.cycle.number(), self.width * self.weight as u128);
        self.share().start() - own
    }

    /// The step's share of the cycle.
    pub fn share(&self) -> Span
        requires { IsStep self.now }
        ensures { let s = self.now in result ≡ share_span s.cycle s.before s.weight s.total s.width }
    {
        let begin = count_of(self.cycle.number(), self.width * self.total as u128);
        let before = self.before as u128 * self.width;
        let after = before + self.weight as u128 * self.width;
        Span::between(begin + before as i128, begin + after as i128)
    }

    /// What is asked of the step, in counts of its own unit, where a span of the cycle is asked of the sequence. None
    /// where that does not meet the step's share.
    pub fn asked(&self, arc: Span) -> Option<Span>
        requires { IsStep self.now }
        ensures counts { let s = self.now in result ≡ asked_step s.cycle s.before s.weight s.total s.width arc }
        ensures arcs { let s = self.now in option_map (arc_of (s.width * s.weight)) result
            ≡ asked_arc s.cycle s.before s.weight s.total (arc_of (s.width * s.total) arc) }
    {
        let by = self.delay();
        match self.share().meet(arc) {
            Some(own) => Some(own.earlier(by)),
            None => None,
        }
    }
}
