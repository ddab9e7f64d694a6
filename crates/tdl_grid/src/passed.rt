ghost use Rattle.std.specs.Prelude.{◌≡◌, ◌*◌, ◌<◌, ◌≤◌, ◌^◌, nat_abs, pos, ◌+ℤ◌};
ghost use Rattle.tdl_fraction.specs.Arc.{IsInside};
ghost use Rattle.tdl_meaning.specs.Pattern.{cycle_arc};
ghost use Rattle.tdl_grid.specs.Span.{arc_of};
ghost use Rattle.tdl_grid.specs.inside.Passed.{ArePassedCounts};

use crate::counts::count_of;
use crate::spans::Span;
use tdl_meaning::Cycle;

/// How many weights of a sequence have ended where a span of a cycle begins, and how many have begun where it ends.
#[derive(Clone, Copy)]
pub(crate) struct PassedSteps {
    pub(crate) ended: u64,
    pub(crate) begun: u64,
}

impl PassedSteps {
    // Those of a span of the cycle, where a weight of one has so many counts, and there are weights in all.
    pub(crate) fn of(cycle: Cycle, total: u64, width: u128, arc: Span) -> PassedSteps
        requires some { 0 < total }
        requires few { total ≤ 2 ^ 40 }
        requires width { 0 < width }
        requires small { width * total ≤ 2 ^ 88 }
        requires last { nat_abs (cycle +ℤ pos 1) ≤ 2 ^ 36 }
        requires inside { IsInside (arc_of (width * total) arc) (cycle_arc cycle) }
        ensures { ArePassedCounts cycle total (arc_of (width * total) arc) result }
    {
        let begin = count_of(cycle.number(), width * total as u128);
        let start = (arc.start() - begin) as u128;
        let stop = (arc.stop() - begin) as u128;
        PassedSteps {
            ended: (start / width) as u64,
            begun: stop.div_ceil(width) as u64,
        }
    }
}
