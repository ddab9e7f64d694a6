ghost use Rattle.std.specs.Prelude.{IfOk, IfErr};
ghost use Rattle.tdl_app.specs.Arcs.{NamesArc, RefusesArc};

use tdl_fraction::{Frac, LAST_CYCLE, TimeArc};

// Why two words name no arc of a query.
#[derive(Clone, Copy, PartialEq, Eq)]
pub(crate) enum ArcFault {
    // The first word is no fraction.
    From,
    // The second word is none.
    To,
    // The arc begins before 0, or not before it ends.
    Order,
    // It ends after the last cycle.
    Last,
    // One of its ends is no whole count of tick units.
    TickGrid,
}

// The arc that two words name, from 0 up to the last cycle and on the tick grid.
pub(crate) fn read_arc(from: &[u8], to: &[u8]) -> Result<TimeArc, ArcFault>
    ensures ok { IfOk result (NamesArc from.now to.now) }
    ensures err { IfErr result (RefusesArc from.now to.now) }
{
    let Some(start) = Frac::read(from) else {
        return Err(ArcFault::From);
    };
    let Some(stop) = Frac::read(to) else {
        return Err(ArcFault::To);
    };
    if start.is_less(Frac::whole(0)) {
        return Err(ArcFault::Order);
    }
    let Some(arc) = TimeArc::of(start, stop) else {
        return Err(ArcFault::Order);
    };
    if Frac::whole(LAST_CYCLE as i64).is_less(stop) {
        return Err(ArcFault::Last);
    }
    if !arc.is_on_grid() {
        return Err(ArcFault::TickGrid);
    }
    Ok(arc)
}
