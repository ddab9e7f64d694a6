// Who ticks beside the performers.
ghost use Rattle.std.specs.Prelude.{◌≡◌};
ghost use Rattle.tdl_serve.specs.inside.Ticking.{Ticked};

use crate::lengths::Length;
use std::sync::Wait;
use tdl_beats::{BeatEnd, beat, beaten_stays};
use tdl_core::Core;
use tdl_io::{Clock, Wire};
use tdl_session::{Hall, Leader, Pass};

// The clock and the wires of a run, and how long it is.
#[derive(Drop)]
pub(crate) struct Ticker<'clock, 'osc, 'midi, C, W> {
    pub length: Length,
    pub clock: &'clock mut C,
    pub osc: &'osc mut W,
    pub midi: &'midi mut W,
}

impl<'clock, 'osc, 'midi, C: Clock, W: Wire> Leader<Core> for Ticker<'clock, 'osc, 'midi, C, W> {
    type End = BeatEnd;

    ghost did = { λ tempo history old new end. Ticked C.beats W.sent W.faults tempo history old new end };

    fn did_law() {
        beaten_stays();
    }

    fn lead<R: Wait>(&mut self, rt: &R, hall: &Hall<Core>, pass: &mut Pass<Core>) -> BeatEnd {
        let Ticker {
            length,
            clock,
            osc,
            midi,
        } = self;
        beat(
            rt,
            hall.alloc,
            &hall.shared,
            pass,
            *clock,
            *osc,
            *midi,
            length.cycles(),
        )
    }
}
