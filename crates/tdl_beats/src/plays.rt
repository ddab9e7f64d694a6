// Ticks up to a target, and up to a goal by the beats of a clock.
ghost use Rattle.std.specs.Prelude.{◌≤◌, ◌^◌, map, IfErr, IfSome, OnOk};
ghost use Rattle.tdl_score.specs.declared.histories.Deed.TheVariants.{Tick};
ghost use Rattle.tdl_session.specs.Passes.{SamePass};
ghost use Rattle.tdl_answer.specs.Account.{wires};
ghost use Rattle.tdl_beats.specs.Beaten.{deeds};
ghost use Rattle.tdl_beats.specs.Beats.{steps_to};
ghost use Rattle.tdl_beats.specs.Fronts.{IsFront};
ghost use Rattle.tdl_beats.specs.inside.Playing.{BeatsPlayed, Broke, Played, Sits};

use crate::calls::{Stop, make_call};
use std::alloc::Global;
use std::sync::Wait;
use tdl_core::{Call, Core};
use tdl_fraction::TICK_UNITS;
use tdl_io::{Clock, Wire};
use tdl_session::{Pass, Shared};

// A beat nearer than this to what was played is passed over: 1/32 cycle.
const LEAST_STEP: u64 = 1_440;

// Ticks as the clock gives its beats, up to so many cycles or to the clock's end.
pub(crate) fn play_beats<R: Wait, W: Wire, C: Clock>(
    rt: &R,
    alloc: Global,
    shared: &Shared<Core>,
    pass: &mut Pass<Core>,
    clock: &mut C,
    osc: &mut W,
    midi: &mut W,
    cycles: u32,
) -> Result<(), Stop>
    requires sits { Sits shared.now pass.old }
    requires few { cycles ≤ 65536 }
    ensures pass { SamePass pass.old pass.new }
    ensures played { OnOk result (BeatsPlayed shared.now.1 cycles pass.old.seen pass.new.seen (C.beats clock.old)
        (wires W.sent W.faults osc.old osc.new midi.old midi.new)) }
    ensures broke { IfErr result (λ stop. Broke (λ done. IfSome (C.beats clock.old) (λ told. IsFront done (deeds told cycles)))
        shared.now.1 pass.old.seen pass.new.seen stop (wires W.sent W.faults osc.old osc.new midi.old midi.new)) }
{
    let goal = TICK_UNITS * u64::from(cycles);
    let mut place = 0;
    let mut last = 0;
    while place < goal {
        let Some(beat) = clock.beat() else {
            return play_to(rt, alloc, shared, pass, place, goal.min(last), osc, midi);
        };
        last = beat;
        let target = goal.min(beat);
        if target == goal || target >= place + LEAST_STEP {
            if let Err(stop) = play_to(rt, alloc, shared, pass, place, target, osc, midi) {
                return Err(stop);
            }
            place = target;
        }
    }
    Ok(())
}

// Ticks from a place up to a target, by at most a cycle each.
fn play_to<R: Wait, W: Wire>(
    rt: &R,
    alloc: Global,
    shared: &Shared<Core>,
    pass: &mut Pass<Core>,
    from: u64,
    target: u64,
    osc: &mut W,
    midi: &mut W,
) -> Result<(), Stop>
    requires sits { Sits shared.now pass.old }
    requires few { target ≤ 2 ^ 40 }
    ensures pass { SamePass pass.old pass.new }
    ensures played { OnOk result (Played shared.now.1 pass.old.seen pass.new.seen (map Tick (steps_to from target))
        (wires W.sent W.faults osc.old osc.new midi.old midi.new)) }
    ensures broke { IfErr result (λ stop. Broke (λ done. IsFront done (map Tick (steps_to from target))) shared.now.1 pass.old.seen pass.new.seen stop
        (wires W.sent W.faults osc.old osc.new midi.old midi.new)) }
{
    let mut place = from;
    while place < target {
        let next = target.min(place + TICK_UNITS);
        let tick = Call::Tick { to: next };
        if let Err(stop) = make_call(rt, alloc, shared, pass, tick, osc, midi) {
            return Err(stop);
        }
        place = next;
    }
    Ok(())
}
