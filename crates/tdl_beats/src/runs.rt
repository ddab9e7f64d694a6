// The ticks of a run beside a clock, and its finish.
ghost use Rattle.std.specs.Prelude.{◌≡◌, ◌≤◌, ℕ, List, [], Option, IfErr, IfSome, OnOk};
ghost use Rattle.tdl_tempo.specs.Tempo.{Pace};
ghost use Rattle.tdl_turn.specs.Numbers.{Among, Reads};
ghost use Rattle.tdl_score.specs.declared.histories.Entry.{Entry};
ghost use Rattle.tdl_session.specs.Passes.{IsPassOf, SamePass, mine};
ghost use Rattle.tdl_core.specs.Said.{IsLegal};
ghost use Rattle.tdl_answer.specs.Account.{WireAccounts, wires};
ghost use Rattle.tdl_beats.specs.declared.runs.BeatEnd.{BeatEnd};
ghost use Rattle.tdl_beats.specs.Beaten.{Beaten, deeds};
ghost use Rattle.tdl_beats.specs.Fronts.{IsFront};
ghost use Rattle.tdl_beats.specs.inside.Playing.{BeatDone, Broke, Sits};

use crate::calls::{Stop, make_call};
use crate::plays::play_beats;
use std::alloc::Global;
use std::sync::Wait;
use tdl_core::{Call, Core, Lines, replies_are_sent};
use tdl_io::{Clock, Wire};
use tdl_score::last_plays_send_last;
use tdl_session::{Pass, Shared};

/// How a run beside a clock ended.
#[derive(Clone, Copy, Debug, PartialEq, Eq)]
pub enum BeatEnd {
    /// With its finish.
    Done,
    /// A send failed.
    Fault,
    /// Out of memory.
    Memory,
}

/// Ticks as the clock gives its beats, up to so many cycles or to the clock's end, and then finishes. The packets and
/// messages of each tick are sent after it, and those of the finish. After a send that failed, or out of memory, no
/// further call is made.
pub fn beat<R: Wait, W: Wire, C: Clock>(
    rt: &R,
    alloc: Global,
    shared: &Shared<Core>,
    pass: &mut Pass<Core>,
    clock: &mut C,
    osc: &mut W,
    midi: &mut W,
    cycles: u32,
) -> BeatEnd
    requires pass { IsPassOf shared.now pass.old }
    requires number { pass.old.number ≡ 0 }
    requires new { mine (λ (e : Entry). e.who) pass.old ≡ [] }
    requires few { cycles ≤ 65536 }
    ensures pass { SamePass pass.old pass.new }
    ensures beaten { Beaten shared.now.1 cycles pass.new.seen (C.beats clock.old) (wires W.sent W.faults osc.old osc.new midi.old midi.new) result }
{
    replies_are_sent();
    match play_all(rt, alloc, shared, pass, clock, osc, midi, cycles) {
        Ok(()) => BeatEnd::Done,
        Err(Stop::Fault) => BeatEnd::Fault,
        Err(Stop::Memory) => BeatEnd::Memory,
    }
}

// Plays by the beats of the clock, and finishes.
fn play_all<R: Wait, W: Wire, C: Clock>(
    rt: &R,
    alloc: Global,
    shared: &Shared<Core>,
    pass: &mut Pass<Core>,
    clock: &mut C,
    osc: &mut W,
    midi: &mut W,
    cycles: u32,
) -> Result<(), Stop>
    requires sits { Sits shared.now pass.old }
    requires few { cycles ≤ 65536 }
    ensures pass { SamePass pass.old pass.new }
    ensures done { OnOk result (BeatDone shared.now.1 cycles pass.old.seen pass.new.seen (C.beats clock.old)
        (wires W.sent W.faults osc.old osc.new midi.old midi.new)) }
    ensures broke { IfErr result (λ stop. Broke (λ done. IfSome (C.beats clock.old) (λ told. IsFront done (deeds told cycles)))
        shared.now.1 pass.old.seen pass.new.seen stop (wires W.sent W.faults osc.old osc.new midi.old midi.new)) }
{
    if let Err(stop) = play_beats(rt, alloc, shared, pass, clock, osc, midi, cycles) {
        return Err(stop);
    }
    make_call(rt, alloc, shared, pass, Call::Finish, osc, midi)
}

/// What a run beside a clock came to stays true of a history that goes on without its number.
pub fn beaten_stays()
    ensures { (tempo : Pace) (cycles : ℕ) (numbers : List ℕ) (history seen : List Entry) (beats : Option (List ℕ)) (wires : WireAccounts) (end : BeatEnd)
        → IsLegal history → Among 0 numbers → Reads (λ (e : Entry). e.who) history seen numbers
        → Beaten tempo cycles seen beats wires end → Beaten tempo cycles history beats wires end }
{
    replies_are_sent();
    last_plays_send_last::<Lines>();
}
