// A call of the beat, and what is sent with its reply.
ghost use Rattle.std.specs.Prelude.{◌∷◌, [], IfErr, IsTrue, OnOk};
ghost use Rattle.tdl_score.specs.History.{plays};
ghost use Rattle.tdl_session.specs.Passes.{SamePass};
ghost use Rattle.tdl_core.specs.Replies.{deed_of};
ghost use Rattle.tdl_core.specs.Said.{IsLegal};
ghost use Rattle.tdl_answer.specs.Account.{wires};
ghost use Rattle.tdl_beats.specs.Fronts.{IsFront};
ghost use Rattle.tdl_beats.specs.inside.Playing.{Broke, Played, Sits};

use std::alloc::Global;
use std::sync::Wait;
use tdl_answer::send_with;
use tdl_core::{Call, Core, Lines, replies_are_sent};
use tdl_io::Wire;
use tdl_score::last_plays_send_last;
use tdl_session::{Pass, Shared};

// Why no further call is made.
#[derive(Clone, Copy)]
pub(crate) enum Stop {
    // A send failed.
    Fault,
    // Out of memory.
    Memory,
}

// Makes the call of a tick or the finish, and sends what goes with its reply.
pub(crate) fn make_call<R: Wait, W: Wire>(
    rt: &R,
    alloc: Global,
    shared: &Shared<Core>,
    pass: &mut Pass<Core>,
    call: Call,
    osc: &mut W,
    midi: &mut W,
) -> Result<(), Stop>
    requires sits { Sits shared.now pass.old }
    requires plays { IsTrue (plays (deed_of [] call)) }
    ensures pass { SamePass pass.old pass.new }
    ensures legal { IsLegal pass.new.seen }
    ensures played { OnOk result (Played shared.now.1 pass.old.seen pass.new.seen (deed_of [] call ∷ [])
        (wires W.sent W.faults osc.old osc.new midi.old midi.new)) }
    ensures broke { IfErr result (λ stop. Broke (λ done. IsFront done (deed_of [] call ∷ [])) shared.now.1 pass.old.seen pass.new.seen stop
        (wires W.sent W.faults osc.old osc.new midi.old midi.new)) }
{
    replies_are_sent();
    last_plays_send_last::<Lines>();
    let Ok(reply) = shared.call(rt, alloc, pass, call) else {
        return Err(Stop::Memory);
    };
    let Ok(()) = send_with(&reply, osc, midi) else {
        return Err(Stop::Fault);
    };
    Ok(())
}
