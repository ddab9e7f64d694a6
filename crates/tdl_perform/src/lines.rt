// One line of a performer.
ghost use Rattle.std.specs.Prelude.{◌≡◌, ◌≤◌, ℕ, List, IfErr, OnOk};
ghost use Rattle.tdl_session.specs.Passes.{IsPassOf, SamePass};
ghost use Rattle.tdl_core.specs.Replies.{IsPerformer};
ghost use Rattle.tdl_answer.specs.Account.{account};
ghost use Rattle.tdl_perform.specs.inside.OneLine.{LineAnswered, LineBegun, LineServed, ReplyHalted};

use std::alloc::Global;
use std::sync::Wait;
use tdl_answer::{ReplyText, asked_call, refusal_text, reply_text, unmade_text};
use tdl_control::NoMemory;
use tdl_core::Core;
use tdl_io::{Failed, Sink};
use tdl_session::{Pass, Shared};

// Why the loop over a port ends before its source does.
#[derive(Clone, Copy, PartialEq, Eq)]
pub(crate) enum Halt {
    // Out of memory for a reply.
    Memory,
    // The put of a reply failed.
    Put,
}

impl From<NoMemory> for Halt {
    ghost use Rattle.std.specs.Prelude.{◌≡◌};
    ghost use Rattle.tdl_perform.specs.declared.lines.Halt.TheVariants.{Memory};

    ghost from_gives = { λ _ halt. halt ≡ Memory };

    fn from(_error: NoMemory) -> Halt {
        Halt::Memory
    }
}

impl From<Failed> for Halt {
    ghost use Rattle.std.specs.Prelude.{◌≡◌};
    ghost use Rattle.tdl_perform.specs.declared.lines.Halt.TheVariants.{Put};

    ghost from_gives = { λ _ halt. halt ≡ Put };

    fn from(_error: Failed) -> Halt {
        Halt::Put
    }
}

// Answers a line, and puts its reply.
pub(crate) fn serve_line<R: Wait, K: Sink>(
    rt: &R,
    alloc: Global,
    shared: &Shared<Core>,
    pass: &mut Pass<Core>,
    line: &[u8],
    sink: &mut K,
) -> Result<(), Halt>
    requires pass { IsPassOf shared.now pass.old }
    requires number { IsPerformer pass.old.number }
    ensures pass { SamePass pass.old pass.new }
    ensures ok { OnOk result (LineServed shared.now.1 pass.old.number pass.old.seen line.now pass.new.seen (account K.held K.faults sink.old sink.new)) }
    ensures err { IfErr result (λ halt. LineBegun shared.now.1 pass.old.number pass.old.seen line.now pass.new.seen halt
        (account K.held K.faults sink.old sink.new)) }
    ensures put { OnOk result ((reply : List ℕ) × K.took sink.old reply sink.new) }
    ensures halted { IfErr result (λ halt. ReplyHalted K.broke halt sink.old sink.new) }
    ensures kept { K.faults sink.old ≤ K.faults sink.new }
{
    let reply = answer_line(rt, alloc, shared, pass, line)?;
    sink.put(reply.bytes())?;
    Ok(())
}

// Makes the call that a line asks for, and the reply, which is to be put. The reply of a performer's call tells of no
// frontier.
fn answer_line<R: Wait>(
    rt: &R,
    alloc: Global,
    shared: &Shared<Core>,
    pass: &mut Pass<Core>,
    line: &[u8],
) -> Result<ReplyText, NoMemory>
    requires pass { IsPassOf shared.now pass.old }
    requires number { IsPerformer pass.old.number }
    ensures pass { SamePass pass.old pass.new }
    ensures answered { LineAnswered shared.now.1 pass.old.number pass.old.seen line.now pass.new.seen result }
{
    match asked_call(alloc, line) {
        Ok(call) => match shared.call(rt, alloc, pass, call) {
            Ok(reply) => reply_text(alloc, &reply, 0),
            Err(refusal) => refusal_text(alloc, refusal),
        },
        Err(unmade) => unmade_text(alloc, unmade),
    }
}
