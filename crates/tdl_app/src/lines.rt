ghost use Rattle.std.specs.Prelude.{◌≡◌, ◌≤◌, false, List, IfErr, IfOk, OnOk};
ghost use Rattle.tdl_score.specs.History.{entries_of, frontier, is_finished};
ghost use Rattle.tdl_desk.specs.declared.changes.Dated.{Dated};
ghost use Rattle.tdl_expr.specs.Tree.{Tree};
ghost use Rattle.tdl_core.specs.Replies.{IsPerformer, MayCall};
ghost use Rattle.tdl_core.specs.Said.{HasChanges};
ghost use Rattle.tdl_core.specs.ReplyLines.{HasFrontier, refusal_line, reply_line};
ghost use Rattle.tdl_answer.specs.Account.{KeepsWires};
ghost use Rattle.tdl_answer.specs.Sent.{SentWith};
ghost use Rattle.tdl_app.specs.Script.{performers, tick};
ghost use Rattle.tdl_app.specs.inside.OneLine.{AnswersAs, AnswersOf, AnswersOr, BrokeReply, RepliedSoFar};
ghost use Rattle.tdl_app.specs.inside.Wiring.{SameWires, wires_of};

use crate::responses::Response;
use crate::script::{LineClass, classify, read_time};
use crate::stops::Stop;
use crate::wires::Wires;
use std::alloc::Global;
use tdl_answer::{asked_call, send_with};
use tdl_core::{Call, Core, Lines, Refusal, Reply};
use tdl_fraction::units_of;
use tdl_io::Wire;
use tdl_score::histories_have_one_list_of_changes;

// The caller of ticks and of the finish.
const TICKS: u32 = 0;

const TOO_LONG: &[u8] = b"refused LineTooLong 2048\n";

const UNEXPECTED: &[u8] = b"refused Unexpected 0\n";

const BAD_FRACTION: &[u8] = b"refused BadFraction 5\n";

const OFF_GRID: &[u8] = b"refused OffGrid 5\n";

// Answers a line of a script: its packets and messages are sent. Its reply is to be put.
pub(crate) fn answer_line<W: Wire>(
    alloc: Global,
    core: &mut Core,
    line: &[u8],
    wires: &mut Wires<'_, '_, W>,
) -> Result<Response, Stop>
    requires going { is_finished core.old.history ≡ false }
    ensures replied { RepliedSoFar (AnswersAs core.old line.now) core.old core.new result (wires_of W.sent W.faults wires.old wires.new) }
    ensures same { SameWires wires.old wires.new }
{
    match classify(line) {
        LineClass::Performer { who, text } => answer_performer(alloc, core, who, text, wires),
        LineClass::Tick { text } => answer_tick(core, text, wires),
        LineClass::Finish => answer_call(core, TICKS, Call::Finish, wires),
        LineClass::Other => Ok(Response::fixed(UNEXPECTED)),
        LineClass::TooLong => Ok(Response::fixed(TOO_LONG)),
    }
}

// Answers what a performer says.
fn answer_performer<W: Wire>(
    alloc: Global,
    core: &mut Core,
    who: u32,
    text: &[u8],
    wires: &mut Wires<'_, '_, W>,
) -> Result<Response, Stop>
    requires { IsPerformer who }
    ensures replied { RepliedSoFar (AnswersOf core.old (performers who text.now)) core.old core.new result
        (wires_of W.sent W.faults wires.old wires.new) }
    ensures same { SameWires wires.old wires.new }
{
    match asked_call(alloc, text) {
        Ok(call) => answer_call(core, who, call, wires),
        Err(unmade) => Ok(Response::unmade(unmade)),
    }
}

// Answers a tick up to the time that a text writes.
fn answer_tick<W: Wire>(
    core: &mut Core,
    text: &[u8],
    wires: &mut Wires<'_, '_, W>,
) -> Result<Response, Stop>
    requires going { is_finished core.old.history ≡ false }
    ensures replied { RepliedSoFar (AnswersOf core.old (tick text.now)) core.old core.new result (wires_of W.sent W.faults wires.old wires.new) }
    ensures same { SameWires wires.old wires.new }
{
    let Some(time) = read_time(text) else {
        return Ok(Response::fixed(BAD_FRACTION));
    };
    match units_of(time) {
        Some(to) => answer_call(core, TICKS, Call::Tick { to }, wires),
        None => Ok(Response::fixed(OFF_GRID)),
    }
}

// Answers a caller's call. A tick for which there is no memory ends the run.
fn answer_call<W: Wire>(
    core: &mut Core,
    who: u32,
    call: Call,
    wires: &mut Wires<'_, '_, W>,
) -> Result<Response, Stop>
    requires { MayCall (entries_of who core.old.history) who call }
    ensures replied { RepliedSoFar (AnswersOr core.old who call) core.old core.new result (wires_of W.sent W.faults wires.old wires.new) }
    ensures same { SameWires wires.old wires.new }
{
    accepted_calls_make_changes(core);
    match core.apply(who, call) {
        Ok(reply) => send_reply(core, reply, wires),
        Err(refusal) => refuse(who, refusal),
    }
}

// What a core accepted makes changes.
pub(crate) fn accepted_calls_make_changes(core: &Core)
    ensures { (changes : List (Dated Tree)) × HasChanges core.now.history changes }
{
    histories_have_one_list_of_changes::<Lines>();
    core.history();
}

// Sends what goes with a reply, whose line is to be put.
fn send_reply<W: Wire>(
    core: &Core,
    reply: Reply,
    wires: &mut Wires<'_, '_, W>,
) -> Result<Response, Stop>
    ensures line { IfOk result (λ line. line ≡ reply_line (frontier core.now.history) reply) }
    ensures sent { OnOk result (SentWith reply (wires_of W.sent W.faults wires.old wires.new)) }
    ensures err { IfErr result (λ stop. BrokeReply reply stop (wires_of W.sent W.faults wires.old wires.new)) }
    ensures counts { KeepsWires (wires_of W.sent W.faults wires.old wires.new) }
    ensures same { SameWires wires.old wires.new }
{
    send_with(&reply, wires.osc, wires.midi)?;
    Ok(Response::accepted(reply, core.frontier()))
}

// The line of a refusal. A tick for which there is no memory has none, and ends the run.
fn refuse(who: u32, refusal: Refusal) -> Result<Response, Stop>
    requires { HasFrontier refusal }
    ensures ok { IfOk result (λ line. line ≡ refusal_line refusal) }
    ensures performers { OnOk result (refusal ≡ Refusal.NoMemory → 1 ≤ who) }
    ensures err { IfErr result (λ stop. stop ≡ Stop.Memory) }
{
    if refusal == Refusal::NoMemory && who == TICKS {
        return Err(Stop::Memory);
    }
    Ok(Response::refused(refusal))
}
