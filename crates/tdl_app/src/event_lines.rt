ghost use Rattle.std.specs.Prelude.{◌≡◌, ◌<◌, [], IfErr, OnOk};
ghost use Rattle.tdl_fraction.specs.Units.{IsQueryArc};
ghost use Rattle.tdl_event.specs.Event.{line_of, print_of};
ghost use Rattle.tdl_answer.specs.Account.{account};
ghost use Rattle.tdl_app.specs.inside.EventLines.{BreaksOff, Streams, lines_in};

use crate::batches::Batches;
use crate::stops::Stop;
use std::alloc::Global;
use std::marker::Brand;
use std::sync::ledger::{Blank, Ledger};
use tdl_compile::Program;
use tdl_control::Text;
use tdl_event::{Event, Events, LinePrinter};
use tdl_fraction::TimeArc;
use tdl_io::Sink;
use tdl_meaning::StepCount;

// Lines wait until there are so many bytes of them or more, and are put together.
const PIECE: usize = 65_536;

// Puts the lines of the program's events in the arc.
pub(crate) fn put_events<K: Sink>(
    alloc: Global,
    program: &Program,
    arc: TimeArc,
    out: &mut K,
) -> Result<(), Stop>
    requires { IsQueryArc arc }
    ensures ok { OnOk result (Streams (lines_in program.now arc) [] [] (account K.held K.faults out.old out.new)) }
    ensures err { IfErr result (λ stop. BreaksOff (lines_in program.now arc) [] stop (account K.held K.faults out.old out.new)) }
{
    put_batches::<K, Brand>(alloc, Blank::new(1), program, arc, out)
}

// The same, batch by batch, so that no more than a batch's events and a piece stand in memory.
fn put_batches<K: Sink, L: Ledger>(
    alloc: Global,
    blank: Blank,
    program: &Program,
    arc: TimeArc,
    out: &mut K,
) -> Result<(), Stop>
    requires name { blank.name ≡ L.name }
    requires parts { blank.parts ≡ L.parts }
    requires some { 0 < blank.parts }
    requires arc { IsQueryArc arc }
    ensures ok { OnOk result (Streams (lines_in program.now arc) [] [] (account K.held K.faults out.old out.new)) }
    ensures err { IfErr result (λ stop. BreaksOff (lines_in program.now arc) [] stop (account K.held K.faults out.old out.new)) }
{
    let batches = Batches::of(program, arc);
    let mut steps: StepCount<L> = StepCount::new(blank);
    let mut events = Events::new(alloc);
    let mut printer = LinePrinter::new();
    let mut waiting = Text::new(alloc);
    for k in 0..batches.count() {
        batches.next_events(alloc, program, k, &mut events, &mut steps)?;
        add_lines(&events, &mut printer, &mut waiting, out)?;
    }
    put_waiting(&mut waiting, out)
}

// Adds the lines of events to those that wait, and puts each piece that is full.
fn add_lines<K: Sink>(
    events: &Events,
    printer: &mut LinePrinter,
    waiting: &mut Text,
    out: &mut K,
) -> Result<(), Stop>
    ensures ok { OnOk result (Streams (print_of events.now) waiting.old waiting.new (account K.held K.faults out.old out.new)) }
    ensures err { IfErr result (λ stop. BreaksOff (print_of events.now) waiting.old stop (account K.held K.faults out.old out.new)) }
{
    for i in 0..events.len() {
        add_line(events.get(i), printer, waiting, out)?;
    }
    Ok(())
}

// The same of one event.
fn add_line<K: Sink>(
    event: &Event,
    printer: &mut LinePrinter,
    waiting: &mut Text,
    out: &mut K,
) -> Result<(), Stop>
    ensures ok { OnOk result (Streams (line_of event.now) waiting.old waiting.new (account K.held K.faults out.old out.new)) }
    ensures err { IfErr result (λ stop. BreaksOff (line_of event.now) waiting.old stop (account K.held K.faults out.old out.new)) }
{
    printer.print(event, waiting)?;
    if waiting.bytes().len() < PIECE {
        return Ok(());
    }
    put_waiting(waiting, out)
}

// Puts the lines that wait, if there are any.
fn put_waiting<K: Sink>(waiting: &mut Text, out: &mut K) -> Result<(), Stop>
    ensures ok { OnOk result (Streams [] waiting.old waiting.new (account K.held K.faults out.old out.new)) }
    ensures none_left { OnOk result (waiting.new ≡ []) }
    ensures err { IfErr result (λ stop. BreaksOff [] waiting.old stop (account K.held K.faults out.old out.new)) }
{
    if waiting.bytes().is_empty() {
        return Ok(());
    }
    out.put(waiting.bytes())?;
    waiting.clear();
    Ok(())
}
