// The loop over a port.
ghost use Rattle.std.specs.Prelude.{◌≡◌, []};
ghost use Rattle.tdl_lines.specs.Prompt.{TalksPromptly};
ghost use Rattle.tdl_lines.specs.Reading.{HasRead, fresh};
ghost use Rattle.tdl_session.specs.Passes.{IsPassOf, SamePass, mine};
ghost use Rattle.tdl_score.specs.declared.histories.Entry.{Entry};
ghost use Rattle.tdl_core.specs.Replies.{IsPerformer};
ghost use Rattle.tdl_answer.specs.Account.{account};
ghost use Rattle.tdl_perform.specs.Port.{ServesPort};
ghost use Rattle.tdl_perform.specs.inside.Serving.{port_of_halt};

use crate::lines::{Halt, serve_line};
use std::alloc::Global;
use std::sync::Wait;
use tdl_core::Core;
use tdl_io::Talk;
use tdl_lines::{LineReader, Next, ReadFault, given_lines_are_the_first};
use tdl_log::PortEnd;
use tdl_session::{Pass, Shared};

/// Answers the lines of a port, each by one line, up to the end of its source. `Eof` comes where the source was read to
/// its end, `Fault` where the source or the sink failed, `Spent` where the source gave a byte more than 2^24, and
/// `Memory` where memory ran out for keeping a line or for its reply; a call for which there is none is answered by
/// `no memory`.
///
/// The port is a source and a sink in one: every line that ended in the bytes that it gave is answered before it is asked
/// for more, and before the end.
pub fn perform<R: Wait, T: Talk>(
    rt: &R,
    alloc: Global,
    shared: &Shared<Core>,
    pass: &mut Pass<Core>,
    port: &mut T,
) -> PortEnd
    requires pass { IsPassOf shared.now pass.old }
    requires number { IsPerformer pass.old.number }
    requires new { mine (λ (e : Entry). e.who) pass.old ≡ [] }
    ensures pass { SamePass pass.old pass.new }
    ensures port { ServesPort shared.now.1 pass.old.number pass.new.seen (account T.left T.Source.faults port.old port.new)
        (account T.held T.Sink.faults port.old port.new) result }
    ensures prompt { TalksPromptly T.gave T.lost T.took T.broke port.old port.new }
{
    let Ok(mut reader) = LineReader::new(alloc) else {
        return PortEnd::Memory;
    };
    serve_lines(rt, alloc, shared, pass, &mut reader, port)
}

// Answers the lines that the reader gives, one after another.
fn serve_lines<R: Wait, T: Talk>(
    rt: &R,
    alloc: Global,
    shared: &Shared<Core>,
    pass: &mut Pass<Core>,
    reader: &mut LineReader,
    port: &mut T,
) -> PortEnd
    requires pass { IsPassOf shared.now pass.old }
    requires number { IsPerformer pass.old.number }
    requires new { mine (λ (e : Entry). e.who) pass.old ≡ [] }
    requires fresh { reader.old ≡ fresh }
    requires read { HasRead reader.old [] [] }
    ensures pass { SamePass pass.old pass.new }
    ensures port { ServesPort shared.now.1 pass.old.number pass.new.seen (account T.left T.Source.faults port.old port.new)
        (account T.held T.Sink.faults port.old port.new) result }
    ensures prompt { TalksPromptly T.gave T.lost T.took T.broke port.old port.new }
{
    given_lines_are_the_first();
    'lines: loop {
        match reader.next(port) {
            Ok(Next::Line) => {
                if let Err(halt) = serve_line(rt, alloc, shared, pass, reader.line(), port) {
                    return end_of_halt(halt);
                }
            }
            Ok(Next::Ended) => return PortEnd::Eof,
            Ok(Next::Spent) => return PortEnd::Spent,
            Err(ReadFault::NoMemory) => return PortEnd::Memory,
            Err(ReadFault::Failed) => return PortEnd::Fault,
        }
    }
}

fn end_of_halt(halt: Halt) -> PortEnd
    ensures { result ≡ port_of_halt halt }
{
    match halt {
        Halt::Memory => PortEnd::Memory,
        Halt::Put => PortEnd::Fault,
    }
}
