// The lines of events.
ghost use Rattle.std.specs.Prelude.{◌≡◌, ◌++◌, codes, OnOk, OnErr};
ghost use Rattle.tdl_control.specs.Text.{AddsPrefix};
ghost use Rattle.tdl_event.specs.Event.{controls_line, arcs_text, line_of};
ghost use Rattle.tdl_fraction.specs.Digits.{digits_bytes};
ghost use Rattle.tdl_fraction.specs.Printing.{print_of as time_text};

use crate::events::Event;
use tdl_control::{Leaf, Map, NoMemory, Text};
use tdl_fraction::{Digits, Frac};

// A time, with its text.
#[derive(Clone, Copy)]
struct PrintedTime {
    time: Frac,
    text: Digits,
    ghost is_text: { digits_bytes text ≡ time_text time },
}

/// Prints the lines of events, one after another. Where an event starts at the time at which the one before
/// it stopped, the text of that time is at hand.
#[derive(Drop)]
pub struct LinePrinter {
    last: Option<PrintedTime>,
}

impl LinePrinter {
    /// A printer before its first event.
    pub fn new() -> LinePrinter {
        LinePrinter { last: None }
    }

    /// Adds the event's line, if its value is a map: `whole-start whole-stop part-start part-stop map` with a
    /// line feed. `NoMemory` leaves a front piece of the line.
    pub fn print(&mut self, event: &Event, out: &mut Text) -> Result<(), NoMemory>
        ensures ok { OnOk result (out.new ≡ out.old ++ line_of event.now) }
        ensures err { OnErr result (AddsPrefix (line_of event.now) out.old out.new) }
    {
        match &event.value {
            Leaf::Controls(controls) => {
                let start = self.printed(event.whole.start());
                let stop = PrintedTime::of(event.whole.stop());
                self.last = Some(stop);
                print_line(event, &start.text, &stop.text, controls, out)
            }
            Leaf::Truth(_) | Leaf::Index(_) => Ok(()),
        }
    }

    // The time, with its text.
    fn printed(&self, time: Frac) -> PrintedTime
        ensures { digits_bytes result.text ≡ time_text time }
    {
        match self.last {
            Some(known) if known.time == time => known,
            _ => PrintedTime::of(time),
        }
    }
}

impl PrintedTime {
    fn of(time: Frac) -> PrintedTime
        ensures { digits_bytes result.text ≡ time_text time }
    {
        PrintedTime {
            time,
            text: time.print(),
        }
    }
}

// Adds the line of an event with these controls, whose whole has ends of these texts.
fn print_line(
    event: &Event,
    start: &Digits,
    stop: &Digits,
    controls: &Map,
    out: &mut Text,
) -> Result<(), NoMemory>
    requires start { digits_bytes start.now ≡ time_text event.now.whole.start }
    requires stop { digits_bytes stop.now ≡ time_text event.now.whole.stop }
    ensures ok { OnOk result (out.new ≡ out.old ++ controls_line event.now controls.now) }
    ensures err { OnErr result (AddsPrefix (controls_line event.now controls.now) out.old out.new) }
{
    print_arcs(event, start, stop, out)?;
    out.push(b' ')?;
    controls.print(out)?;
    out.push(b'\n')
}

// Adds the ends of the whole, which have these texts, and of the part.
fn print_arcs(event: &Event, start: &Digits, stop: &Digits, out: &mut Text) -> Result<(), NoMemory>
    requires start { digits_bytes start.now ≡ time_text event.now.whole.start }
    requires stop { digits_bytes stop.now ≡ time_text event.now.whole.stop }
    ensures ok { OnOk result (out.new ≡ out.old ++ arcs_text event.now) }
    ensures err { OnErr result (AddsPrefix (arcs_text event.now) out.old out.new) }
{
    add_ends(start, stop, out)?;
    out.push(b' ')?;
    if event.part == event.whole {
        return add_ends(start, stop, out);
    }
    add_ends(&event.part.start().print(), &event.part.stop().print(), out)
}

// Adds the texts of an arc's two ends.
fn add_ends(start: &Digits, stop: &Digits, out: &mut Text) -> Result<(), NoMemory>
    ensures ok { OnOk result (out.new ≡ out.old ++ (digits_bytes start.now ++ codes " " ++ digits_bytes stop.now)) }
    ensures err { OnErr result (AddsPrefix (digits_bytes start.now ++ codes " " ++ digits_bytes stop.now) out.old out.new) }
{
    out.add(start.bytes())?;
    out.push(b' ')?;
    out.add(stop.bytes())
}
