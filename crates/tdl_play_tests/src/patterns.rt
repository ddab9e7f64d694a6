// Programs, arcs and lines of events, by their texts.
ghost use Rattle.std.specs.Prelude.{IfSome};
ghost use Rattle.tdl_fraction.specs.Units.{IsQueryArc};

use std::alloc::Global;
use tdl_compile::Program;
use tdl_control::Text;
use tdl_event::Events;
use tdl_fraction::{Frac, TimeArc};
use tdl_prepare::prepare_pattern;
use tdl_script::read_pattern;

// The program of a pattern as performers write it.
pub fn program_of(alloc: Global, pattern: &[u8]) -> Option<Program> {
    let pattern = read_pattern(alloc, pattern).ok()?;
    prepare_pattern(alloc, &pattern).ok()
}

// The arc of a query from one time to another.
pub fn arc_of(from: &[u8], to: &[u8]) -> Option<TimeArc>
    ensures { IfSome result IsQueryArc }
{
    let arc = TimeArc::of(Frac::read(from)?, Frac::read(to)?)?;
    if arc.is_query_arc() { Some(arc) } else { None }
}

// A line for each event.
pub fn lines_of(alloc: Global, events: &Events) -> Option<Text> {
    let mut lines = Text::new(alloc);
    events.print(&mut lines).ok()?;
    Some(lines)
}
