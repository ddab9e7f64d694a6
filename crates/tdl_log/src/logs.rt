// The log of a sheet.
ghost use Rattle.std.specs.Prelude.{OnOk, OnErr};
ghost use Rattle.tdl_io.specs.Faults.{HasCause};
ghost use Rattle.tdl_io.specs.Told.{GainedExactly, GainedPrefix};
ghost use Rattle.tdl_log.specs.Log.{log_of};
ghost use Rattle.tdl_log.specs.LogText.{log_text};
ghost use Rattle.tdl_log.specs.inside.Pages.{Cut, Written};
ghost use Rattle.tdl_log.specs.inside.Pieces.{entries_text, ports_text, tail_text, text_after_head};

use crate::ends::Ends;
use crate::lines::{put_end, put_entry, put_head, put_port};
use crate::pages::Page;
use crate::sheets::Sheet;
use crate::times::TimeText;
use tdl_io::{Failed, Sink};
use tdl_score::History;

/// Puts the log of a sheet. It fails only where the sink's count of faults rose; a front of the log was put then.
/// It takes no memory. It puts up to 16,384 bytes at once, and what a performer said alone where that is longer.
pub fn put_log<K: Sink>(sheet: &Sheet, sink: &mut K) -> Result<(), Failed>
    ensures ok { OnOk result (GainedExactly (K.held sink.old) (K.held sink.new) (log_text (log_of sheet.now))) }
    ensures err { OnErr result (GainedPrefix (K.held sink.old) (K.held sink.new) (log_text (log_of sheet.now))) }
    ensures cause { HasCause (K.faults sink.old) (K.faults sink.new) result }
{
    let mut page = Page::new();
    put_lines(sheet, &mut page, sink)?;
    page.flush(sink)
}

// All lines.
fn put_lines<K: Sink>(sheet: &Sheet, page: &mut Page, sink: &mut K) -> Result<(), Failed>
    ensures ok { OnOk result (Written (K.held sink.old) (K.held sink.new) page.old page.new (log_text (log_of sheet.now))) }
    ensures err { OnErr result (Cut (K.held sink.old) (K.held sink.new) page.old (log_text (log_of sheet.now))) }
    ensures cause { HasCause (K.faults sink.old) (K.faults sink.new) result }
{
    put_head(sheet.tempo, page, sink)?;
    put_after_head(sheet, page, sink)
}

// What stands behind the first three lines.
fn put_after_head<K: Sink>(sheet: &Sheet, page: &mut Page, sink: &mut K) -> Result<(), Failed>
    ensures ok { OnOk result (Written (K.held sink.old) (K.held sink.new) page.old page.new (text_after_head (log_of sheet.now))) }
    ensures err { OnErr result (Cut (K.held sink.old) (K.held sink.new) page.old (text_after_head (log_of sheet.now))) }
    ensures cause { HasCause (K.faults sink.old) (K.faults sink.new) result }
{
    put_entries(&sheet.history, page, sink)?;
    put_tail(sheet, page, sink)
}

// The lines of all entries.
fn put_entries<K: Sink>(history: &History, page: &mut Page, sink: &mut K) -> Result<(), Failed>
    ensures ok { OnOk result (Written (K.held sink.old) (K.held sink.new) page.old page.new (entries_text history.now.entries)) }
    ensures err { OnErr result (Cut (K.held sink.old) (K.held sink.new) page.old (entries_text history.now.entries)) }
    ensures cause { HasCause (K.faults sink.old) (K.faults sink.new) result }
{
    let mut time = TimeText::new();
    for i in 0..history.len() {
        put_entry(i, history.get(i), &mut time, page, sink)?;
    }
    Ok(())
}

// The lines behind the entries.
fn put_tail<K: Sink>(sheet: &Sheet, page: &mut Page, sink: &mut K) -> Result<(), Failed>
    ensures ok { OnOk result (Written (K.held sink.old) (K.held sink.new) page.old page.new (tail_text (log_of sheet.now))) }
    ensures err { OnErr result (Cut (K.held sink.old) (K.held sink.new) page.old (tail_text (log_of sheet.now))) }
    ensures cause { HasCause (K.faults sink.old) (K.faults sink.new) result }
{
    put_ports(&sheet.ends, page, sink)?;
    put_end(sheet.history.len(), page, sink)
}

// The lines of all ports.
fn put_ports<K: Sink>(ends: &Ends, page: &mut Page, sink: &mut K) -> Result<(), Failed>
    ensures ok { OnOk result (Written (K.held sink.old) (K.held sink.new) page.old page.new (ports_text ends.now)) }
    ensures err { OnErr result (Cut (K.held sink.old) (K.held sink.new) page.old (ports_text ends.now)) }
    ensures cause { HasCause (K.faults sink.old) (K.faults sink.new) result }
{
    for i in 0..ends.len() {
        let (port, end) = ends.get(i);
        put_port(port, end, page, sink)?;
    }
    Ok(())
}
