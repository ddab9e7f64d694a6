// The lines of a log, each put on the page with its line feed.
ghost use Rattle.std.specs.Prelude.{◌≡◌, ◌++◌, OnOk, OnErr};
ghost use Rattle.tdl_io.specs.Faults.{HasCause};
ghost use Rattle.tdl_score.specs.Placed.{IsPlaced, IsPlacedDeed};
ghost use Rattle.tdl_log.specs.LogText.{deed_text, end_line, end_word, entry_line, place_text, port_line, swap_text, tick_front, with_feed};
ghost use Rattle.tdl_log.specs.inside.Pages.{Cut, Written};
ghost use Rattle.tdl_log.specs.inside.Pieces.{entry_front, head_text};

use crate::ends::PortEnd;
use crate::pages::Page;
use crate::times::TimeText;
use itoa::Buffer;
use tdl_io::{Failed, Sink};
use tdl_score::{Deed, Entry};
use tdl_tempo::Tempo;

// The three lines before the entries.
pub(crate) fn put_head<K: Sink>(tempo: Tempo, page: &mut Page, sink: &mut K) -> Result<(), Failed>
    ensures ok { OnOk result (Written (K.held sink.old) (K.held sink.new) page.old page.new (head_text tempo)) }
    ensures err { OnErr result (Cut (K.held sink.old) (K.held sink.new) page.old (head_text tempo)) }
    ensures cause { HasCause (K.faults sink.old) (K.faults sink.new) result }
{
    page.put_all(
        &[
            b"tidal-log 1\ncps ",
            tempo.cps().print().bytes(),
            b"\norigin ",
            Buffer::new().format(tempo.origin()).as_bytes(),
            b"\n",
        ],
        sink,
    )
}

// The line of the entry at a place.
pub(crate) fn put_entry<K: Sink>(
    place: u32,
    entry: &Entry,
    time: &mut TimeText,
    page: &mut Page,
    sink: &mut K,
) -> Result<(), Failed>
    requires { IsPlaced entry.now }
    ensures ok { OnOk result (Written (K.held sink.old) (K.held sink.new) page.old page.new (with_feed (entry_line place entry.now))) }
    ensures err { OnErr result (Cut (K.held sink.old) (K.held sink.new) page.old (with_feed (entry_line place entry.now))) }
    ensures cause { HasCause (K.faults sink.old) (K.faults sink.new) result }
{
    time.show(entry.frontier);
    put_front(place, entry, time.bytes(), page, sink)?;
    put_deed(&entry.deed, time, page, sink)
}

// An entry's line up to what was done.
fn put_front<K: Sink>(
    place: u32,
    entry: &Entry,
    frontier: &[u8],
    page: &mut Page,
    sink: &mut K,
) -> Result<(), Failed>
    requires { frontier.now ≡ place_text entry.now.frontier }
    ensures ok { OnOk result (Written (K.held sink.old) (K.held sink.new) page.old page.new (entry_front place entry.now)) }
    ensures err { OnErr result (Cut (K.held sink.old) (K.held sink.new) page.old (entry_front place entry.now)) }
    ensures cause { HasCause (K.faults sink.old) (K.faults sink.new) result }
{
    page.put_all(
        &[
            Buffer::new().format(place).as_bytes(),
            b" ",
            Buffer::new().format(entry.who).as_bytes(),
            b" ",
            frontier,
            b" ",
        ],
        sink,
    )
}

// What was done, up to the end of the line.
fn put_deed<K: Sink>(
    deed: &Deed,
    time: &mut TimeText,
    page: &mut Page,
    sink: &mut K,
) -> Result<(), Failed>
    requires { IsPlacedDeed deed.now }
    ensures ok { OnOk result (Written (K.held sink.old) (K.held sink.new) page.old page.new (with_feed (deed_text deed.now))) }
    ensures err { OnErr result (Cut (K.held sink.old) (K.held sink.new) page.old (with_feed (deed_text deed.now))) }
    ensures cause { HasCause (K.faults sink.old) (K.faults sink.new) result }
{
    match deed {
        Deed::Swap { boundary, text } => put_swap(*boundary, text.bytes(), page, sink),
        Deed::Look => page.put_all(&[b"look", b"\n"], sink),
        Deed::Tick { to } => {
            time.show(*to);
            put_tick(time.bytes(), page, sink)
        }
        Deed::Finish => page.put_all(&[b"finish", b"\n"], sink),
    }
}

fn put_swap<K: Sink>(
    boundary: u32,
    text: &[u8],
    page: &mut Page,
    sink: &mut K,
) -> Result<(), Failed>
    ensures ok { OnOk result (Written (K.held sink.old) (K.held sink.new) page.old page.new (with_feed (swap_text boundary text.now))) }
    ensures err { OnErr result (Cut (K.held sink.old) (K.held sink.new) page.old (with_feed (swap_text boundary text.now))) }
    ensures cause { HasCause (K.faults sink.old) (K.faults sink.new) result }
{
    let mut buffer = Buffer::new();
    page.put_all(
        &[
            b"swap ",
            buffer.format(boundary).as_bytes(),
            b" ",
            text,
            b"\n",
        ],
        sink,
    )
}

// A tick up to the time of this text.
fn put_tick<K: Sink>(time: &[u8], page: &mut Page, sink: &mut K) -> Result<(), Failed>
    ensures ok { OnOk result (Written (K.held sink.old) (K.held sink.new) page.old page.new (with_feed (tick_front ++ time.now))) }
    ensures err { OnErr result (Cut (K.held sink.old) (K.held sink.new) page.old (with_feed (tick_front ++ time.now))) }
    ensures cause { HasCause (K.faults sink.old) (K.faults sink.new) result }
{
    page.put_all(&[b"tick ", time, b"\n"], sink)
}

// The line of a port.
pub(crate) fn put_port<K: Sink>(
    port: u8,
    end: PortEnd,
    page: &mut Page,
    sink: &mut K,
) -> Result<(), Failed>
    ensures ok { OnOk result (Written (K.held sink.old) (K.held sink.new) page.old page.new (with_feed (port_line (record { port = port; end = end })))) }
    ensures err { OnErr result (Cut (K.held sink.old) (K.held sink.new) page.old (with_feed (port_line (record { port = port; end = end })))) }
    ensures cause { HasCause (K.faults sink.old) (K.faults sink.new) result }
{
    page.put_all(
        &[
            b"port ",
            Buffer::new().format(port).as_bytes(),
            b" ",
            end_word(end),
            b"\n",
        ],
        sink,
    )
}

// The word for how a port ended.
fn end_word(end: PortEnd) -> &'static [u8]
    ensures { result.now ≡ end_word end }
{
    match end {
        PortEnd::Eof => b"eof",
        PortEnd::Finish => b"finish",
        PortEnd::Fault => b"fault",
        PortEnd::Spent => b"spent",
        PortEnd::Memory => b"memory",
        PortEnd::Stopped => b"stopped",
    }
}

// The last line, with the number of entries.
pub(crate) fn put_end<K: Sink>(entries: u32, page: &mut Page, sink: &mut K) -> Result<(), Failed>
    ensures ok { OnOk result (Written (K.held sink.old) (K.held sink.new) page.old page.new (with_feed (end_line entries))) }
    ensures err { OnErr result (Cut (K.held sink.old) (K.held sink.new) page.old (with_feed (end_line entries))) }
    ensures cause { HasCause (K.faults sink.old) (K.faults sink.new) result }
{
    page.put_all(
        &[b"end ", Buffer::new().format(entries).as_bytes(), b"\n"],
        sink,
    )
}
