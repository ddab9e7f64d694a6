// The lines of a log, each read where it may stand: what stood before it is known.
ghost use Rattle.std.specs.Prelude.{◌≡◌, ◌≤◌, ◌<◌, ◌↔◌, List, length, IfNone, IfOk, IfSome, IsTrue};
ghost use Rattle.tdl_fraction.specs.Units.{last_units};
ghost use Rattle.tdl_score.specs.declared.histories.Entry.{Entry as EntryValue};
ghost use Rattle.tdl_score.specs.History.{MayFollow};
ghost use Rattle.tdl_score.specs.Known.{Tells};
ghost use Rattle.tdl_score.specs.Placed.{IsPlaced};
ghost use Rattle.tdl_log.specs.declared.ends.Ending.{Ending as EndingValue};
ghost use Rattle.tdl_log.specs.declared.ends.PortEnd.{PortEnd as PortEndValue};
ghost use Rattle.tdl_log.specs.LogText.{end_line, end_word, entry_line, port_line};

use crate::deeds::read_deed;
use crate::ends::{Ending, PortEnd};
use crate::fronts::{after, cut_at, entry_front};
use crate::heads::read_number;
use itoa::Buffer;
use std::alloc::Global;
use tdl_control::NoMemory;
use tdl_fraction::print_units;
use tdl_score::{Entry, Known, TextReader};

// The entry of a line that may follow next. Its place and its time are known, so they are printed and compared. What
// a swap said is copied.
pub(crate) fn read_entry<R: TextReader>(
    alloc: Global,
    line: &[u8],
    known: &Known,
) -> Result<Option<Entry>, NoMemory>
    requires { known.now.frontier ≤ last_units }
    ensures some { IfOk result (λ read. IfSome read (λ e. (entries : List EntryValue) → Tells known.now entries
        → MayFollow R.reads entries e × (line.now ≡ entry_line (length entries) e))) }
    ensures placed { IfOk result (λ read. IfSome read IsPlaced) }
    ensures none { IfOk result (λ read. IfNone read ((entries : List EntryValue) (e : EntryValue) → Tells known.now entries
        → MayFollow R.reads entries e → line.now ≡ entry_line (length entries) e → ⊥)) }
{
    let frontier = print_units(known.frontier);
    let Some((who, said)) = entry_front(
        line,
        Buffer::new().format(known.place).as_bytes(),
        frontier.bytes(),
    ) else {
        return Ok(None);
    };
    let Some(deed) = read_deed::<R>(alloc, said, who, known)? else {
        return Ok(None);
    };
    Ok(Some(Entry {
        who,
        frontier: known.frontier,
        deed,
    }))
}

// How a port ended.
pub(crate) fn read_port(line: &[u8]) -> Option<Ending>
    ensures some { IfSome result (λ ending. line.now ≡ port_line ending) }
    ensures byte { IfSome result (λ ending. ending.port < 256) }
    ensures none { IfNone result ((ending : EndingValue) → ending.port < 256 → line.now ≡ port_line ending → ⊥) }
{
    let (number, word) = cut_at(b' ', after(line, b"port ")?)?;
    let number = read_number(number)?;
    if number > 255 {
        return None;
    }
    Some(Ending {
        port: number as u8,
        end: read_end(word)?,
    })
}

// The end of a port that has this word.
fn read_end(word: &[u8]) -> Option<PortEnd>
    ensures some { IfSome result (λ end. word.now ≡ end_word end) }
    ensures none { IfNone result ((end : PortEndValue) → word.now ≡ end_word end → ⊥) }
{
    if word == b"eof".as_slice() {
        return Some(PortEnd::Eof);
    }
    if word == b"finish".as_slice() {
        return Some(PortEnd::Finish);
    }
    if word == b"fault".as_slice() {
        return Some(PortEnd::Fault);
    }
    if word == b"spent".as_slice() {
        return Some(PortEnd::Spent);
    }
    if word == b"memory".as_slice() {
        return Some(PortEnd::Memory);
    }
    if word == b"stopped".as_slice() {
        return Some(PortEnd::Stopped);
    }
    None
}

// Whether a line is the last one of a log with so many entries.
pub(crate) fn is_end(line: &[u8], entries: u32) -> bool
    ensures { IsTrue result ↔ (line.now ≡ end_line entries) }
{
    match after(line, b"end ") {
        Some(number) => number == Buffer::new().format(entries).as_bytes(),
        None => false,
    }
}
