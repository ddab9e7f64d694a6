// A log that is read line by line.
ghost use Rattle.std.specs.Prelude.{◌≡◌, ◌+◌, ◌<◌, ◌≤◌, ◌^◌, ℕ, List, [], ◌∷◌, ◌++◌, true, false, length, map, IfErr, IfNone, IfOk, IfSome, OnOk};
ghost use Rattle.tdl_control.specs.declared.faults.Faulted.TheVariants.{At};
ghost use Rattle.tdl_score.specs.declared.histories.Entry.{Entry as EntryValue};
ghost use Rattle.tdl_score.specs.Readings.{IsReading};
ghost use Rattle.tdl_log.specs.declared.ends.Ending.{Ending as EndingValue};
ghost use Rattle.tdl_log.specs.declared.walks.Line.{Line as LineValue};
ghost use Rattle.tdl_log.specs.declared.walks.Line.TheVariants as told;
ghost use Rattle.tdl_log.specs.LineKinds.{line_kind};
ghost use Rattle.tdl_log.specs.Log.{AreRising, log_of};
ghost use Rattle.tdl_log.specs.LogGrammar.{IsSheet, RefusesLog};
ghost use Rattle.tdl_log.specs.LogText.{log_lines, log_text, port_line};
ghost use Rattle.tdl_log.specs.inside.Walks.{Holds, IsNext, IsReadTo, MayStand, begun_lines, begun_pieces, empty_log, is_end, least_port, with_line};

use crate::cuts::next_line;
use crate::ends::{Ending, Ends, MOST_ENDS};
use crate::kinds::{Front, LogKind, line_kind};
use crate::read_lines::{is_end, read_entry, read_port};
use crate::sheets::Sheet;
use std::alloc::Global;
use tdl_control::{Faulted, NoMemory};
use tdl_score::{Entry, History, Known, TextReader};
use tdl_tempo::Tempo;

// What a line behind the head tells.
#[derive(Drop)]
pub(crate) enum Line {
    Entry(Entry),
    Port(Ending),
    Last,
}

// The log that was read up to an offset of a text.
#[derive(Drop)]
pub(crate) struct Walk {
    sheet: Sheet,
    known: Known,
    least_port: u32,
    at: u32,
}

impl Walk {
    // The head was read, up to this offset.
    pub(crate) fn new<R: TextReader>(alloc: Global, tempo: Tempo, at: u32) -> Walk
        requires { IsReading R.reads }
        ensures holds { Holds R.reads result }
        ensures log { log_of result.sheet ≡ empty_log tempo }
        ensures at { result.at ≡ at }
    {
        Walk {
            sheet: Sheet {
                tempo,
                history: History::new(alloc),
                ends: Ends::new(),
            },
            known: Known::of_nothing(),
            least_port: 0,
            at,
        }
    }

    // Reads the next line, and tells whether it is the last of the log.
    pub(crate) fn read_line<R: TextReader>(
        &mut self,
        alloc: Global,
        text: &[u8],
    ) -> Result<bool, Faulted<LogKind>>
        requires fits { length text.now ≤ 2 ^ 30 }
        requires holds { Holds R.reads self.old }
        requires read { IsReadTo (begun_lines (log_of self.old.sheet)) text.now self.old.at }
        ensures holds { IfOk result (λ ended. Holds R.reads self.new) }
        ensures goes_on { IfOk result (λ ended. ended ≡ false → IsReadTo (begun_lines (log_of self.new.sheet)) text.now self.new.at) }
        ensures ends { IfOk result (λ ended. ended ≡ true → IsReadTo (log_lines (log_of self.new.sheet)) text.now self.new.at) }
        ensures forward { IfOk result (λ ended. self.old.at < self.new.at) }
        ensures err { IfErr result (λ fault. RefusesLog R.reads text.now fault) }
    {
        let line = next_line::<R>(text, self.at)?;
        let Some(told) = self.next::<R>(alloc, line)? else {
            return Err(self.fault::<R>(line));
        };
        let ended = self.take::<R>(told)?;
        self.at += line.len() as u32 + 1;
        Ok(ended)
    }

    // What a line tells, where it may stand next.
    fn next<R: TextReader>(&self, alloc: Global, line: &[u8]) -> Result<Option<Line>, NoMemory>
        requires { Holds R.reads self.now }
        ensures some { IfOk result (λ read. IfSome read (IsNext R.reads (log_of self.now.sheet) line.now)) }
        ensures none { IfOk result (λ read. IfNone read ((told : LineValue) → IsNext R.reads (log_of self.now.sheet) line.now told → ⊥)) }
    {
        if let Some(entry) = self.next_entry::<R>(alloc, line)? {
            return Ok(Some(Line::Entry(entry)));
        }
        if let Some(ending) = self.next_port(line) {
            return Ok(Some(Line::Port(ending)));
        }
        if is_end(line, self.known.place) {
            return Ok(Some(Line::Last));
        }
        Ok(None)
    }

    // The entry of a line, where it may stand next: in front of all ports.
    fn next_entry<R: TextReader>(
        &self,
        alloc: Global,
        line: &[u8],
    ) -> Result<Option<Entry>, NoMemory>
        requires { Holds R.reads self.now }
        ensures some { IfOk result (λ read. IfSome read (λ entry. IsNext R.reads (log_of self.now.sheet) line.now (told.Entry entry))) }
        ensures none { IfOk result (λ read. IfNone read ((entry : EntryValue) → IsNext R.reads (log_of self.now.sheet) line.now (told.Entry entry) → ⊥)) }
    {
        if !self.sheet.ends.is_empty() {
            return Ok(None);
        }
        read_entry::<R>(alloc, line, &self.known)
    }

    // The port of a line, where it may stand next.
    fn next_port(&self, line: &[u8]) -> Option<Ending>
        requires least { self.now.least_port ≡ least_port self.now.sheet.ends }
        requires rising { AreRising self.now.sheet.ends }
        ensures some { IfSome result (λ ending. AreRising (self.now.sheet.ends ++ ending ∷ []) × (length self.now.sheet.ends < 8)
            × (line.now ≡ port_line ending)) }
        ensures none { IfNone result ((ending : EndingValue) → AreRising (self.now.sheet.ends ++ ending ∷ [])
            → length self.now.sheet.ends < 8 → line.now ≡ port_line ending → ⊥) }
    {
        let ending = read_port(line)?;
        if self.sheet.ends.len() < MOST_ENDS && self.least_port <= u32::from(ending.port) {
            Some(ending)
        } else {
            None
        }
    }

    // Goes on with what a line tells, and tells whether it was the last.
    fn take<R: TextReader>(&mut self, told: Line) -> Result<bool, NoMemory>
        requires holds { Holds R.reads self.old }
        requires stands { MayStand R.reads (log_of self.old.sheet) told }
        ensures holds { IfOk result (λ ended. Holds R.reads self.new) }
        ensures ended { IfOk result (λ ended. ended ≡ is_end told) }
        ensures log { IfOk result (λ ended. log_of self.new.sheet ≡ with_line (log_of self.old.sheet) told) }
        ensures at { self.new.at ≡ self.old.at }
    {
        match told {
            Line::Entry(entry) => {
                self.take_entry::<R>(entry)?;
                Ok(false)
            }
            Line::Port(ending) => {
                self.take_port::<R>(ending);
                Ok(false)
            }
            Line::Last => Ok(true),
        }
    }

    fn take_entry<R: TextReader>(&mut self, entry: Entry) -> Result<(), NoMemory>
        requires holds { Holds R.reads self.old }
        requires stands { MayStand R.reads (log_of self.old.sheet) (told.Entry entry) }
        ensures holds { OnOk result (Holds R.reads self.new) }
        ensures log { OnOk result (log_of self.new.sheet ≡ with_line (log_of self.old.sheet) (told.Entry entry)) }
        ensures at { self.new.at ≡ self.old.at }
    {
        self.sheet.history.reserve()?;
        self.known = self.known.with(&entry);
        self.sheet.history.push(entry);
        Ok(())
    }

    fn take_port<R: TextReader>(&mut self, ending: Ending)
        requires holds { Holds R.reads self.old }
        requires stands { MayStand R.reads (log_of self.old.sheet) (told.Port ending) }
        ensures holds { Holds R.reads self.new }
        ensures log { log_of self.new.sheet ≡ with_line (log_of self.old.sheet) (told.Port ending) }
        ensures at { self.new.at ≡ self.old.at }
    {
        self.least_port = u32::from(ending.port) + 1;
        self.sheet.ends.add(ending.port, ending.end);
    }

    // The fault of a line that may not stand next.
    fn fault<R: TextReader>(&self, line: &[u8]) -> Faulted<LogKind>
        requires short { length line.now ≤ 2 ^ 30 }
        requires holds { Holds R.reads self.now }
        ensures { result ≡ At (line_kind (begun_pieces (log_of self.now.sheet)) line.now) self.now.at }
    {
        let front = Front {
            lines: 3,
            ports: !self.sheet.ends.is_empty(),
            ended: false,
        };
        Faulted::At {
            kind: line_kind(front, line),
            at: self.at,
        }
    }

    // The sheet, where nothing stands behind its log.
    pub(crate) fn end<R: TextReader>(self, text: &[u8]) -> Result<Sheet, Faulted<LogKind>>
        requires holds { Holds R.reads self }
        requires read { IsReadTo (log_lines (log_of self.sheet)) text.now self.at }
        ensures ok { IfOk result (λ sheet. IsSheet R.reads (log_of sheet) × (text.now ≡ log_text (log_of sheet))) }
        ensures err { IfErr result (λ fault. RefusesLog R.reads text.now fault) }
    {
        if (self.at as usize) < text.len() {
            return Err(Faulted::At {
                kind: LogKind::Form,
                at: self.at,
            });
        }
        Ok(self.sheet)
    }
}
