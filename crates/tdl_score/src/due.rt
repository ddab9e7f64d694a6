// What a desk plays from one time up to another: packets and notes.
ghost use Rattle.std.specs.Prelude.{◌≡◌, ◌<◌, ◌≤◌, ◌+◌, ◌*◌, ◌/◌, ◌++◌, [], ◌∷◌, List, map, IfOk, OnOk};
ghost use Rattle.std.specs.List.{AllByRecursion};
ghost use Rattle.tdl_fraction.specs.Units.{last_cycle, last_units, tick_units};
ghost use Rattle.tdl_compile.specs.Compiled.{Compiled};
ghost use Rattle.tdl_desk.specs.declared.changes.Dated.{Dated};
ghost use Rattle.tdl_desk.specs.Kept.{StandsFor};
ghost use Rattle.tdl_midi.specs.Notes.{IsNote};
ghost use Rattle.tdl_notes.specs.Notes.{tones};
ghost use Rattle.tdl_score.specs.Programs.{dated_tree, due as rows_due, rows_between};
ghost use Rattle.tdl_score.specs.Score.{IsRowOf, rows as rows_of};
ghost use Rattle.tdl_score.specs.Wires.{packets_of};
ghost use Rattle.tdl_score.specs.inside.Dues.{AreNotes, Gained};

use crate::onsets::{Onsets, Span, rows_in};
use std::alloc::Global;
use std::marker::Brand;
use std::sync::ledger::{Blank, Ledger};
use tdl_compile::Program;
use tdl_control::NoMemory;
use tdl_desk::Desk;
use tdl_event::Row;
use tdl_fraction::TICK_UNITS;
use tdl_meaning::StepCount;
use tdl_midi::{is_midi, notes_of};
use tdl_notes::Tone;
use tdl_order::sort_by_time;
use tdl_osc::{Packets, packet};
use tdl_tempo::Tempo;

/// What begins in a time: the packets for the wire of OSC, and the notes for that of MIDI.
#[derive(Drop)]
pub struct Due {
    pub osc: Packets,
    pub tones: Vec<Tone>,
}

/// What a desk plays from one time up to another, in tick units: cycle by cycle, in
/// order of onset; equal onsets by orbit, and then as the pattern answers. Only the orbits that are heard
/// are asked, each for no more than the time has of a cycle.
pub fn due_between(
    alloc: Global,
    desk: &Desk<Program>,
    from: u64,
    to: u64,
    tempo: Tempo,
) -> Result<Due, NoMemory>
    requires settled { desk.now.settled ≤ from / tick_units }
    requires forward { from < to }
    requires to_last { to ≤ last_units }
    ensures osc { (kept : List (Dated Compiled)) → StandsFor desk.now kept
        → IfOk result (λ due. due.osc ≡ packets_of tempo (rows_between (map dated_tree kept) from to)) }
    ensures tones { (kept : List (Dated Compiled)) → StandsFor desk.now kept
        → IfOk result (λ due. due.tones.items ≡ tones (rows_between (map dated_tree kept) from to)) }
    ensures notes { IfOk result (λ due. AllByRecursion (λ tone. IsNote tone.note) due.tones.items) }
{
    due_in::<Brand>(alloc, Blank::new(1), desk, Span { from, to }, tempo)
}

// The same, with a ledger for the steps of its queries.
fn due_in<L: Ledger>(
    alloc: Global,
    blank: Blank,
    desk: &Desk<Program>,
    span: Span,
    tempo: Tempo,
) -> Result<Due, NoMemory>
    requires name { blank.name ≡ L.name }
    requires parts { blank.parts ≡ L.parts }
    requires some { 0 < blank.parts }
    requires settled { desk.now.settled ≤ span.from / tick_units }
    ensures osc { (kept : List (Dated Compiled)) → StandsFor desk.now kept
        → IfOk result (λ due. due.osc ≡ packets_of tempo (rows_between (map dated_tree kept) span.from span.to)) }
    ensures tones { (kept : List (Dated Compiled)) → StandsFor desk.now kept
        → IfOk result (λ due. due.tones.items ≡ tones (rows_between (map dated_tree kept) span.from span.to)) }
    ensures notes { IfOk result (λ due. AllByRecursion (λ tone. IsNote tone.note) due.tones.items) }
{
    let mut steps: StepCount<L> = StepCount::new(blank);
    let mut due = Due {
        osc: Packets::new(alloc),
        tones: Vec::new(alloc),
    };
    let first = (span.from / TICK_UNITS) as u32;
    let end = span.to.div_ceil(TICK_UNITS) as u32;
    for cycle in first..end {
        push_cycle(alloc, desk, span, cycle, tempo, &mut due, &mut steps)?;
    }
    Ok(due)
}

// Puts what begins in one cycle at the end.
fn push_cycle<L: Ledger>(
    alloc: Global,
    desk: &Desk<Program>,
    span: Span,
    cycle: u32,
    tempo: Tempo,
    due: &mut Due,
    steps: &mut StepCount<L>,
) -> Result<(), NoMemory>
    requires settled { desk.now.settled ≤ cycle }
    requires begun { cycle * tick_units < span.to }
    requires not_over { span.from < (cycle + 1) * tick_units }
    ensures gained { (kept : List (Dated Compiled)) → StandsFor desk.now kept
        → OnOk result (Gained tempo due.old due.new (rows_due span.from span.to (rows_of (map dated_tree kept) cycle))) }
    ensures notes { OnOk result (AreNotes due.old.tones.items → AreNotes due.new.tones.items) }
{
    let mut rows = rows_in(alloc, desk, span, cycle, steps)?;
    sort_by_time::<Row, Onsets>(&mut rows)?;
    push_rows(alloc, &rows, cycle, tempo, due)
}

// Puts what rows send at the end.
fn push_rows(
    alloc: Global,
    rows: &[Row],
    cycle: u32,
    tempo: Tempo,
    due: &mut Due,
) -> Result<(), NoMemory>
    requires known { AllByRecursion (IsRowOf cycle) rows.now }
    requires to_last { cycle < last_cycle }
    ensures { OnOk result (Gained tempo due.old due.new rows.now) }
{
    for row in rows {
        push_row(alloc, row, cycle, tempo, due)?;
    }
    Ok(())
}

// Puts the packet of a row at the end, or its note, if its map gives one.
fn push_row(
    alloc: Global,
    row: &Row,
    cycle: u32,
    tempo: Tempo,
    due: &mut Due,
) -> Result<(), NoMemory>
    requires known { IsRowOf cycle row.now }
    requires to_last { cycle < last_cycle }
    ensures { OnOk result (Gained tempo due.old due.new (row.now ∷ [])) }
{
    if !is_midi(&row.controls) {
        return due.osc.push(packet(alloc, row, tempo)?);
    }
    if let Some(note) = notes_of(&row.controls) {
        due.tones.push(Tone {
            onset: row.onset,
            stop: row.onset.add(row.length),
            note,
        })?;
    }
    Ok(())
}
