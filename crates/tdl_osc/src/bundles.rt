ghost use Rattle.std.specs.Prelude.{◌≡◌, ◌+◌, ◌^◌, ◌<◌, ◌≤◌, pos, ◌++◌, length, codes, IfOk, OnOk};
ghost use Rattle.std.specs.List.{flat_map};
ghost use Rattle.tdl_control.specs.Key.{key_count};
ghost use Rattle.tdl_control.specs.Limits.{max_word};
ghost use Rattle.tdl_control.specs.Value.{setting_of};
ghost use Rattle.tdl_fraction.specs.Rational.{whole, ◌≤ℚ◌, ◌<ℚ◌};
ghost use Rattle.tdl_tempo.specs.Tempo.{Pace};
ghost use Rattle.tdl_osc.specs.Encoding.{int32_bytes, osc_string};
ghost use Rattle.tdl_osc.specs.Message.{argument_bytes, tag_of};
ghost use Rattle.tdl_osc.specs.Bundle.{setting_argument, control_arguments, time_arguments, message_of, bytes_of};
ghost use Rattle.tdl_osc.specs.BundleLaws.{BundleLaws};

use crate::encoding::{put_int, put_string, put_string_end, put_time, string_size};
use crate::packets::Packet;
use std::alloc::Global;
use tdl_control::{Map, NoMemory, Value};
use tdl_event::Row;
use tdl_tempo::Tempo;

// How many bytes stand before the message.
const HEAD_SIZE: usize = 20;

// How many bytes the address, the cycle, the length and the orbit take with their names.
const FIXED_SIZE: usize = 48;

// How many tags a message has before those of the controls, with the comma.
const FIXED_TAGS: usize = 7;

/// The OSC 1.0 bundle of a row: timed at its onset, with one message to `/dirt/play`, whose
/// arguments are the names and the values of `cycle`, the onset rounded down, of `delta`, the
/// length in microseconds, of `orbit`, counted from 0, and of each control.
pub fn packet(alloc: Global, row: &Row, tempo: Tempo) -> Result<Packet, NoMemory>
    requires from_zero { whole (pos 0) ≤ℚ row.now.onset }
    requires below_end { row.now.onset <ℚ whole (pos (2 ^ 20)) }
    requires has_length { whole (pos 0) <ℚ row.now.length }
    requires has_orbit { 1 ≤ row.now.orbit }
    ensures { IfOk result (λ packet. packet ≡ bytes_of row.now tempo) }
{
    let size = message_size(row);
    let mut bytes = Vec::with_capacity(alloc, HEAD_SIZE + size)?;
    bytes.extend_from_slice(b"#bundle\0")?;
    put_time(&mut bytes, tempo.timetag(row.onset))?;
    put_int(&mut bytes, size as i32)?;
    bytes.extend_from_slice(b"/dirt/play\0\0")?;
    put_tags(&mut bytes, &row.controls)?;
    put_times(&mut bytes, row, tempo)?;
    put_controls(&mut bytes, &row.controls)?;
    Ok(Packet { bytes })
}

/// What the bytes of a row say by OSC 1.0: they are a bundle with the time tag of its onset and one
/// message, by which it is played; and bytes are one bundle at most.
pub fn rows_are_bundles()
    ensures { BundleLaws }
{}

// How many bytes the row's message takes.
fn message_size(row: &Row) -> usize
    ensures value { (tempo : Pace) → result ≡ length (message_of row.now tempo) }
    ensures bound { result < 2 ^ 31 }
{
    let controls = controls_size(&row.controls);
    FIXED_SIZE + string_size(FIXED_TAGS + 2 * row.controls.len()) + controls
}

// How many bytes the names and the values of the controls take.
fn controls_size(controls: &Map) -> usize
    ensures value { result ≡ length (flat_map argument_bytes (control_arguments controls.now)) }
    ensures bound { result < 2 ^ 16 }
    ensures few { length controls.now ≤ key_count }
{
    let mut size = 0;
    for i in 0..controls.len() {
        let (key, value) = controls.entry(i);
        size += string_size(key.name().len()) + value_size(value);
    }
    size
}

fn value_size(value: Value) -> usize
    ensures value { result ≡ length (argument_bytes (setting_argument (setting_of value))) }
    ensures bound { result ≤ max_word + 4 }
{
    match value {
        Value::Int(_) => 4,
        Value::Word(word) => string_size(word.bytes().len()),
    }
}

// Adds the tags of the arguments of a row with these controls.
fn put_tags(out: &mut Vec<u8>, controls: &Map) -> Result<(), NoMemory>
    ensures { OnOk result
        (out.new.items ≡ out.old.items
        ++ osc_string (codes ",sisisi" ++ flat_map tag_of (control_arguments controls.now))) }
{
    out.extend_from_slice(b",sisisi")?;
    for i in 0..controls.len() {
        let (_, value) = controls.entry(i);
        out.extend_from_slice(entry_tags(value))?;
    }
    put_string_end(out, FIXED_TAGS + 2 * controls.len())
}

// The tags of a key's name and of its value.
fn entry_tags(value: Value) -> &'static [u8]
    ensures { result.now ≡ codes "s" ++ tag_of (setting_argument (setting_of value)) }
{
    match value {
        Value::Int(_) => b"si",
        Value::Word(_) => b"ss",
    }
}

// Adds the cycle, the length and the orbit of the row, each after its name.
fn put_times(out: &mut Vec<u8>, row: &Row, tempo: Tempo) -> Result<(), NoMemory>
    requires from_zero { whole (pos 0) ≤ℚ row.now.onset }
    requires below_end { row.now.onset <ℚ whole (pos (2 ^ 20)) }
    requires has_length { whole (pos 0) <ℚ row.now.length }
    requires has_orbit { 1 ≤ row.now.orbit }
    ensures { OnOk result
        (out.new.items ≡ out.old.items ++ flat_map argument_bytes (time_arguments row.now tempo)) }
{
    let cycle = row.onset.floor() as i32;
    put_named(out, b"cycle\0\0\0", cycle)?;
    put_named(out, b"delta\0\0\0", tempo.micros(row.length))?;
    put_named(out, b"orbit\0\0\0", row.orbit as i32 - 1)
}

// Adds a number after its name, which is filled up with zeros.
fn put_named(out: &mut Vec<u8>, name: &[u8], number: i32) -> Result<(), NoMemory>
    ensures { OnOk result (out.new.items ≡ out.old.items ++ name.now ++ int32_bytes number) }
{
    out.extend_from_slice(name)?;
    put_int(out, number)
}

// Adds the values of the controls, each after the name of its key.
fn put_controls(out: &mut Vec<u8>, controls: &Map) -> Result<(), NoMemory>
    ensures { OnOk result
        (out.new.items ≡ out.old.items ++ flat_map argument_bytes (control_arguments controls.now)) }
{
    for i in 0..controls.len() {
        let (key, value) = controls.entry(i);
        put_string(out, key.name())?;
        put_value(out, value)?;
    }
    Ok(())
}

fn put_value(out: &mut Vec<u8>, value: Value) -> Result<(), NoMemory>
    ensures { OnOk result
        (out.new.items ≡ out.old.items ++ argument_bytes (setting_argument (setting_of value))) }
{
    match value {
        Value::Int(number) => put_int(out, number),
        Value::Word(word) => put_string(out, word.bytes()),
    }
}
