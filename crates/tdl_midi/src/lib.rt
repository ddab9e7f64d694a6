//! The notes of MIDI 1.0 that control maps give, and their messages.
#![tactic(auto)]

ghost use Rattle.std.specs.Prelude.{◌≡◌, ◌≤◌, IfSome};
ghost use Rattle.tdl_control.specs.declared.keys.Key.TheVariants.{S};
ghost use Rattle.tdl_control.specs.Map.{lookup};
ghost use Rattle.tdl_midi.specs.Notes.{IsNote, is_midi, key_of, note_of, number_at, off, on, within};

use tdl_control::{Key, Map, Value};

// What a map that says nothing of it has.
const CHANNEL: i32 = 0;

const VELOCITY: i32 = 64;

// The key that numbers of notes count from: middle C.
const MIDDLE: i64 = 60;

/// A note of a channel: channels are 0 to 15, keys 0 to 127 and velocities 1 to 127.
#[derive(Clone, Copy, PartialEq, Eq)]
pub struct Note {
    pub channel: u8,
    pub key: u8,
    pub velocity: u8,
}

/// The note that a map gives, if its sound is `midi` and channel, key and velocity are in range. The channel
/// is `midichan`, or 0; the key 60 and `note` more, or `n` more where there is no `note`; the velocity is
/// `velocity`, or 64.
pub fn notes_of(map: &Map) -> Option<Note>
    ensures note { result ≡ note_of map.now }
    ensures in_range { IfSome result IsNote }
{
    if !is_midi(map) {
        return None;
    }
    let channel = number_at(map, Key::Midichan).unwrap_or(CHANNEL);
    let velocity = number_at(map, Key::Velocity).unwrap_or(VELOCITY);
    Some(Note {
        channel: within(0, 15, i64::from(channel))?,
        key: within(0, 127, key_of(map))?,
        velocity: within(1, 127, i64::from(velocity))?,
    })
}

/// Whether the sound of a map is that of MIDI notes.
pub fn is_midi(map: &Map) -> bool
    ensures { result ≡ is_midi (lookup map.now S) }
{
    match map.get(Key::S) {
        Some(Value::Word(word)) => word.bytes() == b"midi".as_slice(),
        _ => false,
    }
}

/// The message that begins a note.
pub fn on(note: Note) -> [u8; 3]
    requires channel { note.channel ≤ 15 }
    requires key { note.key ≤ 127 }
    requires velocity { note.velocity ≤ 127 }
    ensures { result ≡ on note }
{
    [0x90 + note.channel, note.key, note.velocity]
}

/// The message that ends a note, of velocity 64 whatever the note's is.
pub fn off(note: Note) -> [u8; 3]
    requires channel { note.channel ≤ 15 }
    requires key { note.key ≤ 127 }
    requires velocity { note.velocity ≤ 127 }
    ensures { result ≡ off note }
{
    [0x80 + note.channel, note.key, 64]
}

// The key that a map gives, in range or not.
fn key_of(map: &Map) -> i64
    ensures { result ≡ key_of map.now }
{
    let above = number_at(map, Key::Note).or(number_at(map, Key::N));
    MIDDLE + i64::from(above.unwrap_or(0))
}

// The number of a key of a map.
fn number_at(map: &Map, key: Key) -> Option<i32>
    ensures { result ≡ number_at map.now key }
{
    match map.get(key) {
        Some(Value::Int(number)) => Some(number),
        _ => None,
    }
}

// The number, where it is in this range.
fn within(low: u8, high: u8, number: i64) -> Option<u8>
    ensures { result ≡ within low high number }
{
    match u8::try_from(number) {
        Ok(number) if low <= number && number <= high => Some(number),
        _ => None,
    }
}
