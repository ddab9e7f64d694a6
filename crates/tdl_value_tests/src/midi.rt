// The notes of control maps, and their messages.
use std::alloc::Global;
use std::test::Fail;
use tdl_control::Map;
use tdl_midi::{Note, is_midi, notes_of, off, on};

// Maps, whether their sound is that of notes, and the notes that they give: channel, key and velocity.
static NOTES: [(&str, bool, Option<(u8, u8, u8)>); 21] = [
    ("s=midi", true, Some((0, 60, 64))),
    (
        "midichan=3 note=7 s=midi velocity=100",
        true,
        Some((3, 67, 100)),
    ),
    ("n=3 s=midi", true, Some((0, 63, 64))),
    ("n=3 note=0 s=midi", true, Some((0, 60, 64))),
    ("note=-60 s=midi", true, Some((0, 0, 64))),
    ("note=-61 s=midi", true, None),
    ("note=67 s=midi", true, Some((0, 127, 64))),
    ("note=68 s=midi", true, None),
    ("note=2147483647 s=midi", true, None),
    ("midichan=15 s=midi", true, Some((15, 60, 64))),
    ("midichan=16 s=midi", true, None),
    ("midichan=-1 s=midi", true, None),
    ("s=midi velocity=0", true, None),
    ("s=midi velocity=1", true, Some((0, 60, 1))),
    ("s=midi velocity=127", true, Some((0, 60, 127))),
    ("s=midi velocity=128", true, None),
    ("note=7 s=midi2", false, None),
    ("note=7", false, None),
    ("-", false, None),
    ("s=MIDI", false, None),
    ("note=1", false, None),
];

fn note_of(parts: Option<(u8, u8, u8)>) -> Option<Note> {
    let (channel, key, velocity) = parts?;
    Some(Note {
        channel,
        key,
        velocity,
    })
}

#[test]
fn gives_notes(rt: HostRuntime) -> Result<(), Fail> {
    for (text, midi, parts) in &NOTES {
        let map = Map::read(rt.alloc(), text.as_bytes())?;
        assert!(rt; is_midi(&map) == *midi && notes_of(&map) == note_of(*parts));
    }
    Ok(())
}

// Maps, and the messages that begin and end their notes: the status bytes of MIDI 1.0 are 0x90 and 0x80 on the
// first channel.
static MESSAGES: [(&str, [u8; 3], [u8; 3]); 2] = [
    (
        "note=7 s=midi velocity=127",
        [0x90, 67, 127],
        [0x80, 67, 64],
    ),
    (
        "midichan=15 note=-60 s=midi velocity=1",
        [0x9F, 0, 1],
        [0x8F, 0, 64],
    ),
];

fn messages_of(alloc: Global, text: &str) -> Option<([u8; 3], [u8; 3])> {
    let map = Map::read(alloc, text.as_bytes()).ok()?;
    let note = notes_of(&map)?;
    Some((on(note), off(note)))
}

#[test]
fn says_notes(rt: HostRuntime) {
    for (text, begin, end) in &MESSAGES {
        assert!(rt; messages_of(rt.alloc(), text) == Some((*begin, *end)));
    }
}
