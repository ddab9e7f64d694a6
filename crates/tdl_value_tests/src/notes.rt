// The messages of notes that begin and end.
ghost use Rattle.std.specs.Prelude.{◌≤◌};
ghost use Rattle.tdl_midi.specs.Notes.{IsNote};

use std::test::Fail;
use tdl_fraction::Frac;
use tdl_midi::Note;
use tdl_notes::{Sounding, Tone};

fn quarters(count: u8) -> Frac {
    Frac::ten_thousandths(i64::from(count) * 2_500)
}

// A note of the first channel, between times in quarters of a cycle.
fn tone(key: u8, onset: u8, stop: u8) -> Tone
    requires { key ≤ 127 }
    ensures { IsNote result.note }
{
    Tone {
        onset: quarters(onset),
        stop: quarters(stop),
        note: Note {
            channel: 0,
            key,
            velocity: 64,
        },
    }
}

// One note ends where the next begins, and that one is left to the finish.
#[test]
fn ends_before_it_begins(rt: HostRuntime) -> Result<(), Fail> {
    let mut sounding = Sounding::new(rt.alloc());
    let first = sounding.tick(&[tone(60, 0, 2)], quarters(2))?;
    assert!(rt; first.as_slice() == [[0x90, 60, 64]].as_slice());
    let second = sounding.tick(&[tone(62, 2, 4)], quarters(4))?;
    assert!(rt; second.as_slice() == [[0x80, 60, 64], [0x90, 62, 64]].as_slice());
    assert!(rt; sounding.finish().as_slice() == [[0x80, 62, 64]].as_slice());
    assert!(rt; sounding.finish().is_empty());
    Ok(())
}

// A chord, whose ends come in the order of their times, and at one time in the order of the notes.
#[test]
fn ends_a_chord(rt: HostRuntime) -> Result<(), Fail> {
    let mut sounding = Sounding::new(rt.alloc());
    let chord = [tone(60, 0, 3), tone(64, 0, 1), tone(67, 0, 3)];
    let begun = sounding.tick(&chord, quarters(1))?;
    assert!(rt; begun.as_slice() == [[0x90, 60, 64], [0x90, 64, 64], [0x90, 67, 64]].as_slice());
    let ended = sounding.tick(&[], quarters(2))?;
    assert!(rt; ended.as_slice() == [[0x80, 64, 64]].as_slice());
    assert!(rt; sounding.finish().as_slice() == [[0x80, 60, 64], [0x80, 67, 64]].as_slice());
    Ok(())
}
