//! How fast notes go into the agenda of ends and out again: so many notes begin in one tick, and their ends fall, rise or
//! are mixed; then the finish takes them all. What it puts is how many messages there were; standard error gets the
//! nanoseconds that all of it took.
#![tactic(auto)]

ghost use Rattle.std.specs.Prelude.{IfOk, IfSome, ◌≤◌, ◌<◌};
ghost use Rattle.std.specs.List.{AllByRecursion};
ghost use Rattle.tdl_midi.specs.Notes.{IsNote};

use std::alloc::{AllocError, Global};
use std::env;
use std::process::ExitCode;
use std::rt::Env;
use std::time::{Clock, Duration, Instant};
use tdl_fraction::Frac;
use tdl_midi::Note;
use tdl_notes::{Sounding, Tone};

const BAD_WORDS: u8 = 1;

const OUT_OF_MEMORY: u8 = 3;

const SEVENTH: u64 = 7;

/// How the ends go while the notes go on.
#[derive(Clone, Copy, PartialEq, Eq)]
enum Course {
    Falling,
    Rising,
    Mixed,
}

/// How many notes, and how their ends go.
#[derive(Drop)]
struct Asked {
    notes: u32,
    course: Course,
}

// None where the words are not a number and a course.
fn read_words<R: Env + AllocGlobal>(rt: &R) -> Option<Asked> {
    let words: Vec<String> = env::args(rt).ok()?.skip(1).collect(rt.alloc()).ok()?;
    let [notes, course] = words.as_slice() else {
        return None;
    };
    let notes = notes.as_str().parse::<u32>().ok()?;
    if notes > 1_000_000 {
        return None;
    }
    let course = match course.as_str() {
        "falling" => Course::Falling,
        "rising" => Course::Rising,
        "mixed" => Course::Mixed,
        _ => return None,
    };
    Some(Asked { notes, course })
}

// The end of a note, in sevenths of a cycle.
fn sevenths(asked: &Asked, note: u32) -> i128 {
    let place = match asked.course {
        Course::Falling => 1_000_000_u64.saturating_sub(u64::from(note)),
        Course::Rising => u64::from(note),
        Course::Mixed => u64::from(note) * 7_919 % 20_011,
    };
    10_000_000_i128 + i128::from(place)
}

// A note that begins at once.
fn tone(asked: &Asked, note: u32) -> Option<Tone>
    ensures { IfSome result (λ tone. IsNote tone.note) }
{
    Some(Tone {
        onset: Frac::whole(0),
        stop: Frac::of(sevenths(asked, note), SEVENTH)?,
        note: Note {
            channel: 0,
            key: 60,
            velocity: 64,
        },
    })
}

// All notes. An end that is no time is left out.
fn tones(alloc: Global, asked: &Asked) -> Result<Vec<Tone>, AllocError>
    ensures { IfOk result (λ v. AllByRecursion (λ tone. IsNote tone.note) v.items) }
{
    let mut tones = Vec::new(alloc);
    for note in 0..asked.notes {
        if let Some(tone) = tone(asked, note) {
            tones.push(tone)?;
        }
    }
    Ok(tones)
}

// How many messages there were, and how long all took.
fn measure<R: Clock>(rt: &R, alloc: Global, asked: &Asked) -> Option<(usize, Duration)> {
    let tones = tones(alloc, asked).ok()?;
    let mut sounding = Sounding::new(alloc);
    let begin = Instant::now(rt).ok()?;
    let begun = sounding.tick(tones.as_slice(), Frac::whole(1)).ok()?;
    let ended = sounding.finish();
    let took = begin.elapsed(rt).ok()?;
    Some((begun.len().saturating_add(ended.len()), took))
}

fn main(rt: HostRuntime) -> ExitCode {
    let Some(asked) = read_words(&rt) else {
        let _ = eprintln!(rt; "usage: tdl_notes_speed NOTES falling|rising|mixed");
        return ExitCode::from(BAD_WORDS);
    };
    let Some((messages, took)) = measure(&rt, rt.alloc(), &asked) else {
        return ExitCode::from(OUT_OF_MEMORY);
    };
    let _ = eprintln!(rt; "{}", took.as_nanos());
    let _ = println!(rt; "{} messages", messages);
    ExitCode::SUCCESS
}
