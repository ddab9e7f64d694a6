// The notes that sound.
ghost use Rattle.std.specs.Prelude.{◌≡◌, ◌+◌, ◌≤◌, ◌<◌, ◌^◌, [], ◌++◌, length, List, map, IfOk, OnOk, OnErr};
ghost use Rattle.std.specs.List.{AllByRecursion};
ghost use Rattle.std.specs.Vec.{vec_capacity, vec_len};
ghost use Rattle.tdl_fraction.specs.Rational.{Rational};
ghost use Rattle.tdl_midi.specs.Notes.{IsNote};
ghost use Rattle.tdl_notes.specs.declared.tones.Tone.{Tone};
ghost use Rattle.tdl_notes.specs.Notes.{message, midi, offs_left};
ghost use Rattle.tdl_notes.specs.Waiting.{IsScoreTo, IsSpan, Waits};

use crate::ends::{Due, enter, first_number, play, play_due};
use crate::tones::Tone;
use std::alloc::Global;
use std::marker::Model;
use std::mem;
use tdl_agenda::Agenda;
use tdl_control::{List, NoMemory};
use tdl_fraction::Frac;

/// Messages of MIDI 1.0, in the order in which they are sent.
pub type Messages = List<[u8; 3]>;

/// The ends of the notes that sound, which wait for their times.
#[derive(Drop)]
pub struct Sounding {
    agenda: Agenda,
    // the order number of the next end
    next: u64,
    // no messages, with room for the last ones: one for each end that waits
    finale: Vec<[u8; 3]>,
    alloc: Global,
}

impl Model for Sounding {
    ghost use Rattle.std.specs.Vec.{vec_capacity, vec_len};
    ghost use Rattle.tdl_notes.specs.Waiting.{Queue};

    ghost Value = { Queue };

    ghost use Rattle.tdl_notes.specs.Ready.{IsReady};

    ghost view = { λ s. record { items = s.agenda.items; next = s.next } };

    ghost invariant = { λ s. IsReady s.agenda.items s.next s.finale.items (vec_len s.finale) (vec_capacity s.finale) };
}

impl Sounding {
    /// No note sounds, and there is no room yet: that comes from the allocator.
    pub fn new(alloc: Global) -> Sounding
        ensures { (frontier : Rational) → Waits frontier [] result }
    {
        let agenda = Agenda::new(alloc);
        let finale = Vec::new(alloc);
        Sounding {
            agenda,
            next: 0,
            finale,
            alloc,
        }
    }

    /// Goes on up to a time, past the tones that begin on the way: the messages of the notes that begin
    /// and end. `NoMemory` leaves all as it was.
    pub fn tick(&mut self, tones: &[Tone], to: Frac) -> Result<Messages, NoMemory>
        requires { AllByRecursion (λ tone. IsNote tone.note) tones.now }
        ensures gained { (frontier : Rational) (score : List Tone) → IsScoreTo frontier score → IsSpan frontier to tones.now → Waits frontier score self.old
            → IfOk result (λ messages. midi to (score ++ tones.now) ≡ midi frontier score ++ messages) }
        ensures waits { (frontier : Rational) (score : List Tone) → IsSpan frontier to tones.now → Waits frontier score self.old
            → OnOk result (Waits to (score ++ tones.now) self.new) }
        ensures err { OnErr result (self.new ≡ self.old) }
    {
        let mut messages = make_room(self.alloc, &mut self.agenda, tones.len(), &mut self.finale)?;
        let first = first_number(&mut self.agenda, self.next, tones.len());
        enter(&mut self.agenda, tones, first);
        self.next = first + tones.len() as u64;
        play(&mut self.agenda, tones, to, &mut messages);
        Ok(Messages::of(messages))
    }

    /// Ends all notes that sound, in order of their ends. It takes no memory.
    pub fn finish(&mut self) -> Messages
        ensures left { (frontier : Rational) (score : List Tone) → Waits frontier score self.old
            → result ≡ map message (offs_left frontier score) }
        ensures none_waits { self.new.items ≡ [] }
        ensures next { self.new.next ≡ self.old.next }
    {
        let mut messages = mem::replace(&mut self.finale, Vec::new(self.alloc));
        play_due(&mut self.agenda, &Due::All, &mut messages);
        Messages::of(messages)
    }
}

// Makes room for some ends more, and for the last message of each; the list is for what is played
// meanwhile, with room for a message of each end and each begin.
fn make_room(
    alloc: Global,
    agenda: &mut Agenda,
    more: usize,
    finale: &mut Vec<[u8; 3]>,
) -> Result<Vec<[u8; 3]>, NoMemory>
    ensures list { IfOk result (λ messages. messages.items ≡ []) }
    ensures room { IfOk result (λ messages. vec_len messages + (length agenda.old.items + more) + more ≤ vec_capacity messages) }
    ensures fits { OnOk result (length agenda.old.items + more < 2 ^ 64) }
    ensures spare { OnOk result (more ≤ agenda.new.spare) }
    ensures finale { OnOk result (vec_len finale.old + (length agenda.old.items + more) ≤ vec_capacity finale.new) }
    ensures capacity { vec_capacity finale.old ≤ vec_capacity finale.new }
    ensures items { agenda.new.items ≡ agenda.old.items }
    ensures finale_items { finale.new.items ≡ finale.old.items }
    ensures finale_len { vec_len finale.new ≡ vec_len finale.old }
{
    let Some(ends) = agenda.len().checked_add(more) else {
        return Err(NoMemory);
    };
    let Some(all) = ends.checked_add(more) else {
        return Err(NoMemory);
    };
    let mut messages = Vec::new(alloc);
    messages.reserve(all)?;
    finale.reserve(ends)?;
    agenda.reserve(more)?;
    Ok(messages)
}
