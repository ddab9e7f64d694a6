// How ends wait and are played.
ghost use Rattle.std.specs.Prelude.{◌≡◌, ◌+◌, ◌≤◌, ◌<◌, true, [], ◌∷◌, ◌++◌, ◌^◌, length, map, IfSome, IfNone};
ghost use Rattle.std.specs.List.{AllByRecursion};
ghost use Rattle.std.specs.Vec.{vec_capacity, vec_len};
ghost use Rattle.tdl_fraction.specs.Rational.{◌≤ℚ◌};
ghost use Rattle.tdl_midi.specs.Notes.{IsNote};
ghost use Rattle.tdl_notes.specs.Notes.{message};
ghost use Rattle.tdl_notes.specs.Waiting.{end_mark};
ghost use Rattle.tdl_notes.specs.inside.Machine.{entered, front, is_due, is_until, left, played, rest};

use crate::tones::Tone;
use tdl_agenda::{Agenda, Item};
use tdl_fraction::Frac;
use tdl_midi::{off, on};

/// Which of the ends that wait are due.
#[derive(Drop)]
pub(crate) enum Due {
    All,
    Before(Frac),
    Until(Frac),
}

/// A number above those of all ends that wait, from which on so many more can be numbered: the next one, or where
/// numbers would run out how many ends wait, and these are numbered anew.
pub(crate) fn first_number(agenda: &mut Agenda, next: u64, more: usize) -> u64
    requires below { AllByRecursion (λ item. item.order < next) agenda.old.items }
    requires fits { length agenda.old.items + more < 2 ^ 64 }
    ensures numbers { result + more < 2 ^ 64 }
    ensures below { AllByRecursion (λ item. item.order < result) agenda.new.items }
    ensures marks { map end_mark agenda.new.items ≡ map end_mark agenda.old.items }
    ensures spare { agenda.new.spare ≡ agenda.old.spare }
{
    if next.checked_add(more as u64).is_some() {
        return next;
    }
    agenda.renumber();
    agenda.len() as u64
}

/// Puts the ends of tones among those that wait, numbered from this number on.
pub(crate) fn enter(agenda: &mut Agenda, tones: &[Tone], number: u64)
    requires room { length tones.now ≤ agenda.old.spare }
    requires numbers { number + length tones.now < 2 ^ 64 }
    requires below { AllByRecursion (λ item. item.order < number) agenda.old.items }
    ensures { agenda.new.items ≡ entered number tones.now agenda.old.items }
{
    let mut order = number;
    for tone in tones {
        agenda.insert(Item {
            time: tone.stop,
            order,
            note: tone.note,
        });
        order += 1;
    }
}

/// Before each tone that begins, plays the ends up to its onset, and at last those before a time. The
/// messages go to the end of the list, which has room for them.
pub(crate) fn play(agenda: &mut Agenda, tones: &[Tone], to: Frac, messages: &mut Vec<[u8; 3]>)
    requires ends { AllByRecursion (λ item. IsNote item.note) agenda.old.items }
    requires begins { AllByRecursion (λ tone. IsNote tone.note) tones.now }
    requires room { vec_len messages.old + length agenda.old.items + length tones.now ≤ vec_capacity messages.old }
    ensures messages { messages.new.items ≡ messages.old.items ++ map message (played to tones.now agenda.old.items) }
    ensures left { agenda.new.items ≡ left to tones.now agenda.old.items }
{
    for tone in tones {
        play_due(agenda, &Due::Until(tone.onset), messages);
        messages.push_reserved(on(tone.note));
    }
    play_due(agenda, &Due::Before(to), messages);
}

/// Plays the ends that are due. The messages go to the end of the list, which has room for them.
pub(crate) fn play_due(agenda: &mut Agenda, due: &Due, messages: &mut Vec<[u8; 3]>)
    requires ends { AllByRecursion (λ item. IsNote item.note) agenda.old.items }
    requires room { vec_len messages.old + length agenda.old.items ≤ vec_capacity messages.old }
    ensures messages { messages.new.items ≡ messages.old.items ++ map message (map end_mark (front (is_due due.now) agenda.old.items)) }
    ensures left { agenda.new.items ≡ rest (is_due due.now) agenda.old.items }
    ensures room { vec_len messages.new + length agenda.new.items ≡ vec_len messages.old + length agenda.old.items }
    ensures capacity { vec_capacity messages.new ≡ vec_capacity messages.old }
{
    while let Some(item) = pop_due(agenda, due) {
        messages.push_reserved(off(item.note));
    }
}

// Takes out the first end, if it is due.
fn pop_due(agenda: &mut Agenda, due: &Due) -> Option<Item>
    ensures first { IfSome result (λ item. agenda.old.items ≡ item ∷ agenda.new.items) }
    ensures due { IfSome result (λ item. is_due due.now item ≡ true) }
    ensures none { IfNone result (front (is_due due.now) agenda.old.items ≡ []) }
    ensures stays { IfNone result (agenda.new.items ≡ agenda.old.items) }
{
    match *due {
        Due::All => agenda.pop_next(),
        Due::Before(time) => agenda.pop_before(time),
        Due::Until(time) => pop_until(agenda, time),
    }
}

// Takes out the first end, if its time is this one or earlier.
fn pop_until(agenda: &mut Agenda, time: Frac) -> Option<Item>
    ensures first { IfSome result (λ item. agenda.old.items ≡ item ∷ agenda.new.items) }
    ensures due { IfSome result (λ item. is_until time item ≡ true) }
    ensures none { IfNone result (front (is_until time) agenda.old.items ≡ []) }
    ensures stays { IfNone result (agenda.new.items ≡ agenda.old.items) }
{
    match agenda.first() {
        Some(item) => {
            if time.is_less(item.time) {
                None
            } else {
                agenda.pop_next()
            }
        }
        None => None,
    }
}
