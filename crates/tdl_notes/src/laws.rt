// What holds of the messages, however they were sent.
ghost use Rattle.std.specs.Prelude.{◌≡◌, ℕ, ◌≤◌, List, [], ◌++◌, count_by};
ghost use Rattle.tdl_fraction.specs.Rational.{Rational};
ghost use Rattle.tdl_notes.specs.declared.tones.Tone.{Tone};
ghost use Rattle.tdl_notes.specs.Balance.{HasChannels, begins, ends};
ghost use Rattle.tdl_notes.specs.Notes.{midi, midi_finished};
ghost use Rattle.tdl_notes.specs.Waiting.{IsScoreTo, Sent, Tick, all_tones, last};

/// Ticks send the messages of the tones that begin in them, and so ticks that have the same tones, one after the
/// other, and come to the same time send the same, however they cut it.
pub fn cuts_do_not_matter_to_notes()
    ensures all { (from : Rational) (ticks : List Tick) (sent : List (List ℕ)) → Sent from [] ticks sent → midi (last from ticks) (all_tones ticks) ≡ sent }
    ensures cuts { (from : Rational) (one other : List Tick) → all_tones one ≡ all_tones other → last from one ≡ last from other
        → (p q : List (List ℕ)) → Sent from [] one p → Sent from [] other q → p ≡ q }
{}

/// With a finish, as many messages end a note of a channel and a key as begin one, and in no front of what was
/// sent are there more that end one than that begin one.
pub fn every_note_on_has_its_note_off()
    ensures all { (frontier : Rational) (score : List Tone) → IsScoreTo frontier score → HasChannels score → (channel key : ℕ) → channel ≤ 15
        → count_by (ends channel key) (midi_finished frontier score) ≡ count_by (begins channel key) (midi_finished frontier score) }
    ensures fronts { (frontier : Rational) (score : List Tone) → IsScoreTo frontier score → (channel key : ℕ) → channel ≤ 15
        → (sent later : List (List ℕ)) → midi_finished frontier score ≡ sent ++ later
        → count_by (ends channel key) sent ≤ count_by (begins channel key) sent }
{}
