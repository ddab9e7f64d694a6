// What no history does, and what replies carry.
ghost use Rattle.std.specs.Prelude.{◌≡◌, ℕ, ◌+◌, ◌<◌, ◌≤◌, List, [], ◌∷◌, ◌++◌, None};
ghost use Rattle.tdl_fraction.specs.Units.{last_units, tick_units};
ghost use Rattle.tdl_score.specs.declared.histories.Entry.{Entry};
ghost use Rattle.tdl_score.specs.History.{frontier, max_ticks, tick_count};
ghost use Rattle.tdl_core.specs.declared.calls.Call.TheVariants.{Tick};
ghost use Rattle.tdl_core.specs.Replies.{CoreState, refusal_of};
ghost use Rattle.tdl_core.specs.Runs.{AnsweredCall, TakesCalls, joined_midi, joined_osc};
ghost use Rattle.tdl_core.specs.Said.{HasChanges, HasMidi, HasOsc, IsLegal, MayFollow, Says};
ghost use Rattle.tdl_desk.specs.declared.changes.Change.{Change};
ghost use Rattle.tdl_desk.specs.declared.changes.Dated.{Dated};
ghost use Rattle.tdl_expr.specs.Tree.{Tree};
ghost use Rattle.tdl_score.specs.Growth.{GrowthLaws};
ghost use Rattle.tdl_score.specs.Readings.{IsGood};
ghost use Rattle.tdl_score.specs.Score.{score};
ghost use Rattle.tdl_tempo.specs.Tempo.{Pace};

use crate::lines::Lines;
use tdl_score::{Reader, histories_grow, histories_have_one_list_of_changes, past_is_fixed};

/// Whether a history refuses a tick is told by its frontier and its ticks alone, whatever is played: a tick forward by at
/// most a cycle, up to the last one, is not refused before there are 4,194,304.
pub fn no_tick_is_refused_late()
    ensures allowed { (entries : List Entry) (to : ℕ) → frontier entries < to → to ≤ frontier entries + tick_units
        → to ≤ last_units → tick_count entries < max_ticks → refusal_of entries (Tick to) ≡ None }
    ensures numbers { (one other : List Entry) (to : ℕ) → frontier one ≡ frontier other → tick_count one ≡ tick_count other
        → refusal_of one (Tick to) ≡ refusal_of other (Tick to) }
{}

/// What a new core's replies carry, joined in the order of its calls, is what its history sends: to the wire of OSC their
/// packets, and to that of MIDI their messages. What any core has sent goes on by what further replies carry. Each history on
/// the way is legal.
pub fn replies_carry_what_is_sent()
    ensures legal { (tempo : Pace) (calls : List AnsweredCall) (core : CoreState)
        → TakesCalls (record { tempo = tempo; history = [] }) calls core → IsLegal core.history }
    ensures osc { (tempo : Pace) (calls : List AnsweredCall) (core : CoreState)
        → TakesCalls (record { tempo = tempo; history = [] }) calls core → HasOsc tempo core.history (joined_osc calls) }
    ensures midi { (tempo : Pace) (calls : List AnsweredCall) (core : CoreState)
        → TakesCalls (record { tempo = tempo; history = [] }) calls core → HasMidi core.history (joined_midi calls) }
    ensures osc_on { (old new : CoreState) (calls : List AnsweredCall) → TakesCalls old calls new
        → (packets : List (List ℕ)) → HasOsc old.tempo old.history packets → HasOsc old.tempo new.history (packets ++ joined_osc calls) }
    ensures midi_on { (old new : CoreState) (calls : List AnsweredCall) → TakesCalls old calls new
        → (messages : List (List ℕ)) → HasMidi old.history messages → HasMidi new.history (messages ++ joined_midi calls) }
{
    lines_make_histories();
}

/// The laws of histories whose texts are performers' lines.
pub(crate) fn lines_make_histories()
    ensures growth { GrowthLaws Says }
    ensures one { (entries : List Entry) (xs ys : List (Dated Tree)) → HasChanges entries xs → HasChanges entries ys → xs ≡ ys }
    ensures past { (entries : List Entry) (e : Entry) → MayFollow entries e → (xs ys : List (Dated Tree)) → HasChanges entries xs
        → HasChanges (entries ++ e ∷ []) ys → score ys (frontier entries) ≡ score xs (frontier entries) }
    ensures good { (text : List ℕ) (every : ℕ) (change : Change Tree) → Says text every change → IsGood text every change }
{
    Lines::reading_law();
    histories_grow::<Lines>();
    histories_have_one_list_of_changes::<Lines>();
    past_is_fixed::<Lines>();
}
