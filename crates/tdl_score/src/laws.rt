// What histories play, and what of it is fixed.
ghost use Rattle.std.specs.Prelude.{◌≡◌, ℕ, ◌+◌, ◌*◌, ◌<◌, ◌≤◌, true, false, List, [], ◌∷◌, ◌++◌, filter, map, count_by};
ghost use Rattle.std.specs.Option.{option_map};
ghost use Rattle.std.specs.List.{AllByRecursion};
ghost use Rattle.tdl_fraction.specs.Units.{last_cycle, tick_units};
ghost use Rattle.tdl_compile.specs.Compiled.{Compiled};
ghost use Rattle.tdl_desk.specs.declared.changes.Dated.{Dated};
ghost use Rattle.tdl_desk.specs.Desk.{desk, is_audible};
ghost use Rattle.tdl_expr.specs.Tree.{Tree};
ghost use Rattle.tdl_notes.specs.Balance.{begins, ends};
ghost use Rattle.tdl_score.specs.declared.histories.Deed.TheVariants.{Swap};
ghost use Rattle.tdl_score.specs.declared.histories.Entry.{Entry};
ghost use Rattle.tdl_score.specs.History.{EndTogether, IsLegal, MayFollow, before_last_play, dated_texts, frontier, is_finished, performed, plays};
ghost use Rattle.tdl_score.specs.Changes.{ArePlayable, HasChanges};
ghost use Rattle.tdl_score.specs.Growth.{GrowthLaws};
ghost use Rattle.tdl_score.specs.Programs.{dated_tree, program_tree};
ghost use Rattle.tdl_score.specs.Score.{IsRowOf, begins_before, rows, score};
ghost use Rattle.tdl_score.specs.Wires.{HasMidi, HasSent, Protocol};

use crate::readers::Reader;
use tdl_expr::Table;
use tdl_meaning::times_of_trees_are_bounded;
use tdl_notes::every_note_on_has_its_note_off;

/// A history makes one list of changes at most, and one that is legal makes one, of patterns that can be played.
pub fn histories_have_one_list_of_changes<R: Reader>()
    ensures one { (entries : List Entry) (xs ys : List (Dated Tree))
        → HasChanges R.reads entries xs → HasChanges R.reads entries ys → xs ≡ ys }
    ensures some { (entries : List Entry) → IsLegal R.reads entries
        → (changes : List (Dated Tree)) × HasChanges R.reads entries changes }
    ensures playable { (entries : List Entry) (changes : List (Dated Tree))
        → HasChanges R.reads entries changes → ArePlayable changes }
    ensures sends { (wire : Protocol) (entries : List Entry) (p q : List (List ℕ))
        → HasSent R.reads wire entries p → HasSent R.reads wire entries q → p ≡ q }
{
    R::reading_law();
}

/// What an entry more does to a history: to whether it is legal, its frontier, its counts, its changes, and what it plays
/// and sends.
pub fn histories_grow<R: Reader>()
    ensures { GrowthLaws R.reads }
{
    R::reading_law();
    times_of_trees_are_bounded();
}

/// The rows of a cycle begin in it, each has a positive length in range and an orbit, and so a cycle has none before it.
pub fn rows_are_of_their_cycle()
    ensures each { (changes : List (Dated Tree)) → ArePlayable changes → (cycle : ℕ) → cycle < last_cycle
        → AllByRecursion (IsRowOf cycle) (rows changes cycle) }
    ensures none_early { (changes : List (Dated Tree)) → ArePlayable changes → (cycle units : ℕ) → units ≤ cycle * tick_units
        → filter (begins_before units) (rows changes cycle) ≡ [] }
{
    Table::validity_law();
    times_of_trees_are_bounded();
}

/// The desk of programs is that of their trees.
pub fn programs_are_seen_as_trees()
    ensures patterns { (kept : List (Dated Compiled)) (cycle orbit : ℕ)
        → (desk (map dated_tree kept) cycle).pattern orbit ≡ option_map program_tree ((desk kept cycle).pattern orbit) }
    ensures muted { (kept : List (Dated Compiled)) (cycle orbit : ℕ) → (desk (map dated_tree kept) cycle).muted orbit ≡ (desk kept cycle).muted orbit }
    ensures soloed { (kept : List (Dated Compiled)) (cycle orbit : ℕ) → (desk (map dated_tree kept) cycle).soloed orbit ≡ (desk kept cycle).soloed orbit }
    ensures audible { (kept : List (Dated Compiled)) (cycle orbit : ℕ)
        → is_audible (desk (map dated_tree kept) cycle) orbit ≡ is_audible (desk kept cycle) orbit }
{}

/// Whatever follows a history changes no row before its frontier.
pub fn past_is_fixed<R: Reader>()
    ensures { (entries : List Entry) (e : Entry) → MayFollow R.reads entries e
        → (xs ys : List (Dated Tree)) → HasChanges R.reads entries xs → HasChanges R.reads (entries ++ e ∷ []) ys
        → score ys (frontier entries) ≡ score xs (frontier entries) }
{
    R::reading_law();
    times_of_trees_are_bounded();
}

/// No boundary of what follows a history is below its frontier, so a cycle that was played in part stays as it was.
pub fn later_boundaries_are_ahead<R: Reader>()
    ensures next { (entries : List Entry) (e : Entry) → MayFollow R.reads entries e
        → (boundary : ℕ) (text : List ℕ) → e.deed ≡ Swap boundary text → frontier entries ≤ boundary * tick_units }
    ensures all { (entries later : List Entry) → IsLegal R.reads (entries ++ later)
        → AllByRecursion (λ dated. frontier entries ≤ dated.boundary * tick_units) (dated_texts later) }
{
    R::reading_law();
}

/// Histories of the same changes and boundaries, up to the same frontier, both or neither with the finish, send the
/// same to each wire, however their ticks cut the time; so do histories that differ in their ticks alone, and those
/// whose swaps have the same texts and boundaries.
pub fn cuts_do_not_matter<R: Reader>()
    ensures changes { (wire : Protocol) (one other : List Entry) (changes : List (Dated Tree))
        → HasChanges R.reads one changes → HasChanges R.reads other changes → EndTogether one other
        → (p q : List (List ℕ)) → HasSent R.reads wire one p → HasSent R.reads wire other q → p ≡ q }
    ensures ticks { (wire : Protocol) (one other : List Entry) → performed one ≡ performed other → EndTogether one other
        → (p q : List (List ℕ)) → HasSent R.reads wire one p → HasSent R.reads wire other q → p ≡ q }
    ensures texts { (wire : Protocol) (one other : List Entry) → dated_texts one ≡ dated_texts other → EndTogether one other
        → (p q : List (List ℕ)) → HasSent R.reads wire one p → HasSent R.reads wire other q → p ≡ q }
{
    R::reading_law();
}

/// With the finish, a history has as many messages that end a note of a channel and a key as begin one, and no front
/// of its messages has more that end one than that begin one.
pub fn finishes_end_all_notes<R: Reader>()
    ensures all { (entries : List Entry) → is_finished entries ≡ true
        → (messages : List (List ℕ)) → HasMidi R.reads entries messages → (channel key : ℕ) → channel ≤ 15
        → count_by (ends channel key) messages ≡ count_by (begins channel key) messages }
    ensures fronts { (entries : List Entry) → is_finished entries ≡ true
        → (sent later : List (List ℕ)) → HasMidi R.reads entries (sent ++ later) → (channel key : ℕ) → channel ≤ 15
        → count_by (ends channel key) sent ≤ count_by (begins channel key) sent }
{
    R::reading_law();
    times_of_trees_are_bounded();
    every_note_on_has_its_note_off();
}

/// What a history sends begins with what it sends before its last tick or finish, and nothing but these moves that.
pub fn last_plays_send_last<R: Reader>()
    ensures plays { (entries : List Entry) (e : Entry) → plays e.deed ≡ true → before_last_play (entries ++ e ∷ []) ≡ entries }
    ensures others { (wire : Protocol) (entries : List Entry) (e : Entry) → plays e.deed ≡ false
        → (all sent : List (List ℕ)) → HasSent R.reads wire (entries ++ e ∷ []) all → HasSent R.reads wire (before_last_play entries) sent
        → HasSent R.reads wire (before_last_play (entries ++ e ∷ [])) sent }
    ensures begins { (wire : Protocol) (entries : List Entry) → IsLegal R.reads entries
        → (all sent : List (List ℕ)) → HasSent R.reads wire entries all → HasSent R.reads wire (before_last_play entries) sent
        → (more : List (List ℕ)) × (all ≡ sent ++ more) }
    ensures goes_on { (wire : Protocol) (entries : List Entry) (e : Entry) → MayFollow R.reads entries e
        → (old new : List (List ℕ)) → HasSent R.reads wire entries old → HasSent R.reads wire (entries ++ e ∷ []) new
        → (more : List (List ℕ)) × (new ≡ old ++ more) }
{
    R::reading_law();
    times_of_trees_are_bounded();
}
