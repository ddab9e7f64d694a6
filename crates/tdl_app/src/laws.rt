// What follows of what runs do.
ghost use Rattle.std.specs.Prelude.{◌≡◌, ℕ, List};
ghost use Rattle.tdl_core.specs.Said.{HasSent, Says};
ghost use Rattle.tdl_score.specs.declared.histories.Entry.{Entry};
ghost use Rattle.tdl_score.specs.History.{EndTogether};
ghost use Rattle.tdl_score.specs.Wires.{Protocol};
ghost use Rattle.tdl_tempo.specs.Tempo.{Pace};
ghost use Rattle.tdl_log.specs.Log.{IsRunLog, Log};
ghost use Rattle.tdl_log.specs.LogText.{log_text};
ghost use Rattle.tdl_answer.specs.Account.{WireAccounts};
ghost use Rattle.tdl_answer.specs.Sent.{SendsBoth};
ghost use Rattle.tdl_words.specs.Modes.{Asked, AskDrill, AskPlay, AskQuery, AskServe, Asks, Query};
ghost use Rattle.tdl_app.specs.declared.devices.Outside.{Outside};
ghost use Rattle.tdl_app.specs.declared.outcomes.Outcome.{Outcome};
ghost use Rattle.tdl_app.specs.Accounts.{Telling, accounts};
ghost use Rattle.tdl_app.specs.Complete.{HasStatus, IsDrilledOut, IsPlayedOut, IsPrinted, IsServedOut, NoneRose};
ghost use Rattle.tdl_app.specs.Cuts.{IsPlayed, boundaries, spoken};
ghost use Rattle.tdl_app.specs.OneLog.{SentTheSame};
ghost use Rattle.tdl_app.specs.Ran.{Ran};

use tdl_answer::texts_ask_for_one_thing;
use tdl_core::Lines;
use tdl_line_texts::lines_are_read_in_one_way;
use tdl_log::logs_tell_their_sheets;
use tdl_score::{cuts_do_not_matter, histories_grow};

/// Two scripts with the same lines of performers, whose changes hold from the same cycles on and which end at one time,
/// both or neither with the finish, send the same to each wire, however their ticks cut the time, where memory lasts.
pub fn scripts_may_cut_time_otherwise()
    ensures { (tempo : Pace) (one other : List (List ℕ)) → spoken one ≡ spoken other
        → (h k : List Entry) → IsPlayed tempo one h → IsPlayed tempo other k → boundaries h ≡ boundaries k → EndTogether h k
        → (wire : Protocol) (p q : List (List ℕ)) → HasSent wire h p → HasSent wire k q → p ≡ q }
{
    lines_are_read_in_one_way();
    texts_ask_for_one_thing();
    histories_grow::<Lines>();
    cuts_do_not_matter::<Lines>();
}

/// Runs with one log sent the same: a log tells its tempo, its history and how its ports ended, and these tell what goes
/// to each wire, where no send failed.
pub fn logs_tell_what_was_sent()
    ensures { (one other : Log) → IsRunLog Says one → IsRunLog Says other → log_text one ≡ log_text other
        → (wires others : WireAccounts) → SendsBoth one.tempo one.history wires → SendsBoth other.tempo other.history others
        → SentTheSame wires others }
{
    logs_tell_their_sheets::<Lines>();
    cuts_do_not_matter::<Lines>();
}

/// Runs are complete. Where the words are in the word grammar and no count of faults rose, the status is 0; or 2 where a
/// query is refused, and only there; or 6 where a script's input is too long, and only there; or 3. And status 0 means: a
/// query's print is whole; a script's input was read to its end or to the finish, and each line up to there has its reply;
/// performers were served beside all ticks of the beats and the finish, and each port ended by its cause; each line of a
/// drill was played, the finish too. But for a query, wires and log are whole then, and the end line stands on the output.
pub fn runs_are_complete<S, K, W, C>()
    ensures status { (tells : Telling S K W C) (words : List (List ℕ)) (before after : Outside S K W C) (outcome : Outcome) (asked : Asked)
        → Ran tells words before after outcome → Asks words asked → NoneRose (accounts tells before after)
        → HasStatus asked (accounts tells before after) outcome.history.entries outcome.status }
    ensures query { (tells : Telling S K W C) (words : List (List ℕ)) (before after : Outside S K W C) (outcome : Outcome) (query : Query)
        → Ran tells words before after outcome → Asks words (AskQuery query) → outcome.status ≡ 0
        → IsPrinted query (accounts tells before after).out }
    ensures play { (tells : Telling S K W C) (words : List (List ℕ)) (before after : Outside S K W C) (outcome : Outcome) (pace : Pace)
        → Ran tells words before after outcome → Asks words (AskPlay pace) → outcome.status ≡ 0
        → IsPlayedOut pace outcome.history.entries outcome.ends (accounts tells before after) }
    ensures serve { (tells : Telling S K W C) (words : List (List ℕ)) (before after : Outside S K W C) (outcome : Outcome)
        (pace : Pace) (performers cycles : ℕ)
        → Ran tells words before after outcome → Asks words (AskServe pace performers cycles) → outcome.status ≡ 0
        → IsServedOut pace cycles outcome.history.entries outcome.ends (accounts tells before after) }
    ensures drill { (tells : Telling S K W C) (words : List (List ℕ)) (before after : Outside S K W C) (outcome : Outcome)
        (start lines : ℕ)
        → Ran tells words before after outcome → Asks words (AskDrill start lines) → outcome.status ≡ 0
        → IsDrilledOut start lines outcome.history.entries outcome.ends (accounts tells before after) }
{}
