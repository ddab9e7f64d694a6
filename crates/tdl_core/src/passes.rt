// What those may rely on who share a core.
ghost use Rattle.std.specs.Prelude.{◌≡◌, ℕ, List, ◌++◌};
ghost use Rattle.tdl_tempo.specs.Tempo.{Pace};
ghost use Rattle.tdl_turn.specs.Numbers.{Among, Reads};
ghost use Rattle.tdl_session.specs.Passes.{PassView, mine, SamePass, Called, Refused};
ghost use Rattle.tdl_session.specs.Told.{Tells};
ghost use Rattle.tdl_score.specs.declared.histories.Entry.{Entry};
ghost use Rattle.tdl_score.specs.Wires.{Protocol};
ghost use Rattle.tdl_core.specs.declared.calls.Call.{Call};
ghost use Rattle.tdl_core.specs.declared.calls.Call.TheVariants.{Look, Tick};
ghost use Rattle.tdl_core.specs.declared.replies.Reply.{Reply};
ghost use Rattle.tdl_core.specs.declared.replies.Refusal.{Refusal};
ghost use Rattle.tdl_core.specs.Replies.{MayPlay, midi_with, osc_with};
ghost use Rattle.tdl_core.specs.Said.{HasMidi, HasOsc, HasSent, IsLegal};
ghost use Rattle.tdl_core.specs.Sessions.{Adds, IsFresh, Refuses, sent_with};

use crate::laws::lines_make_histories;

/// A look shows each change that its caller has had answered, whose place is below its own, and maybe more of others.
pub fn looks_are_fresh()
    ensures { (tempo : Pace) (p q : PassView Entry Pace) (reply : Reply)
        → Called (λ (e : Entry). e.who) (λ h e. Adds tempo h p.number Look e reply) p q → IsFresh p.seen reply }
{}

/// Who may tick may go on after a tick that was accepted (`ticks_on`), and after any refusal (`refused_on`).
pub fn tickers_go_on()
    ensures ticks_on { (tempo : Pace) (p q : PassView Entry Pace) (to : ℕ) (reply : Reply) → SamePass p q
        → Called (λ (e : Entry). e.who) (λ h e. Adds tempo h p.number (Tick to) e reply) p q
        → MayPlay (mine (λ (e : Entry). e.who) p) p.number → MayPlay (mine (λ (e : Entry). e.who) q) q.number }
    ensures refused_on { (p q : PassView Entry Pace) (call : Call) (refusal : Refusal) → SamePass p q
        → Refused (λ (e : Entry). e.who) (λ h. Refuses h call refusal) p q
        → MayPlay (mine (λ (e : Entry). e.who) p) p.number → MayPlay (mine (λ (e : Entry). e.who) q) q.number }
{
    lines_make_histories();
}

/// What goes to a wire with the replies of ticks and the finish, joined, is what the history sends to it. What a pass of
/// their caller knows to be sent goes on by what goes with one reply more, and entries of others send nothing.
pub fn replies_are_sent()
    ensures osc { (tempo : Pace) (history : List Entry) (told : List (Call × Reply)) → IsLegal history
        → Tells (λ (e : Entry). e.who) Adds tempo 0 history told → HasOsc tempo history (sent_with osc_with told) }
    ensures midi { (tempo : Pace) (history : List Entry) (told : List (Call × Reply)) → IsLegal history
        → Tells (λ (e : Entry). e.who) Adds tempo 0 history told → HasMidi history (sent_with midi_with told) }
    ensures osc_on { (tempo : Pace) (p q : PassView Entry Pace) (call : Call) (reply : Reply) → IsLegal q.seen → Among 0 p.made
        → Called (λ (e : Entry). e.who) (λ h e. Adds tempo h p.number call e reply) p q
        → (packets : List (List ℕ)) → HasOsc tempo p.seen packets → HasOsc tempo q.seen (packets ++ osc_with reply) }
    ensures midi_on { (tempo : Pace) (p q : PassView Entry Pace) (call : Call) (reply : Reply) → IsLegal q.seen → Among 0 p.made
        → Called (λ (e : Entry). e.who) (λ h e. Adds tempo h p.number call e reply) p q
        → (messages : List (List ℕ)) → HasMidi p.seen messages → HasMidi q.seen (messages ++ midi_with reply) }
    ensures others { (wire : Protocol) (history seen : List Entry) (numbers : List ℕ) → IsLegal history → Among 0 numbers
        → Reads (λ (e : Entry). e.who) history seen numbers
        → (packets : List (List ℕ)) → HasSent wire seen packets → HasSent wire history packets }
{
    lines_make_histories();
}
