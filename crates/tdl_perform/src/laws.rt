// What follows of a port's clause.
ghost use Rattle.std.specs.Prelude.{◌≡◌, ℕ, List, ◌∷◌, ◌++◌, length};
ghost use Rattle.tdl_tempo.specs.Tempo.{Pace};
ghost use Rattle.tdl_turn.specs.Numbers.{Among, Reads};
ghost use Rattle.tdl_score.specs.declared.histories.Entry.{Entry};
ghost use Rattle.tdl_score.specs.History.{entries_of, max_performed, performed_count};
ghost use Rattle.tdl_core.specs.ReplyLines.{full_line};
ghost use Rattle.tdl_core.specs.Said.{IsLegal};
ghost use Rattle.tdl_log.specs.declared.ends.PortEnd.{PortEnd};
ghost use Rattle.tdl_answer.specs.Account.{Account};
ghost use Rattle.tdl_perform.specs.LineEntries.{HaveEntries};
ghost use Rattle.tdl_perform.specs.Port.{ServesPort};
ghost use Rattle.tdl_perform.specs.Serves.{Serves};

/// What was done at a port along what its pass had seen was done along each history that goes on without its number.
pub fn ports_stay()
    ensures { (tempo : Pace) (number : ℕ) (numbers : List ℕ) (history seen : List Entry) (source sink : Account ℕ) (end : PortEnd)
        → Among number numbers → Reads (λ (e : Entry). e.who) history seen numbers
        → ServesPort tempo number seen source sink end → ServesPort tempo number history source sink end }
{}

/// Served lines have a reply each, and their number's entries in a legal history are those of the lines that were
/// accepted, in order. Where one is refused since the history is full, it has 16,384 swaps and looks, and no later
/// line has an entry.
pub fn served_lines_have_their_entries()
    ensures replies { (tempo : Pace) (number : ℕ) (lines replies : List (List ℕ)) (history : List Entry)
        → Serves tempo number lines replies history → length replies ≡ length lines }
    ensures entries { (tempo : Pace) (number : ℕ) (lines replies : List (List ℕ)) (history : List Entry) → IsLegal history
        → Serves tempo number lines replies history → HaveEntries number lines replies (entries_of number history) }
    ensures full { (tempo : Pace) (number : ℕ) (lines : List (List ℕ)) (line : List ℕ) (later replies others : List (List ℕ))
        (history : List Entry) → IsLegal history → length replies ≡ length lines
        → Serves tempo number (lines ++ line ∷ later) (replies ++ full_line max_performed ∷ others) history
        → (performed_count history ≡ max_performed) × HaveEntries number lines replies (entries_of number history) }
{}
