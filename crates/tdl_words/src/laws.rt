ghost use Rattle.std.specs.Prelude.{◌≡◌, ◌≤◌, ℕ, List};
ghost use Rattle.tdl_tempo.specs.Tempo.{Pace};
ghost use Rattle.tdl_words.specs.Modes.{AskDrill, AskServe, Asked, Asks, max_cycles, max_lines, max_performers, max_start};

/// Words ask for one thing at most.
pub fn words_ask_for_one_thing()
    ensures { (words : List (List ℕ)) (a b : Asked) → Asks words a → Asks words b → a ≡ b }
{}

/// Words that ask to serve name from 1 to 8 performers, and from 1 to 65,536 cycles.
pub fn serve_words_are_in_bounds()
    ensures { (words : List (List ℕ)) (pace : Pace) (performers cycles : ℕ) → Asks words (AskServe pace performers cycles)
        → (1 ≤ performers) × (performers ≤ max_performers) × (1 ≤ cycles) × (cycles ≤ max_cycles) }
{}

/// Words that ask for a drill name a start from 0 to 2,147,483,647, and from 1 to 16,384 lines.
pub fn drill_words_are_in_bounds()
    ensures { (words : List (List ℕ)) (start lines : ℕ) → Asks words (AskDrill start lines)
        → (start ≤ max_start) × (1 ≤ lines) × (lines ≤ max_lines) }
{}
