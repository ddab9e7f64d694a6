ghost use Rattle.std.specs.Prelude.{◌≡◌, ◌↔◌, ℕ, List, [], ◌∷◌, ◌++◌};
ghost use Rattle.tdl_drill.specs.Drill.{drill_lines, finish_line};

/// The finish is the last line of a drill, and no line before.
pub fn the_finish_is_the_last_line()
    ensures { (start count : ℕ) (before rest : List (List ℕ)) (line : List ℕ) → drill_lines start count ≡ before ++ line ∷ rest
        → (line ≡ finish_line) ↔ (rest ≡ []) }
{}
