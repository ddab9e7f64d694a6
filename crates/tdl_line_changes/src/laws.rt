// What the texts of lines say.
ghost use Rattle.std.specs.Prelude.{◌≡◌, ◌≤◌, ◌==◌, ℕ, true, not, List, Ok, IfSome};
ghost use Rattle.std.specs.List.{list_all};
ghost use Rattle.tdl_control.specs.Limits.{max_every};
ghost use Rattle.tdl_command.specs.Tree.{Line};
ghost use Rattle.tdl_compile.specs.Compiled.{Compiled};
ghost use Rattle.tdl_desk.specs.Changes.{map_change, pattern_in};
ghost use Rattle.tdl_desk.specs.declared.changes.Change.{Change as ChangeOf};
ghost use Rattle.tdl_desk.specs.Desk.{HasOrbit};
ghost use Rattle.tdl_expr.specs.Tree.{Tree};
ghost use Rattle.tdl_expr.specs.Valid.{IsValid, IsWithinLimits};
ghost use Rattle.tdl_prepare.specs.Asked.{asked};
ghost use Rattle.tdl_prepare.specs.declared.prepared.Prepared.TheVariants.{Swap, Look};
ghost use Rattle.tdl_prepare.specs.Prepared.{PreparesLine};
ghost use Rattle.tdl_line_changes.specs.Readings.{ReadsSwap, ReadsLook, program_tree};
ghost use Rattle.tdl_line_texts.specs.Texts.{IsLine, IsTrimmed};

use tdl_line_texts::{
    jumps_are_in_range, lines_are_read_in_one_way, lines_have_no_line_feed,
    outer_blanks_say_nothing,
};

/// A text reads as one change at most, from the next multiple of 1 to 4,096 cycles on. Its orbit is one, its pattern can be
/// played and is within the limits, and the text has no line feed.
pub fn texts_read_as_one_swap()
    ensures one { (text : List ℕ) (n m : ℕ) (c d : ChangeOf Tree) → ReadsSwap text n c → ReadsSwap text m d → (n ≡ m) × (c ≡ d) }
    ensures every { (text : List ℕ) (n : ℕ) (c : ChangeOf Tree) → ReadsSwap text n c → (1 ≤ n) × (n ≤ max_every) }
    ensures orbit { (text : List ℕ) (n : ℕ) (c : ChangeOf Tree) → ReadsSwap text n c → HasOrbit c }
    ensures limits { (text : List ℕ) (n : ℕ) (c : ChangeOf Tree) → ReadsSwap text n c → IfSome (pattern_in c) IsWithinLimits }
    ensures valid { (text : List ℕ) (n : ℕ) (c : ChangeOf Tree) → ReadsSwap text n c → IfSome (pattern_in c) IsValid }
    ensures no_feed { (text : List ℕ) (n : ℕ) (c : ChangeOf Tree) → ReadsSwap text n c → list_all (λ byte. not (byte == 10)) text ≡ true }
{
    lines_are_read_in_one_way();
    jumps_are_in_range();
    lines_have_no_line_feed();
}

/// What is prepared of a line that was read is what its text reads as, without the blanks round it.
pub fn prepared_lines_are_read()
    ensures swaps { (text kept : List ℕ) (l : Line) → IsTrimmed text kept → IsLine text l
        → (t : List ℕ) (every : ℕ) (change : ChangeOf Compiled) → PreparesLine (asked l) kept (Ok (Swap t every change))
        → (t ≡ kept) × ReadsSwap kept every (map_change program_tree change) }
    ensures looks { (text kept : List ℕ) (l : Line) → IsTrimmed text kept → IsLine text l → PreparesLine (asked l) kept (Ok Look) → ReadsLook kept }
{
    outer_blanks_say_nothing();
}
