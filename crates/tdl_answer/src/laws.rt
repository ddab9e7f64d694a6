// What the texts of performers ask for.
ghost use Rattle.std.specs.Prelude.{ℕ, List};
ghost use Rattle.tdl_answer.specs.Texts.{IsLook, IsSwapOf, IsUnplayedAs};
ghost use Rattle.tdl_compile.specs.Compiled.{Compiled};
ghost use Rattle.tdl_desk.specs.declared.changes.Change.{Change};

use tdl_line_texts::lines_are_read_in_one_way;

/// A performer's text asks for one thing: where it asks for a change or for a look, it is not declined, and a change is no
/// look.
pub fn texts_ask_for_one_thing()
    ensures swaps { (text kept : List ℕ) (every : ℕ) (change : Change Compiled) → IsSwapOf text kept every change
        → (reply : List ℕ) → IsUnplayedAs text reply → ⊥ }
    ensures looks { (text : List ℕ) → IsLook text → (reply : List ℕ) → IsUnplayedAs text reply → ⊥ }
    ensures apart { (text kept : List ℕ) (every : ℕ) (change : Change Compiled) → IsSwapOf text kept every change → IsLook text → ⊥ }
{
    lines_are_read_in_one_way();
}
