// What the texts of lines say.
ghost use Rattle.std.specs.Prelude.{IsTrue, ◌≡◌, ℕ, List, true};
ghost use Rattle.tdl_control.specs.declared.faults.Faulted.TheVariants.{At};
ghost use Rattle.tdl_line_machine.specs.declared.faults.LineKind.{LineKind};
ghost use Rattle.tdl_command.specs.Tree.{Whole, Line, line, pattern, jump, Expr};
ghost use Rattle.tdl_line_machine.specs.declared.goals.Goal.{Goal};
ghost use Rattle.tdl_line_machine.specs.declared.goals.Goal.TheVariants.{Pattern as a_pattern};
ghost use Rattle.tdl_line_texts.specs.Texts.{IsWhole, RefusesWhole, IsDecided, IsLine, IsTrimmed, is_one_line};
ghost use Rattle.tdl_command.specs.Rules.{is_orbit, is_every};
ghost use Rattle.tdl_command.specs.View.{expr_of, line_of};
ghost use Rattle.tdl_command.specs.Valid.{IsValidExpr, IsValidCommand};
ghost use Rattle.tdl_command.specs.declared.tree.Command.{Command as CommandValue};
ghost use Rattle.tdl_command.specs.declared.tree.Expr.{Expr as ExprValue};

/// A line, or a pattern alone, has one tree at most, none where it is refused, and one first fault at most; and one text
/// without the blanks round it.
pub fn lines_are_read_in_one_way()
    ensures one_tree { (goal : Goal) (text : List ℕ) (a b : Whole) → IsWhole goal text a → IsWhole goal text b → a ≡ b }
    ensures not_both { (goal : Goal) (text : List ℕ) (w : Whole) (kind : LineKind) (at : ℕ) → IsWhole goal text w → RefusesWhole goal text (At kind at) → ⊥ }
    ensures one_fault { (goal : Goal) (text : List ℕ) (k l : LineKind) (m n : ℕ)
        → RefusesWhole goal text (At k m) → RefusesWhole goal text (At l n) → (k ≡ l) × (m ≡ n) }
    ensures one_text { (text a b : List ℕ) → IsTrimmed text a → IsTrimmed text b → a ≡ b }
{}

/// Each text has the tree of a line, or of a pattern alone, or is refused as one.
pub fn each_line_is_read()
    ensures { (goal : Goal) (text : List ℕ) → IsDecided goal text }
{}

/// A line that is read is valid.
fn lines_are_valid()
    ensures { (text : List ℕ) (c : CommandValue) → IsLine text (line_of c) → IsValidCommand c }
{}

/// So is a pattern.
fn patterns_are_valid()
    ensures { (text : List ℕ) (e : ExprValue) → IsWhole a_pattern text (pattern (expr_of e)) → IsValidExpr e }
{}

/// No line has a line feed.
pub fn lines_have_no_line_feed()
    ensures { (text : List ℕ) (l : Line) → IsLine text l → is_one_line text ≡ true }
{}

/// The orbit and the cycles of a `jumpMod` are in range.
pub fn jumps_are_in_range()
    ensures { (text : List ℕ) (orbit every : ℕ) (e : Expr) → IsLine text (jump orbit every e) → IsTrue (is_orbit orbit) × IsTrue (is_every every) }
{}

/// A line without the blanks round it is the same line.
pub fn outer_blanks_say_nothing()
    ensures { (text kept : List ℕ) (l : Line) → IsTrimmed text kept → IsLine text l → IsLine kept l }
{}
