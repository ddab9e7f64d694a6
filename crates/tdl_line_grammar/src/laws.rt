// Laws of the definitions: what the machine reads, and what is known of it.
ghost use Rattle.std.specs.Prelude.{◌≡◌, List, Bool, false, Ok, length};
ghost use Rattle.tdl_grammar.specs.Faults.{GoesOn};
ghost use Rattle.tdl_grammar.specs.Machine.{run, all_checked};
ghost use Rattle.tdl_command.specs.Tree.{Whole};
ghost use Rattle.tdl_line_machine.specs.Tokens.{Tok};
ghost use Rattle.tdl_line_machine.specs.declared.goals.Goal.{Goal};
ghost use Rattle.tdl_line_grammar.specs.Grammar.{Reads, Formed};
ghost use Rattle.tdl_line_grammar.specs.Faults.{tests, lines};
ghost use Rattle.tdl_line_machine.specs.Machine.{taken};
ghost use Rattle.tdl_line_machine.specs.Machine.States.{State, first_state};
ghost use Rattle.tdl_line_grammar.specs.inside.Laws.{final_state, IsEnded, tree_of};
ghost use Rattle.tdl_line_grammar.specs.inside.Kept.{AllKept};
ghost use Rattle.tdl_line_grammar.specs.Spelling.{expr_pieces};
ghost use Rattle.tdl_command.specs.View.{expr_of};
ghost use Rattle.tdl_command.specs.Valid.{IsValidExpr};
ghost use Rattle.tdl_command.specs.declared.tree.Expr.{Expr as ExprValue};

/// The tokens of a text are read, test by test, up to the first that does not hold.
fn reads_are_run()
    ensures { (goal : Goal) (tested : Bool) (tokens : List Tok) (w : Whole) → Reads goal tokens w
        → run (taken tested) (first_state goal) tokens ≡ all_checked tested (tests w) (Ok (final_state w (length tokens))) }
{}

/// What is read to its end is a text of the grammar, with the tree that is made.
fn ends_are_read()
    ensures { (goal : Goal) (tokens : List Tok) (s : State) → run (taken false) (first_state goal) tokens ≡ Ok s → IsEnded s → Reads goal tokens (tree_of s) }
{}

/// A text of the grammar begins with whatever is read.
fn fronts_go_on()
    ensures { (goal : Goal) (front : List Tok) (s : State) → run (taken false) (first_state goal) front ≡ Ok s → (w : Whole) × GoesOn (lines goal) front w }
{}

/// An expression whose rules hold is valid.
fn kept_is_valid()
    ensures { (e : ExprValue) → Formed (expr_of e) → AllKept (expr_pieces (expr_of e)) → IsValidExpr e }
{}
