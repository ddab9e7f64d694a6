// Laws of the definitions: what the machine reads, and what a text says.
ghost use Rattle.std.specs.Prelude.{◌≡◌, ℕ, suc, ◌+◌, ◌<◌, ◌⊎◌, Bool, true, false, List, [], ◌∷◌, ◌++◌, length, Ok, Err};
ghost use Rattle.tdl_control.specs.declared.faults.Faulted.TheVariants.{At};
ghost use Rattle.tdl_mini_tree.specs.declared.faults.MiniKind.{MiniKind};
ghost use Rattle.tdl_mini_tree.specs.declared.leaves.Kind.{Kind};
ghost use Rattle.tdl_mini_tree.specs.Tree as tree;
ghost use Rattle.tdl_mini_machine.specs.Tokens.{Tok, end};
ghost use Rattle.tdl_mini_grammar.specs.Grammar.{Reads};
ghost use Rattle.tdl_mini_machine.specs.Rules.{Test};
ghost use Rattle.tdl_mini_grammar.specs.Tests.{tests};
ghost use Rattle.tdl_mini_grammar.specs.Faults.{IsFault, IsText};
ghost use Rattle.tdl_mini_machine.specs.WrongTokens.{depth_from, wrong_token};
ghost use Rattle.tdl_mini_machine.specs.Machine.States.{Fault, State, ended, failed, wrong};
ghost use Rattle.tdl_mini_machine.specs.Machine.Running.{run, taken};
ghost use Rattle.tdl_mini_machine.specs.Machine.Settling.{settled};
ghost use Rattle.tdl_mini_grammar.specs.inside.Laws.{IsRunAs, IsWrongHere, FailsHere, CanClose, FailsAtEnd, CanCloseAt, Reaches, StopsAt, IsFaultAfter};
ghost use Rattle.tdl_mini_grammar.specs.Texts.{IsMini, Refuses, Decided};
ghost use Rattle.tdl_mini_grammar.specs.inside.Readable.{IsPiece};
ghost use Rattle.tdl_lexer.specs.declared.signs.Token.{Token};
ghost use Rattle.tdl_lexer.specs.MiniForms.{mini_notation};
ghost use Rattle.tdl_lexer.specs.Tokens.{NextToken};

/// A text has one tree at most, no fault where it has one, and one first fault at most.
pub fn texts_are_read_in_one_way()
    ensures one_tree { (kind : Kind) (text : List ℕ) (a b : tree.Layers) → IsMini kind text a → IsMini kind text b → a ≡ b }
    ensures not_both { (kind : Kind) (text : List ℕ) (ls : tree.Layers) (k : MiniKind) (n : ℕ) → IsMini kind text ls → Refuses kind text (At k n) → ⊥ }
    ensures one_fault { (kind : Kind) (text : List ℕ) (k l : MiniKind) (m n : ℕ) → Refuses kind text (At k m) → Refuses kind text (At l n) → (k ≡ l) × (m ≡ n) }
{}

/// Each text of a kind has a tree, or a first fault.
pub fn each_text_is_read()
    ensures { (kind : Kind) (text : List ℕ) → Decided kind text }
{}

/// The tokens of a text are read, test by test, up to the first that does not hold.
fn reads_are_run()
    ensures { (kind : Kind) (tokens : List Tok) (ls : tree.Layers) (tested : Bool) → Reads kind tokens ls → IsRunAs tested kind tokens ls }
{}

/// What the machine reads to its end is spelled by the tree that it makes.
fn what_is_read_is_spelled()
    ensures sound { (kind : Kind) (tokens : List Tok) (s : State) → Reaches false kind tokens s → s.stage ≡ ended → Reads kind tokens s.level.layers }
{}

/// What the machine counts, and what its tests change.
fn tokens_are_counted()
    ensures read { (tested : Bool) (tokens : List Tok) (s f : State) → run tested s tokens ≡ Ok f → f.read ≡ s.read + length tokens }
    ensures depth { (tested : Bool) (tokens : List Tok) (s f : State) → run tested s tokens ≡ Ok f → length f.frames ≡ depth_from (length s.frames) tokens }
    ensures untested { (tokens : List Tok) (s f : State) → run true s tokens ≡ Ok f → run false s tokens ≡ Ok f }
    ensures refused { (tested : Bool) (s : State) (t : Tok) (kind : MiniKind) (at : ℕ) → taken tested s t ≡ Err (wrong kind at) → IsWrongHere s t kind at }
    ensures failing { (s : State) (t : Tok) (test : Test) → taken true s t ≡ Err (failed test) → FailsHere s t test }
{}

/// A text that is not at its end can be closed.
fn open_texts_can_be_closed()
    ensures closes { (kind : Kind) (front : List Tok) (s : State) → Reaches false kind front s → (s.stage ≡ ended → ⊥) → CanClose s }
    ensures at_fault { (kind : Kind) (front : List Tok) (s : State) (test : Test) → Reaches false kind front s → FailsAtEnd s test → CanCloseAt s test }
{}

/// Where the tested machine stops at a token, its fault is the text's first.
fn faults_are_found()
    ensures found { (kind : Kind) (front : List Tok) (next : Tok) (fault : Fault) → StopsAt kind front next fault → IsFaultAfter kind front next fault }
    ensures text { (kind : Kind) (tokens : List Tok) (s : State) → Reaches true kind tokens s → s.stage ≡ ended → IsText kind tokens s.level.layers }
{}

/// Tokens have one first fault at most, which stands at one of them, none where they are a text, and one tree
/// at most.
fn faults_are_one()
    ensures one_fault { (kind : Kind) (tokens : List Tok) (k l : MiniKind) (m n : ℕ) → IsFault kind tokens k m → IsFault kind tokens l n → (k ≡ l) × (m ≡ n) }
    ensures not_both { (kind : Kind) (tokens : List Tok) (ls : tree.Layers) (k : MiniKind) (n : ℕ) → IsText kind tokens ls → IsFault kind tokens k n → ⊥ }
    ensures one_tree { (kind : Kind) (tokens : List Tok) (a b : tree.Layers) → Reads kind tokens a → Reads kind tokens b → a ≡ b }
    ensures within { (kind : Kind) (tokens : List Tok) (fault : MiniKind) (at : ℕ) → IsFault kind tokens fault at → at < length tokens }
{}

/// The next token of a text that is cut has the form that the grammar needs.
fn next_tokens_are_pieces()
    ensures { (text : List ℕ) (from : ℕ) (t : Token) → NextToken mini_notation text from t → IsPiece text t }
{}
