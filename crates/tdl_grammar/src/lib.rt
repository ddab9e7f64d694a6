//! What is the same for every grammar: what a text is, what the first fault of other tokens is, and that
//! a machine that takes token by token finds it.
//!
//! What other crates take from this one are its definitions and the lemmas in `proofs/`; the function here
//! runs nothing, and has for its contract what the definitions say by themselves.
#![tactic(auto)]

ghost use Rattle.std.specs.Prelude.{◌≡◌, List};
ghost use Rattle.tdl_grammar.specs.Faults.{IsText, IsFault};
ghost use Rattle.tdl_grammar.specs.Decidable.{Rules, grammar_of};

/// A text has no fault, and the first fault of other tokens stands after one front of them, at one token.
pub fn faults_stand_after_one_front<Token, Tree, Kind, Place>()
    ensures not_both { (r : Rules Token Tree Kind Place) (tokens : List Token) (tree : Tree) (kind : Kind) (at : Place)
        → IsText (grammar_of r) tokens tree → IsFault (grammar_of r) tokens kind at → ⊥ }
    ensures one_front { (r : Rules Token Tree Kind Place) (tokens : List Token) (k l : Kind) (a b : Place)
        (h : IsFault (grammar_of r) tokens k a) (j : IsFault (grammar_of r) tokens l b) → (h.front ≡ j.front) × (h.next ≡ j.next) }
{}
