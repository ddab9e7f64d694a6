// What texts mean, said of the texts and of the patterns that their parts mean.
ghost use Rattle.std.specs.Prelude.{◌≡◌, ℕ, ℤ, pos, ◌+ℤ◌, List, [], ◌∷◌, ◌++◌, map, None, Option};
ghost use Rattle.tdl_expr.specs.EqualShares.{in_equal_shares};
ghost use Rattle.tdl_mini_tree.specs.declared.leaves.Kind.{Kind};
ghost use Rattle.tdl_mini_tree.specs.declared.leaves.Kind.TheVariants.{Sound};
ghost use Rattle.tdl_mini_tree.specs.declared.leaves.Number.{Number};
ghost use Rattle.tdl_mini_tree.specs.Tree.{Layers, MiniStep, played, hold, repeat};
ghost use Rattle.tdl_mini_grammar.specs.Texts.{IsMini};
ghost use Rattle.tdl_mini.specs.Laws.{once, twice_as_long, alone, pair, turns, tree_of, means, text, Beat, beat_tree, flat, AreTokensOf};
ghost use Rattle.tdl_mini.specs.Laws.{HasHalves, later, AreAlike, HaveOneTree};

/// `a b` is `a` in the first half of each cycle and `b` in the second: each half has the whole of the step's
/// own cycle. More steps one after another have equal shares, as `a b c` has thirds.
pub fn steps_share_the_cycle()
    ensures two { (kind : Kind) (a b : MiniStep) (c : ℤ) → HasHalves (means kind (pair a b)) (means kind (alone a)) (means kind (alone b)) c }
    ensures all { (kind : Kind) (steps : List MiniStep) → tree_of kind (map once steps) ≡ in_equal_shares (map (λ a. tree_of kind (alone a)) steps) }
{}

/// `<a b>` plays `a` in even cycles and `b` in odd ones, and each goes on where it was: in cycles 2k and 2k + 1
/// they play their own cycle k.
pub fn angles_take_turns()
    ensures even { (kind : Kind) (a b : MiniStep) (k : ℤ) → means kind (turns a b) (k +ℤ k) ≡ later k (means kind (alone a) k) }
    ensures odd { (kind : Kind) (a b : MiniStep) (k : ℤ) → means kind (turns a b) (k +ℤ k +ℤ pos 1) ≡ later (k +ℤ pos 1) (means kind (alone b) k) }
{}

/// `a _` is `a@2`, wherever it stands.
pub fn a_hold_doubles()
    ensures { (a : MiniStep) → AreAlike (once a ∷ hold ∷ []) (twice_as_long a ∷ []) }
{}

/// `a !` is `a a`, wherever it stands and whatever weight `a` has.
pub fn a_repeat_is_the_step_again()
    ensures { (a : MiniStep) (weight : Option Number) → HaveOneTree (played a weight None ∷ repeat ∷ []) (played a weight None ∷ played a weight None ∷ []) }
{}

/// A text of names and rests alone has the flat tree: silence for none of them, the sound or the silence of
/// one, and for more of them those in equal shares of the cycle. A text whose tokens are names and rests is read
/// as such a text.
pub fn flat_texts_have_flat_trees()
    ensures read { (bytes : List ℕ) (ls : Layers) (beats : List Beat) → AreTokensOf bytes beats → IsMini Sound bytes ls → ls ≡ text (flat beats) }
    ensures tree { (beats : List Beat) → tree_of Sound (flat beats) ≡ in_equal_shares (map beat_tree beats) }
{}
