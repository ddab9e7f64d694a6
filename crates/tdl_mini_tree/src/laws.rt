// A law of the definitions.
ghost use Rattle.std.specs.Prelude.{IsTrue};
ghost use Rattle.tdl_mini_tree.specs.declared.leaves.Kind.{Kind};
ghost use Rattle.tdl_mini_tree.specs.Tree as tree;
ghost use Rattle.tdl_mini_tree.specs.Valid.{is_valid};

/// A valid text of counts is a valid text of ratios.
pub fn counts_are_ratios()
    ensures { (ls : tree.Layers) → IsTrue (is_valid Kind.Count ls) → IsTrue (is_valid Kind.Ratio ls) }
{}
