//! A solver for equations between expressions of a commutative ring.
//!
//! What other crates take from this one are the lemmas in `proofs/`; the functions here run nothing, and
//! each has for its contract what those lemmas stand on.
#![tactic(auto)]

ghost use Rattle.std.specs.Prelude.{◌≡◌, List, length, ℤ, pos, ◌+ℤ◌, ◌*ℤ◌, neg_ℤ};
ghost use Rattle.tdl_ring.specs.Ring.{CommutativeRing};
ghost use Rattle.tdl_ring.specs.Expression.{Expression, value};
ghost use Rattle.tdl_ring.specs.Normal.{normal};
ghost use Rattle.tdl_ring.specs.Pairs.{Inverses, with_inverses, strike};

/// The whole numbers, with their sums, products and opposites, are a commutative ring.
pub fn integers_form_a_commutative_ring()
    ensures plus_associative { (a b c : ℤ) → (a +ℤ b) +ℤ c ≡ a +ℤ (b +ℤ c) }
    ensures plus_commutative { (a b : ℤ) → a +ℤ b ≡ b +ℤ a }
    ensures zero_neutral { (a : ℤ) → a +ℤ pos 0 ≡ a }
    ensures opposites { (a : ℤ) → a +ℤ neg_ℤ a ≡ pos 0 }
    ensures times_associative { (a b c : ℤ) → (a *ℤ b) *ℤ c ≡ a *ℤ (b *ℤ c) }
    ensures times_commutative { (a b : ℤ) → a *ℤ b ≡ b *ℤ a }
    ensures one_neutral { (a : ℤ) → a *ℤ pos 1 ≡ a }
    ensures distributive { (a b c : ℤ) → a *ℤ (b +ℤ c) ≡ (a *ℤ b) +ℤ (a *ℤ c) }
{}

/// Expressions of one normal form have equal values, in any commutative ring and at any atoms.
pub fn one_normal_form_is_one_value<A>()
    ensures sound { (R : CommutativeRing A) (atoms : List A) (e f : Expression) → normal e ≡ normal f → value R atoms e ≡ value R atoms f }
{}

/// So have expressions whose normal forms are one when each atom is struck out against its inverse.
pub fn one_struck_form_is_one_value<A>()
    ensures sound { (R : CommutativeRing A) (pairs : List (Inverses R)) (others : List A) (e f : Expression)
        → strike (length pairs) (normal e) ≡ strike (length pairs) (normal f)
        → value R (with_inverses pairs others) e ≡ value R (with_inverses pairs others) f }
{}
