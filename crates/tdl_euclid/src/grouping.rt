ghost use Rattle.std.specs.Prelude.{◌≡◌, ℕ, ◌+◌, ◌<◌, ◌≤◌, length, IsTrue, false};
ghost use Rattle.tdl_euclid.specs.Euclid.{first_lists, can_regroup, regrouped, grouped, laid_out, spread};

use crate::bits::Bits;
use std::marker::Model;

// Equal lists on the left, and equal lists on the right.
#[derive(Drop)]
struct Grouping {
    left: Bits,
    left_count: u32,
    right: Bits,
    right_count: u32,
}

impl Model for Grouping {
    ghost use Rattle.std.specs.Prelude.{◌+◌, ◌*◌, ◌≤◌, length, replicate};
    ghost use Rattle.tdl_euclid.specs.Euclid.{Lists};

    ghost Value = { Lists };

    ghost view = { λ g. record {
      left = replicate g.left_count g.left;
      right = replicate g.right_count g.right;
    } };

    ghost invariant = { λ g. g.left_count * length g.left + g.right_count * length g.right ≤ 128 };
}

impl Grouping {
    fn of(hits: u32, steps: u32) -> Grouping
        requires no_more { hits ≤ steps }
        requires short { steps ≤ 128 }
        ensures { result ≡ first_lists hits steps }
    {
        Grouping {
            left: Bits::one(true),
            left_count: hits,
            right: Bits::one(false),
            right_count: steps - hits,
        }
    }

    fn can_regroup(&self) -> bool
        ensures { result ≡ can_regroup self.now }
    {
        self.left_count.min(self.right_count) > 1
    }

    fn regroup(self) -> Grouping
        requires { IsTrue (can_regroup self) }
        ensures { result ≡ regrouped self }
    {
        let left = self.left.append(self.right);
        if self.left_count > self.right_count {
            return Grouping {
                left,
                left_count: self.right_count,
                right: self.left,
                right_count: self.left_count - self.right_count,
            };
        }
        Grouping {
            left,
            left_count: self.left_count,
            right: self.right,
            right_count: self.right_count - self.left_count,
        }
    }

    fn join(self) -> Bits
        requires { 0 < length self.left + length self.right }
        ensures { result ≡ laid_out self }
    {
        if self.left_count == 0 {
            self.right.repeat(self.right_count)
        } else if self.right_count == 0 {
            self.left.repeat(self.left_count)
        } else {
            let lefts = self.left.repeat(self.left_count);
            lefts.append(self.right.repeat(self.right_count))
        }
    }
}

// So many hits over so many steps.
pub(crate) fn spread(hits: u32, steps: u32) -> Bits
    requires no_more { hits ≤ steps }
    requires some { 0 < steps }
    requires short { steps ≤ 128 }
    ensures value { result ≡ spread hits steps }
    ensures steps { length result ≡ steps }
{
    let mut lists = Grouping::of(hits, steps);
    while lists.can_regroup() {
        lists = lists.regroup();
    }
    lists.join()
}

/// No step of the grouping is left to do after as many as the rhythm has steps.
pub fn grouping_ends()
    ensures { (hits steps : ℕ) → hits ≤ steps → can_regroup (grouped steps (first_lists hits steps)) ≡ false }
{}
