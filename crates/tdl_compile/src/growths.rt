//! By how much at most the times that are met in a tree are finer, and further, than what it is asked for.
ghost use Rattle.std.specs.Prelude.{◌≡◌, ◌+◌, ◌*◌, max, nat_abs, pos};
ghost use Rattle.std.specs.Int.{div_ceil};
ghost use Rattle.tdl_fraction.specs.Rational.{whole, ◌<ℚ◌};
ghost use Rattle.tdl_expr.specs.Tree.{Tree};
ghost use Rattle.tdl_expr.specs.Bounds.{upper, lower};
ghost use Rattle.tdl_compile.specs.Compiled.{capped};
ghost use Rattle.tdl_compile.specs.inside.Sizes.{KeepsBounds, NumbersStandFor, GrowsBelow};

use crate::numbers::{capped, quotient_up};
use crate::sizes::{Growth, RowBounds};
use tdl_fraction::Frac;

impl Growth {
    /// Where nothing is below.
    pub(crate) fn none() -> Growth
        ensures finer { result.finer ≡ 0 }
        ensures further { result.further ≡ 1 }
    {
        Growth {
            finer: 0,
            further: 1,
        }
    }

    /// The greater of each of the numbers.
    pub(crate) fn with(self, other: Growth) -> Growth
        ensures finer { result.finer ≡ max self.finer other.finer }
        ensures further { result.further ≡ max self.further other.further }
    {
        Growth {
            finer: self.finer.max(other.finer),
            further: self.further.max(other.further),
        }
    }

    /// Below what asks so many times as finely.
    pub(crate) fn asked_finer(self, times: u64) -> Growth
        ensures finer { result.finer ≡ capped (self.finer * times) }
        ensures further { result.further ≡ self.further }
    {
        Growth {
            finer: self.finer.saturating_mul(times),
            further: self.further,
        }
    }

    // Below what asks so many times as far.
    fn asked_further(self, times: u64) -> Growth
        ensures finer { result.finer ≡ self.finer }
        ensures further { result.further ≡ capped (self.further * times) }
    {
        Growth {
            finer: self.finer,
            further: self.further.saturating_mul(times),
        }
    }

    pub(crate) fn fast(self, rate: Frac) -> Growth
        requires { whole (pos 0) <ℚ rate }
        ensures finer { result.finer ≡ capped (self.finer * lower rate) }
        ensures further { result.further ≡ capped (self.further * capped (upper rate)) }
    {
        let most = capped(rate.numerator().unsigned_abs());
        self.asked_finer(rate.denominator()).asked_further(most)
    }

    pub(crate) fn shift(self, by: Frac) -> Growth
        ensures finer { result.finer ≡ capped (self.finer * lower by) }
        ensures further { result.further ≡ capped (self.further * capped (capped (div_ceil (nat_abs by.num) by.den) + 1)) }
    {
        let moved = quotient_up(by.numerator().unsigned_abs(), by.denominator() as u128);
        let most = capped(moved).saturating_add(1);
        self.asked_finer(by.denominator()).asked_further(most)
    }

    /// Of the side of a join that is asked for the wholes of this other side.
    pub(crate) fn at_wholes(self, other: RowBounds) -> Growth
        ensures finer { result.finer ≡ capped (self.finer * other.grid) }
        ensures further { result.further ≡ capped (self.further * capped (capped other.hang + 1)) }
    {
        let most = capped(other.hang).saturating_add(1);
        self.asked_finer(other.grid).asked_further(most)
    }
}

impl RowBounds {
    /// With what the tree itself meets, where the growth is that of what is below.
    pub(crate) fn with_own(self) -> RowBounds
        ensures { (e : Tree) → KeepsBounds self e → GrowsBelow self.growth e → NumbersStandFor result e }
    {
        let own = Growth {
            finer: self.grid,
            further: capped(self.hang).saturating_add(1),
        };
        RowBounds {
            count: self.count,
            load: self.load,
            hang: self.hang,
            grid: self.grid,
            growth: self.growth.with(own),
        }
    }
}
