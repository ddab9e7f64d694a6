ghost use Rattle.std.specs.Prelude.{◌≡◌, ◌≢◌, ◌↔◌, ◌*◌, ◌^◌, ◌<◌, ◌≤◌, pos, ◌*ℤ◌, IsTrue, IsSome, IfSome, unsigned_abs, false};
ghost use Rattle.std.specs.Ordering.{MatchOrdering};
ghost use Rattle.std.specs.Cmp.Rules.{comparing};
ghost use Rattle.std.proofs.Common.{rules};
ghost use Rattle.std.specs.declared.cmp.Ordering.TheVariants.{Less, Equal, Greater};
ghost use Rattle.tdl_fraction.specs.Range.{InRange};
ghost use Rattle.tdl_fraction.specs.Same.{same_ℚ};
ghost use Rattle.tdl_fraction.specs.Rational.{frac, whole, ◌+ℚ◌, ◌-ℚ◌, ◌*ℚ◌, ◌/ℚ◌, lt_ℚ, ◌<ℚ◌, ◌≤ℚ◌, min_ℚ, max_ℚ, floor, ceil};

use crate::divisor::{lowest_terms, without_divisor};
use std::cmp::Ordering;
use std::marker::Model;

const MAX_DENOMINATOR: u128 = 1 << 44;

const MAX_SIZE: u128 = 1 << 36;

// The greatest factor of `times_plus_over`.
const MAX_TIMES: u64 = 1 << 44;

/// A fraction in lowest terms, with a denominator of 1 to 2^44 and a size of at most 2^36.
#[derive(Clone, Copy)]
pub struct Frac {
    num: i128,
    den: u64,
}

impl Model for Frac {
    ghost use Rattle.tdl_fraction.specs.Rational.{Rational, frac};
    ghost use Rattle.tdl_fraction.specs.Range.{IsFraction};
    ghost use Rattle.tdl_fraction.specs.Stored.{rational_code};
    ghost use Rattle.tdl_fraction.specs.OwnParts.{frac-lowest};
    ghost use Rattle.std.proofs.Common.{ap};

    ghost Value = { Rational };

    ghost coded = { rational_code };

    ghost view = { λ f. frac f.num f.den };

    ghost invariant = { λ f. IsFraction f.num f.den };

    ghost inverse = { λ x. record { num = x.num; den = x.den } };

    ghost inverse_ok = { λ f h. ap (λ x. record { num = x.num; den = x.den }) (frac-lowest f.num f.den h.lowest) };
}

impl Frac {
    /// The fraction `num / den`. None where `den` is 0, or the value is out of range.
    pub fn of(num: i128, den: u64) -> Option<Frac>
        ensures found { IsSome result ↔ ((den ≢ 0) × InRange (frac num den)) }
        ensures value { IfSome result (λ x. x ≡ frac num den) }
    {
        if den == 0 {
            return None;
        }
        Frac::in_range(num, den as u128)
    }

    /// A whole number of at most 2^36 in size.
    pub fn whole(n: i64) -> Frac
        requires { unsigned_abs n ≤ 2 ^ 36 }
        ensures { result ≡ whole n }
    {
        Frac {
            num: n as i128,
            den: 1,
        }
    }

    /// So many ten-thousandths.
    pub fn ten_thousandths(count: i64) -> Frac
        requires { unsigned_abs count ≤ 2 ^ 49 }
        ensures { result ≡ frac count 10000 }
    {
        Frac::from_parts(count as i128, 10000)
    }

    /// The number above the line, with the sign.
    pub fn numerator(self) -> i128
        ensures value { result ≡ self.num }
        ensures in_range { InRange self }
    {
        self.num
    }

    /// The number below the line, at least 1.
    pub fn denominator(self) -> u64
        ensures value { result ≡ self.den }
        ensures positive { 0 < result }
        ensures in_range { InRange self }
    {
        self.den
    }

    /// The exact sum, which has to be in range.
    pub fn add(self, other: Frac) -> Frac
        requires { InRange (self +ℚ other) }
        ensures { result ≡ self +ℚ other }
    {
        if other.denominator() == 1 {
            return self.add_whole(other.numerator() as i64);
        }
        let (sum, den) = self.sum(other);
        Frac::from_parts(sum, den)
    }

    /// The exact difference, which has to be in range.
    pub fn sub(self, other: Frac) -> Frac
        requires { InRange (self -ℚ other) }
        ensures { result ≡ self -ℚ other }
    {
        if other.denominator() == 1 {
            return self.add_whole(-(other.numerator() as i64));
        }
        let (difference, den) = self.difference(other);
        Frac::from_parts(difference, den)
    }

    /// The exact product, which has to be in range.
    pub fn mul(self, other: Frac) -> Frac
        requires { InRange (self *ℚ other) }
        ensures { result ≡ self *ℚ other }
    {
        if let Ok(times) = u64::try_from(other.numerator())
            && times <= MAX_TIMES
        {
            return self.times_plus_over(times, 0, other.denominator());
        }
        let product = self.numerator() * other.numerator();
        Frac::from_parts(product, self.common_denominator(other))
    }

    /// The exact quotient, which has to be in range. The divisor is not 0.
    pub fn div(self, other: Frac) -> Frac
        requires divisor { other ≢ whole (pos 0) }
        requires in_range { InRange (self /ℚ other) }
        ensures { result ≡ self /ℚ other }
    {
        if let Ok(over) = u64::try_from(other.numerator()) {
            return self.times_plus_over(other.denominator(), 0, over);
        }
        let (quotient, den) = self.quotient(other);
        Frac::from_parts(quotient, den)
    }

    /// The exact sum with a whole number, which has to be in range.
    pub fn add_whole(self, count: i64) -> Frac
        requires { InRange (self +ℚ whole count) }
        ensures { result ≡ self +ℚ whole count }
    {
        let den = self.denominator();
        Frac {
            num: self.numerator() + count as i128 * den as i128,
            den,
        }
    }

    /// The whole number less this one, which has to be in range.
    pub fn taken_from(self, count: i64) -> Frac
        requires { InRange (whole count -ℚ self) }
        ensures { result ≡ whole count -ℚ self }
    {
        let den = self.denominator();
        Frac {
            num: count as i128 * den as i128 - self.numerator(),
            den,
        }
    }

    /// `(self * times + plus) / over`, exactly, which has to be in range. It takes fewer divisions than step by step.
    pub fn times_plus_over(self, times: u64, plus: i64, over: u64) -> Frac
        requires times { times ≤ 2 ^ 44 }
        requires over { 0 < over }
        requires in_range { InRange ((self *ℚ whole (pos times) +ℚ whole plus) /ℚ whole (pos over)) }
        ensures { result ≡ (self *ℚ whole (pos times) +ℚ whole plus) /ℚ whole (pos over) }
    {
        let (num, den) = self.times_plus(times, plus);
        let (num, over) = lowest_terms(num, over as u128);
        Frac {
            num,
            den: den * over as u64,
        }
    }

    /// The exact sum. None where it is out of range.
    pub fn try_add(self, other: Frac) -> Option<Frac>
        ensures found { IsSome result ↔ InRange (self +ℚ other) }
        ensures value { IfSome result (λ x. x ≡ self +ℚ other) }
    {
        let (sum, den) = self.sum(other);
        Frac::in_range(sum, den)
    }

    /// The exact difference. None where it is out of range.
    pub fn try_sub(self, other: Frac) -> Option<Frac>
        ensures found { IsSome result ↔ InRange (self -ℚ other) }
        ensures value { IfSome result (λ x. x ≡ self -ℚ other) }
    {
        let (difference, den) = self.difference(other);
        Frac::in_range(difference, den)
    }

    /// The exact product. None where it is out of range.
    pub fn try_mul(self, other: Frac) -> Option<Frac>
        ensures found { IsSome result ↔ InRange (self *ℚ other) }
        ensures value { IfSome result (λ x. x ≡ self *ℚ other) }
    {
        let product = self.numerator().checked_mul(other.numerator())?;
        Frac::in_range(product, self.common_denominator(other))
    }

    /// The exact quotient. None where the divisor is 0, or the quotient is out of range.
    pub fn try_div(self, other: Frac) -> Option<Frac>
        ensures found { IsSome result ↔ ((other ≢ whole (pos 0)) × InRange (self /ℚ other)) }
        ensures value { IfSome result (λ x. x ≡ self /ℚ other) }
    {
        if other.numerator() == 0 {
            return None;
        }
        let (quotient, den) = self.quotient(other);
        Frac::in_range(quotient, den)
    }

    /// Which of the two numbers is the lesser.
    pub fn compare(self, other: Frac) -> Ordering
        ensures less { (result ≡ Less) ↔ (self <ℚ other) }
        ensures equal { (result ≡ Equal) ↔ (self ≡ other) }
        ensures greater { (result ≡ Greater) ↔ (other <ℚ self) }
        ensures cases { MatchOrdering result (self <ℚ other) (self ≡ other) (other <ℚ self) }
    {
        self.cross_product(other).cmp(&other.cross_product(self))
    }

    /// Whether the number is below the other one.
    pub fn is_less(self, other: Frac) -> bool
        ensures less { IsTrue result ↔ (self <ℚ other) }
        ensures not_less { (result ≡ false) ↔ (other ≤ℚ self) }
        ensures value { result ≡ lt_ℚ self other }
        ensures in_range { InRange self × InRange other }
    {
        self.cross_product(other) < other.cross_product(self)
    }

    /// The lesser of the two.
    pub fn min(self, other: Frac) -> Frac
        ensures value { result ≡ min_ℚ self other }
        ensures in_range { InRange result }
    {
        if other.is_less(self) { other } else { self }
    }

    /// The greater of the two.
    pub fn max(self, other: Frac) -> Frac
        ensures value { result ≡ max_ℚ self other }
        ensures in_range { InRange result }
    {
        if other.is_less(self) { self } else { other }
    }

    /// The greatest whole number that is not above this one.
    pub fn floor(self) -> i64
        ensures value { result ≡ floor self }
        ensures bound { unsigned_abs result ≤ 2 ^ 36 }
    {
        if self.denominator() == 1 {
            return self.numerator() as i64;
        }
        self.numerator().div_euclid(self.denominator() as i128) as i64
    }

    /// The least whole number that is not below this one.
    pub fn ceil(self) -> i64
        ensures value { result ≡ ceil self }
        ensures bound { unsigned_abs result ≤ 2 ^ 36 }
    {
        if self.denominator() == 1 {
            return self.numerator() as i64;
        }
        -((-self.numerator()).div_euclid(self.denominator() as i128) as i64)
    }

    /// The fraction `num / den`, brought to lowest terms. It has to be in range.
    pub fn from_parts(num: i128, den: u128) -> Frac
        requires positive { 0 < den }
        requires bound { den < 2 ^ 127 }
        requires in_range { InRange (frac num den) }
        ensures { result ≡ frac num den }
    {
        let (num, den) = lowest_terms(num, den);
        Frac {
            num,
            den: den as u64,
        }
    }

    /// The fraction `num / den`. None where the value is out of range.
    fn in_range(num: i128, den: u128) -> Option<Frac>
        requires positive { 0 < den }
        requires bound { den < 2 ^ 127 }
        ensures found { IsSome result ↔ InRange (frac num den) }
        ensures value { IfSome result (λ x. x ≡ frac num den) }
    {
        let (num, den) = lowest_terms(num, den);
        if den > MAX_DENOMINATOR || num.unsigned_abs() > MAX_SIZE * den {
            return None;
        }
        Some(Frac {
            num,
            den: den as u64,
        })
    }

    /// The numerator and the denominator of `self * times + plus`.
    fn times_plus(self, times: u64, plus: i64) -> (i128, u64)
        requires { times ≤ 2 ^ 44 }
        ensures numerator { result.0 ≡ (self *ℚ whole (pos times) +ℚ whole plus).num }
        ensures denominator { result.1 ≡ (self *ℚ whole (pos times) +ℚ whole plus).den }
    {
        let (times, den) = without_divisor(times, self.denominator());
        let num = self.numerator() * times as i128 + plus as i128 * den as i128;
        (num, den)
    }

    /// A numerator and a denominator of the sum.
    fn sum(self, other: Frac) -> (i128, u128)
        ensures value { frac result.0 result.1 ≡ self +ℚ other }
        ensures positive { 0 < result.1 }
        ensures bound { result.1 < 2 ^ 127 }
    {
        let den = self.denominator();
        if den == other.denominator() {
            return (self.numerator() + other.numerator(), den as u128);
        }
        let sum = self.cross_product(other) + other.cross_product(self);
        (sum, self.common_denominator(other))
    }

    /// A numerator and a denominator of the difference.
    fn difference(self, other: Frac) -> (i128, u128)
        ensures value { frac result.0 result.1 ≡ self -ℚ other }
        ensures positive { 0 < result.1 }
        ensures bound { result.1 < 2 ^ 127 }
    {
        let den = self.denominator();
        if den == other.denominator() {
            return (self.numerator() - other.numerator(), den as u128);
        }
        let difference = self.cross_product(other) - other.cross_product(self);
        (difference, self.common_denominator(other))
    }

    /// A numerator and a denominator of the quotient by a number other than 0.
    fn quotient(self, other: Frac) -> (i128, u128)
        requires divisor { other ≢ whole (pos 0) }
        ensures value { frac result.0 result.1 ≡ self /ℚ other }
        ensures positive { 0 < result.1 }
        ensures bound { result.1 < 2 ^ 127 }
    {
        let above = self.cross_product(other);
        let below = other.cross_product(self);
        if below < 0 {
            return (-above, below.unsigned_abs());
        }
        (above, below.unsigned_abs())
    }

    /// The numerator of `self` over the product of both denominators.
    fn cross_product(self, other: Frac) -> i128
        ensures value { result ≡ self.num *ℤ pos other.den }
        ensures bound { unsigned_abs result ≤ 2 ^ 124 }
    {
        self.numerator() * other.denominator() as i128
    }

    /// The product of both denominators.
    fn common_denominator(self, other: Frac) -> u128
        ensures value { result ≡ self.den * other.den }
        ensures positive { 0 < result }
        ensures bound { result ≤ 2 ^ 88 }
    {
        self.denominator() as u128 * other.denominator() as u128
    }
}

impl PartialEq for Frac {
    ghost eq = { same_ℚ };

    ghost laws = { Prim.search (comparing, rules) };

    fn eq(&self, other: &Frac) -> bool
        ensures value { result ≡ same_ℚ self.now other.now }
        ensures same { IsTrue result ↔ (self.now ≡ other.now) }
    {
        self.numerator() == other.numerator() && self.denominator() == other.denominator()
    }
}

impl Eq for Frac {
    ghost laws = { Prim.search (comparing, rules) };
}
