// How low and how high the values of an argument are.
ghost use Rattle.std.specs.Prelude.{◌≡◌, ◌↔◌, ◌*◌, ◌^◌, ◌<◌, ◌≤◌, ◌&&◌, pos, neg_ℤ, unsigned_abs, IsTrue, List, [], ◌∷◌, ◌++◌, map};
ghost use lib.Signed.{le_z};
ghost use Rattle.tdl_fraction.specs.Rational.{Rational, frac, whole};
ghost use Rattle.tdl_mini_tree.specs.Numbers.{number_value};
ghost use Rattle.tdl_mini_tree.specs.Values.{range_of, is_accepted};
ghost use Rattle.tdl_mini_tree.specs.Extremes.{AreExtremes};

use crate::leaves::Number;

// How many steps a rhythm has at most.
const MAX_RHYTHM: i128 = 128;

/// The least and the greatest of some numbers; none where there is no number.
#[derive(Clone, Copy)]
pub struct Extremes {
    ends: Option<(i128, i128)>,
}

impl Extremes {
    /// Of no number.
    pub fn empty() -> Extremes
        ensures { AreExtremes result [] }
    {
        Extremes { ends: None }
    }

    /// Of the value of a number: of what is above the line in lowest terms.
    pub fn of_number(number: Number) -> Extremes
        ensures { AreExtremes result (number_value number ∷ []) }
    {
        let value = numerator(number);
        Extremes {
            ends: Some((value, value)),
        }
    }

    /// Of the whole numbers from one to another.
    pub fn of_range(first: Number, last: Number) -> Extremes
        ensures { AreExtremes result (map whole (range_of first last)) }
    {
        let from = i128::from(first.integer());
        let to = i128::from(last.integer());
        Extremes {
            ends: Some((from.min(to), from.max(to))),
        }
    }

    /// Of these numbers and the others.
    pub fn and(self, other: Extremes) -> Extremes
        ensures { (these others : List Rational) → AreExtremes self these → AreExtremes other others → AreExtremes result (these ++ others) }
    {
        match (self.ends, other.ends) {
            (None, _) => other,
            (_, None) => self,
            (Some((low, high)), Some((other_low, other_high))) => Extremes {
                ends: Some((low.min(other_low), high.max(other_high))),
            },
        }
    }

    pub fn is_empty(self) -> bool
        ensures { (values : List Rational) → AreExtremes self values → IsTrue result ↔ (values ≡ []) }
    {
        self.ends.is_none()
    }

    /// Whether there is a rhythm for each choice of hits, which are these, and of steps.
    pub fn has_rhythms(self, steps: Extremes) -> bool
        ensures { (hit_values step_values : List Rational) → AreExtremes self hit_values → AreExtremes steps step_values → result
            ≡ is_accepted hit_values step_values }
    {
        match (self.ends, steps.ends) {
            (None, _) => true,
            (_, None) => true,
            (Some((low, high)), Some((least, most))) => are_rhythms(low, high, least, most),
        }
    }
}

// Whether there is a rhythm for each choice of hits from `low` to `high`, and of steps from `least` to
// `most`, where these four are themselves such numbers.
fn are_rhythms(low: i128, high: i128, least: i128, most: i128) -> bool
    ensures { result ≡ (le_z (pos 1) least && (le_z most (pos 128) && (le_z high least && le_z (neg_ℤ least) low))) }
{
    least >= 1 && most <= MAX_RHYTHM && high <= least && low >= -least
}

// What is above the line in the value of a number, which is zero with no denominator.
fn numerator(number: Number) -> i128
    ensures { result ≡ (number_value number).num }
{
    match number.value() {
        Some(value) => value.numerator(),
        None => 0,
    }
}
