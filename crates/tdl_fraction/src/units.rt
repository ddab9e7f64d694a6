//! The grid of times: a cycle has 46,080 tick units, and ticks and queries stop at cycle 1,048,576.
ghost use Rattle.std.specs.Prelude.{◌≡◌, ◌↔◌, ◌≤◌, ℕ, pos, IsTrue, IfSome, IfNone};
ghost use Rattle.tdl_fraction.specs.Rational.{◌≤ℚ◌, whole, IsMultiple};
ghost use Rattle.tdl_fraction.specs.Digits.{digits_bytes};
ghost use Rattle.tdl_fraction.specs.Printing.{print_of};
ghost use Rattle.tdl_fraction.specs.Arc.{IsArc};
ghost use Rattle.tdl_fraction.specs.Units.{tick_units, most_units, last_cycle, time_of, IsOnGrid, IsQueryArc};

use crate::arc::TimeArc;
use crate::digits::Digits;
use crate::fraction::Frac;

/// A cycle has so many tick units.
pub const TICK_UNITS: u64 = 46_080;

/// Ticks and queries stop at this cycle.
pub const LAST_CYCLE: u32 = 1 << 20;

/// The last cycle, in tick units.
pub const LAST_UNITS: u64 = TICK_UNITS << 20;

/// So many tick units, as a time in cycles.
pub fn time_of(units: u64) -> Frac
    requires { units ≤ most_units }
    ensures { result ≡ time_of units }
{
    Frac::of(units as i128, TICK_UNITS).unwrap()
}

/// A time in cycles, as a count of tick units. None where it is below 0 or no whole count.
pub fn units_of(time: Frac) -> Option<u64>
    ensures some { IfSome result (λ units. time ≡ time_of units) }
    ensures in_range { IfSome result (λ units. units ≤ most_units) }
    ensures none { IfNone result ((units : ℕ) → time ≡ time_of units → ⊥) }
    ensures off_grid { IfNone result (whole (pos 0) ≤ℚ time → IsMultiple tick_units time → ⊥) }
{
    if time.is_less(Frac::whole(0)) || !is_whole_count(time) {
        return None;
    }
    let unit = time.denominator();
    Some(time.numerator().unsigned_abs() as u64 * (TICK_UNITS / unit))
}

/// The text of so many tick units as a number of cycles, a fraction in lowest terms.
pub fn print_units(units: u64) -> Digits
    requires { units ≤ most_units }
    ensures { digits_bytes result ≡ print_of (time_of units) }
{
    time_of(units).print()
}

impl TimeArc {
    /// Whether the arc lies from 0 up to the last cycle, with both ends on the tick grid.
    pub fn is_query_arc(self) -> bool
        ensures { IsTrue result ↔ IsQueryArc self }
    {
        self.is_within_cycles() && self.is_on_grid()
    }

    /// Whether both ends of the arc are whole counts of tick units.
    pub fn is_on_grid(self) -> bool
        ensures { IsTrue result ↔ IsOnGrid self }
    {
        is_whole_count(self.start()) && is_whole_count(self.stop())
    }

    // Whether the arc lies from 0 up to the last cycle.
    fn is_within_cycles(self) -> bool
        ensures within { IsTrue result ↔ ((whole (pos 0) ≤ℚ self.start) × (self.stop ≤ℚ whole (pos last_cycle))) }
        ensures arc { IsArc self }
    {
        is_at_most(Frac::whole(0), self.start())
            && is_at_most(self.stop(), Frac::whole(LAST_CYCLE as i64))
    }
}

fn is_at_most(low: Frac, high: Frac) -> bool
    ensures { IsTrue result ↔ (low ≤ℚ high) }
{
    !high.is_less(low)
}

// Whether a time is a whole count of tick units.
fn is_whole_count(time: Frac) -> bool
    ensures { IsTrue result ↔ IsMultiple tick_units time }
{
    TICK_UNITS % time.denominator() == 0
}
