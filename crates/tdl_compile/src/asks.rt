//! What a rate or a shift does to the numbers of its child, and what trees ask of their children.
ghost use Rattle.std.specs.Prelude.{◌≡◌, ◌⊎◌, ◌+◌, ◌-◌, ◌*◌, ◌^◌, ◌<◌, min, max, pos};
ghost use Rattle.std.specs.Int.{div_ceil};
ghost use Rattle.tdl_fraction.specs.Divisor.{lcm};
ghost use Rattle.tdl_fraction.specs.Rational.{whole, ◌<ℚ◌};
ghost use Rattle.tdl_fraction.specs.Range.{InRange};
ghost use Rattle.tdl_expr.specs.Tree.{Tree};
ghost use Rattle.tdl_expr.specs.Bounds.{upper, lower, broken, touched, shift_touches, shared_out, fast_ask, fast_far, shift_ask, shift_far};
ghost use Rattle.tdl_expr.specs.Bounds.{left_ask, right_ask, left_far, right_far};
ghost use Rattle.tdl_compile.specs.Compiled.{capped};
ghost use Rattle.tdl_compile.specs.inside.Sizes.{KeepsBounds, IsTooFine, IsTooFar, fine_below, reach_below, most_hang};

use crate::numbers::{capped, least_multiple, quotient_up, shared_out};
use crate::sizes::{Asked, Extent, RowBounds};
use tdl_expr::Side;
use tdl_fraction::Frac;

// The numerator and the denominator of a rate.
fn parts_of(rate: Frac) -> (u128, u128)
    requires { whole (pos 0) <ℚ rate }
    ensures upper { result.0 ≡ upper rate }
    ensures lower { result.1 ≡ lower rate }
    ensures upper_positive { 0 < result.0 }
    ensures lower_positive { 0 < result.1 }
    ensures in_range { InRange rate }
{
    (rate.numerator().unsigned_abs(), rate.denominator() as u128)
}

// How many cycles of its child a cycle of this rate touches.
pub(crate) fn touched(rate: Frac) -> u64
    requires { whole (pos 0) <ℚ rate }
    ensures { result ≡ capped (touched rate) }
{
    let (upper, lower) = parts_of(rate);
    if lower == 1 {
        return capped(upper);
    }
    if upper == 1 {
        return 1;
    }
    capped(quotient_up(upper, lower).saturating_add(1))
}

// How far wholes of this rate hang over, where those of its child hang over so far. Multiples of the upper part are
// divided before they are multiplied.
pub(crate) fn hang_at(rate: Frac, hang: u128) -> u128
    requires { whole (pos 0) <ℚ rate }
    ensures { result ≡ min (div_ceil ((hang + broken rate) * lower rate) (upper rate)) most_hang }
{
    let (upper, lower) = parts_of(rate);
    let broken = if lower > 1 { 1 } else { 0 };
    if hang < upper {
        return quotient_up((hang + broken) * lower, upper);
    }
    let rest = quotient_up((hang % upper + broken) * lower, upper);
    (hang / upper).saturating_mul(lower).saturating_add(rest)
}

// The grid of this rate, of that of its child.
pub(crate) fn grid_at(rate: Frac, grid: u64) -> u64
    requires rate { whole (pos 0) <ℚ rate }
    requires positive { 0 < grid }
    ensures value { result ≡ capped (shared_out grid (upper rate) (lower rate)) }
    ensures positive { 0 < result }
{
    let (upper, lower) = parts_of(rate);
    shared_out(grid, upper, lower)
}

// On which grid it asks its child.
fn fast_ask(rate: Frac, ask: u64) -> u64
    requires rate { whole (pos 0) <ℚ rate }
    requires positive { 0 < ask }
    ensures value { result ≡ capped (fast_ask rate ask) }
    ensures positive { 0 < result }
{
    let (upper, lower) = parts_of(rate);
    shared_out(ask, lower, upper)
}

// How far it asks its child.
fn fast_far(rate: Frac, far: u64) -> u64
    requires { whole (pos 0) <ℚ rate }
    ensures { result ≡ capped (fast_far rate far) }
{
    let (upper, lower) = parts_of(rate);
    capped(quotient_up((far as u128).saturating_mul(upper), lower))
}

// How many cycles of its child a cycle of this shift touches.
pub(crate) fn shift_touches(by: Frac) -> u64
    ensures { result ≡ shift_touches by }
{
    if by.denominator() > 1 { 2 } else { 1 }
}

// How far wholes hang over that are moved by this, where they hung over so far.
pub(crate) fn shift_hang(by: Frac, hang: u128) -> u128
    ensures { result ≡ min (hang + broken by) most_hang }
{
    let broken = if by.denominator() > 1 { 1 } else { 0 };
    hang.saturating_add(broken)
}

// On which grid a shift asks its child.
fn shift_ask(by: Frac, ask: u64) -> u64
    requires { 0 < ask }
    ensures value { result ≡ capped (shift_ask by ask) }
    ensures positive { 0 < result }
{
    least_multiple(ask, by.denominator())
}

// How far a shift asks its child.
fn shift_far(by: Frac, far: u64) -> u64
    ensures { result ≡ capped (shift_far by far) }
{
    let moved = quotient_up(by.numerator().unsigned_abs(), by.denominator() as u128);
    capped((far as u128).saturating_add(moved))
}

// On which grid a join asks its left side, by the numbers of the right one.
fn left_ask(side: Side, right: RowBounds, ask: u64) -> u64
    requires { 0 < ask }
    ensures value { (d e : Tree) → KeepsBounds right e → (result ≡ capped (left_ask side d e ask)) ⊎ IsTooFine (fine_below e) }
    ensures positive { 0 < result }
{
    match side {
        Side::Left | Side::Both => ask,
        Side::Right => right.grid,
    }
}

// On which grid a join asks its right side, by the numbers of the left one.
fn right_ask(side: Side, left: RowBounds, ask: u64) -> u64
    requires { 0 < ask }
    ensures value { (d e : Tree) → KeepsBounds left d → (result ≡ capped (right_ask side d e ask)) ⊎ IsTooFine (fine_below d) }
    ensures positive { 0 < result }
{
    match side {
        Side::Left => left.grid,
        Side::Right | Side::Both => ask,
    }
}

// How far a join asks its left side, by the numbers of the right one.
fn left_far(side: Side, right: RowBounds, far: u64) -> u64
    ensures { (d e : Tree) → KeepsBounds right e → (result ≡ capped (left_far side d e far)) ⊎ IsTooFar (reach_below e) }
{
    match side {
        Side::Left | Side::Both => far,
        Side::Right => far_and_hang(far, right),
    }
}

// How far a join asks its right side, by the numbers of the left one.
fn right_far(side: Side, left: RowBounds, far: u64) -> u64
    ensures { (d e : Tree) → KeepsBounds left d → (result ≡ capped (right_far side d e far)) ⊎ IsTooFar (reach_below d) }
{
    match side {
        Side::Left => far_and_hang(far, left),
        Side::Right | Side::Both => far,
    }
}

// So far, and by the hang further.
fn far_and_hang(far: u64, row: RowBounds) -> u64
    ensures { result ≡ capped (far + capped row.hang) }
{
    far.saturating_add(capped(row.hang))
}

impl Asked {
    /// What a rate asks its child.
    pub(crate) fn fast(self, rate: Frac) -> Asked
        requires { whole (pos 0) <ℚ rate }
        ensures grid { result.grid ≡ capped (fast_ask rate self.grid) }
        ensures far { result.far ≡ capped (fast_far rate self.far) }
    {
        Asked {
            grid: fast_ask(rate, self.grid),
            far: fast_far(rate, self.far),
        }
    }

    /// What a shift asks its child.
    pub(crate) fn shift(self, by: Frac) -> Asked
        ensures grid { result.grid ≡ capped (shift_ask by self.grid) }
        ensures far { result.far ≡ capped (shift_far by self.far) }
    {
        Asked {
            grid: shift_ask(by, self.grid),
            far: shift_far(by, self.far),
        }
    }

    /// What a step of this weight is asked.
    pub(crate) fn step(self, weight: u64) -> Asked
        requires { 0 < weight }
        ensures grid { result.grid ≡ capped (self.grid * weight) }
        ensures far { result.far ≡ self.far }
    {
        Asked {
            grid: self.grid.saturating_mul(weight),
            far: self.far,
        }
    }

    /// What a choice asks its children, by the numbers of the selector.
    pub(crate) fn chosen(self, selector: RowBounds) -> Asked
        ensures grid { result.grid ≡ capped (lcm selector.grid self.grid) }
        ensures far { result.far ≡ self.far }
    {
        Asked {
            grid: least_multiple(selector.grid, self.grid),
            far: self.far,
        }
    }

    /// What a join asks its left side, by the numbers of the right one.
    pub(crate) fn left(self, side: Side, right: RowBounds) -> Asked
        ensures grid { (d e : Tree) → KeepsBounds right e → (result.grid ≡ capped (left_ask side d e self.grid)) ⊎ IsTooFine (fine_below e) }
        ensures far { (d e : Tree) → KeepsBounds right e → (result.far ≡ capped (left_far side d e self.far)) ⊎ IsTooFar (reach_below e) }
    {
        Asked {
            grid: left_ask(side, right, self.grid),
            far: left_far(side, right, self.far),
        }
    }

    /// What a join asks its right side, by the numbers of the left one.
    pub(crate) fn right(self, side: Side, left: RowBounds) -> Asked
        ensures grid { (d e : Tree) → KeepsBounds left d → (result.grid ≡ capped (right_ask side d e self.grid)) ⊎ IsTooFine (fine_below d) }
        ensures far { (d e : Tree) → KeepsBounds left d → (result.far ≡ capped (right_far side d e self.far)) ⊎ IsTooFar (reach_below d) }
    {
        Asked {
            grid: right_ask(side, left, self.grid),
            far: right_far(side, left, self.far),
        }
    }

    /// What a leaf meets.
    pub(crate) fn of_leaf(self) -> Extent
        ensures fine { result.fine ≡ self.grid }
        ensures reach { result.reach ≡ self.far }
    {
        Extent {
            fine: self.grid,
            reach: self.far,
        }
    }

    /// What a tree with these bounds meets itself.
    pub(crate) fn own_extent(self, bounds: RowBounds) -> Extent
        ensures fine { result.fine ≡ capped (lcm bounds.grid self.grid) }
        ensures reach { result.reach ≡ capped (self.far + capped bounds.hang) }
    {
        Extent {
            fine: least_multiple(bounds.grid, self.grid),
            reach: far_and_hang(self.far, bounds),
        }
    }
}

impl Extent {
    pub(crate) fn none() -> Extent
        ensures fine { result.fine ≡ 0 }
        ensures reach { result.reach ≡ 0 }
    {
        Extent { fine: 0, reach: 0 }
    }

    /// The greater of each of the numbers.
    pub(crate) fn with(self, other: Extent) -> Extent
        ensures fine { result.fine ≡ max self.fine other.fine }
        ensures reach { result.reach ≡ max self.reach other.reach }
    {
        Extent {
            fine: self.fine.max(other.fine),
            reach: self.reach.max(other.reach),
        }
    }
}
