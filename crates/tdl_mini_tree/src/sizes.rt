// How large groups are.
ghost use Rattle.std.specs.Prelude.{◌≡◌, ◌+◌, ◌*◌, ◌-◌, ◌<◌, ◌≤◌, ◌^◌, List};
ghost use Rattle.tdl_mini_tree.specs.Limits.{unit, max_weights};
ghost use Rattle.tdl_mini_tree.specs.Sizes.{size_of, size_with, and_steps, weight_of, times_of, is_within};
ghost use Rattle.tdl_mini_tree.specs.SizeView.{size_value, held, recounted, SizeFits};
ghost use Rattle.tdl_mini_tree.specs.Tree.{no_element, Layers as Trees};
ghost use Rattle.tdl_mini_tree.specs.ValidNests.{IsValidGroup};
ghost use Rattle.tdl_mini_tree.specs.View.{group_of, element_of};

use crate::leaves::Number;
use crate::limits::{MAX_STEPS, MAX_WEIGHTS, UNIT};
use crate::tree::{Element, Group};

// The largest sum of the weights of a group, in ten-thousandths.
const MAX_SUM: u64 = MAX_WEIGHTS * UNIT;

/// The size of a group: its steps, the sum of their weights and the last weight, in ten-thousandths.
#[derive(Clone, Copy)]
pub struct Size {
    pub steps: u64,
    pub sum: u64,
    pub last: u64,
}

impl Size {
    /// Of a group without elements.
    pub fn none() -> Size
        ensures { size_value result ≡ size_of no_element }
    {
        Size {
            steps: 0,
            sum: 0,
            last: 0,
        }
    }

    /// With further steps of this weight.
    pub fn and_steps(self, times: u64, weight: u64) -> Size
        requires steps { self.steps + times < 2 ^ 64 }
        requires sum { self.sum + times * weight < 2 ^ 64 }
        ensures value { size_value result ≡ and_steps (size_value self) times weight }
        ensures sum { result.sum ≡ self.sum + times * weight }
        ensures last { result.last ≡ weight }
    {
        Size {
            steps: self.steps + times,
            sum: self.sum + times * weight,
            last: weight,
        }
    }

    /// With the last step longer by one.
    pub fn and_hold(self) -> Size
        requires sum { self.sum + unit < 2 ^ 64 }
        requires last { self.last + unit < 2 ^ 64 }
        ensures value { size_value result ≡ held (size_value self) }
        ensures sum { result.sum ≡ self.sum + unit }
        ensures last { result.last ≡ self.last + unit }
    {
        Size {
            steps: self.steps,
            sum: self.sum + UNIT,
            last: self.last + UNIT,
        }
    }

    /// With one more element.
    fn and_element(self, element: &Element) -> Size
        requires { (trees : List Trees) → SizeFits (size_with (size_value self) (element_of trees element.now)) }
        ensures { (trees : List Trees) → size_value result ≡ size_with (size_value self) (element_of trees element.now) }
    {
        match element {
            Element::Played { weight, count, .. } => {
                self.and_steps(u64::from(times_of(*count)), weight_of(*weight))
            }
            Element::Range { first, last } => self.and_steps(first.range_length(*last), UNIT),
            Element::Hold => self.and_hold(),
            Element::Repeat => self.and_steps(1, self.last),
        }
    }

    /// With so many steps of the last weight in place of so many.
    pub fn counted(self, before: u64, after: u64) -> Size
        requires steps { before ≤ self.steps }
        requires sum { before * self.last ≤ self.sum }
        requires more { self.steps + after < 2 ^ 64 }
        requires weights { self.sum + after * self.last < 2 ^ 64 }
        ensures { size_value result ≡ recounted (size_value self) before after }
    {
        Size {
            steps: self.steps - before + after,
            sum: self.sum - before * self.last + after * self.last,
            last: self.last,
        }
    }

    /// Whether a sequence with so many steps in the groups before may have a group of this size.
    pub fn is_within(self, before: u64) -> bool
        requires { before + self.steps < 2 ^ 64 }
        ensures { result ≡ is_within before (size_value self) }
    {
        before + self.steps <= MAX_STEPS && self.sum <= MAX_SUM
    }
}

impl Group {
    /// The sum of the weights of its steps, in ten-thousandths.
    pub fn weights(&self) -> u64
        requires { IsValidGroup self.now.elements.items }
        ensures value { (trees : List Trees) → result ≡ (size_of (group_of trees self.now.elements.items)).sum }
        ensures small { result ≤ max_weights * unit }
    {
        let mut size = Size::none();
        for element in &self.elements {
            size = size.and_element(element);
        }
        size.sum
    }
}

/// The weight of a step, by the number after `@` where one is written.
pub fn weight_of(weight: Option<Number>) -> u64
    ensures value { result ≡ weight_of weight }
    ensures small { result < 2 ^ 47 }
{
    match weight {
        Some(number) => number.weight_parts(),
        None => UNIT,
    }
}

/// How often a step is played, by the number after `!` where one is written.
pub fn times_of(count: Option<Number>) -> u32
    ensures { result ≡ times_of count }
{
    match count {
        Some(number) => number.whole,
        None => 1,
    }
}
