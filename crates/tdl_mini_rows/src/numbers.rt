// Numbers as they are written, and lists of distinct numbers.
ghost use Rattle.std.specs.Prelude.{◌≡◌, ◌<◌, ◌≤◌, ◌^◌, unsigned_abs, IsTrue, OnOk};
ghost use Rattle.tdl_mini_tree.specs.declared.leaves.Kind.TheVariants.{Ratio};
ghost use Rattle.tdl_mini_tree.specs.Valid.{is_factor, is_value};
ghost use Rattle.tdl_mini_rows.specs.inside.Bounds.{is_rate};
ghost use Rattle.tdl_mini_rows.specs.inside.Turns.{FitInTable};
ghost use Rattle.tdl_mini_tree.specs.Numbers.{number_value};
ghost use Rattle.tdl_mini_tree.specs.Values.{value_number};
ghost use Rattle.tdl_mini_tree.specs.View.{value_of};
ghost use Rattle.tdl_rows.specs.Joined.{weight_of_parts};
ghost use Rattle.tdl_mini_rows.specs.Leaves.{index_in, index_of, and_distinct, integer_value};

use tdl_control::NoMemory;
use tdl_expr::Fracs;
use tdl_fraction::Frac;
use tdl_mini_tree::{Number, Tail, Value};

/// So many ten-thousandths.
pub(crate) fn decimal(parts: u64) -> Frac
    requires { parts ≤ 2 ^ 49 }
    ensures { result ≡ weight_of_parts parts }
{
    Frac::ten_thousandths(parts as i64)
}

/// The number that is written.
pub(crate) fn number_value(number: Number) -> Frac
    requires { IsTrue (is_factor number) }
    ensures value { result ≡ number_value number }
    ensures rate { IsTrue (is_rate result) }
{
    number.value().unwrap()
}

/// Where a number stands first, or how many there are.
pub(crate) fn index_in(numbers: &Fracs, number: Frac) -> usize
    ensures { result ≡ index_in numbers.now number }
{
    for i in 0..numbers.len() {
        if number == *numbers.get(i) {
            return i;
        }
    }
    numbers.len()
}

/// The index of a value, where numbers become their indices: no more values came before than a table has rows.
pub(crate) fn index_of(numbers: &Fracs, value: &Value) -> u32
    requires value { IsTrue (is_value Ratio (value_of value.now)) }
    requires fits { FitInTable numbers.now (value_number (value_of value.now)) }
    ensures { result ≡ index_of numbers.now (value_number (value_of value.now)) }
{
    match value {
        Value::Number(number) => index_in(numbers, number_value(*number)) as u32,
        _ => 0,
    }
}

/// Puts a number that is not among them at the end.
pub(crate) fn add_distinct(numbers: &mut Fracs, number: Frac) -> Result<(), NoMemory>
    ensures { OnOk result (numbers.new ≡ and_distinct numbers.old number) }
{
    if index_in(numbers, number) < numbers.len() {
        return Ok(());
    }
    numbers.push(number)
}

/// A whole number as a value.
pub(crate) fn integer_value(number: i64) -> Value
    requires { unsigned_abs number < 2 ^ 32 }
    ensures { value_of result ≡ integer_value number }
{
    Value::Number(Number {
        is_negative: number < 0,
        whole: number.unsigned_abs() as u32,
        tail: Tail::Whole,
    })
}
