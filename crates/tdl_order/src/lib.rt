//! Items in order of their times.
#![tactic(auto)]

ghost use Rattle.std.specs.Prelude.{◌≡◌, ◌≤◌, ◌↔◌, IsOk, IsTrue, OnErr, OnOk};
ghost use Rattle.std.specs.Vec.{vec_capacity, vec_len};
ghost use Rattle.std.specs.Ordering.{is_lt};
ghost use Rattle.tdl_fraction.specs.Rational.{Rational, lt_ℚ};
ghost use Rattle.tdl_order.specs.TimeOrder.{Rises, by_time};

use std::cmp::Ordering;
use tdl_control::NoMemory;
use tdl_fraction::Frac;

/// A way to read the time of a `T`.
pub trait TimeOf<T> {
    /// An item's time, in cycles.
    ghost time_of: { T → Rational };

    /// The time.
    fn time(item: &T) -> Frac
        ensures { result ≡ time_of item.now };
}

/// Puts the items in order of their times; items of one time keep their order. Where memory runs
/// out they stay as they are, which it does not for items in order, nor for at most 20.
pub fn sort_by_time<T, K: TimeOf<T>>(items: &mut Vec<T>) -> Result<(), NoMemory>
    ensures ok { OnOk result (items.new.items ≡ by_time K.time_of items.old.items) }
    ensures err { OnErr result (items.new.items ≡ items.old.items) }
    ensures rising { Rises K.time_of items.old.items → IsOk result }
    ensures few { vec_len items.old ≤ 20 → IsOk result }
    ensures capacity { vec_capacity items.new ≡ vec_capacity items.old }
{
    if is_in_order::<T, K>(items) {
        return Ok(());
    }
    items.sort_by(|a, b| compare_times::<T, K>(a, b))?;
    Ok(())
}

// Which of the two is earlier.
fn compare_times<T, K: TimeOf<T>>(a: &T, b: &T) -> Ordering
    ensures { is_lt result ≡ lt_ℚ (K.time_of a.now) (K.time_of b.now) }
{
    K::time(a).compare(K::time(b))
}

// Whether no item is earlier than one before it.
fn is_in_order<T, K: TimeOf<T>>(items: &[T]) -> bool
    ensures { IsTrue result ↔ Rises K.time_of items.now }
{
    for i in 1..items.len() {
        if K::time(&items[i]).is_less(K::time(&items[i - 1])) {
            return false;
        }
    }
    true
}
