// What comes later, with rising boundaries.
ghost use Rattle.std.specs.Prelude.{◌≡◌, ◌≤◌, ◌<◌, ◌+◌, ℕ, false, nat_le, ◌∷◌, if◌then◌else◌, Option as OptionOf, IfNone, IfSome};
ghost use Rattle.std.specs.Bool.{OnTrue};
ghost use Rattle.std.specs.List.{AllByRecursion};
ghost use Rattle.std.specs.VecDeque.{deque_capacity, deque_len};
ghost use Rattle.tdl_desk.specs.Fields.{Rises, later_on};
ghost use Rattle.tdl_desk.specs.inside.Ends.{first_is_due, last_is_from};

use crate::fields::Later;
use std::collections::VecDeque;

/// Puts a value behind those that come before it. Those that come at its boundary or later go.
pub fn put<T: Drop>(pending: &mut VecDeque<Later<T>>, later: Later<T>)
    requires room { deque_len pending.old < deque_capacity pending.old }
    requires rises { Rises pending.old.items }
    ensures rises { Rises pending.new.items }
    ensures value { (present : OptionOf T) (cycle : ℕ) → later_on present pending.new.items cycle
        ≡ (if nat_le later.boundary cycle then later.value else later_on present pending.old.items cycle) }
    ensures len { deque_len pending.new ≤ deque_len pending.old + 1 }
    ensures capacity { deque_capacity pending.new ≡ deque_capacity pending.old }
{
    while drop_from(pending, later.boundary) {}
    pending.push_back_reserved(later);
}

// Drops the last, where it comes at this boundary or later; and whether it did.
fn drop_from<T: Drop>(pending: &mut VecDeque<Later<T>>, boundary: u32) -> bool
    requires { Rises pending.old.items }
    ensures rises { Rises pending.new.items }
    ensures same { (present : OptionOf T) (cycle : ℕ) → cycle < boundary → later_on present pending.new.items cycle ≡ later_on present pending.old.items cycle }
    ensures shorter { OnTrue result (deque_len pending.new < deque_len pending.old) }
    ensures low { result ≡ false → AllByRecursion (λ other. other.boundary < boundary) pending.new.items }
    ensures len { deque_len pending.new ≤ deque_len pending.old }
    ensures capacity { deque_capacity pending.new ≡ deque_capacity pending.old }
{
    let is_from = is_last_from(pending, boundary);
    if is_from {
        pending.pop_back();
    }
    is_from
}

// Whether the last comes at this boundary or later.
fn is_last_from<T>(pending: &VecDeque<Later<T>>, boundary: u32) -> bool
    ensures { result ≡ last_is_from pending.now.items boundary }
{
    match pending.back() {
        Some(later) => boundary <= later.boundary,
        None => false,
    }
}

/// What has come by a cycle is there now.
pub fn settle_in<T: Drop>(present: &mut Option<T>, pending: &mut VecDeque<Later<T>>, cycle: u32)
    requires { Rises pending.old.items }
    ensures rises { Rises pending.new.items }
    ensures value { (later : ℕ) → cycle ≤ later → later_on present.new pending.new.items later ≡ later_on present.old pending.old.items later }
    ensures len { deque_len pending.new ≤ deque_len pending.old }
    ensures capacity { deque_capacity pending.new ≡ deque_capacity pending.old }
{
    while let Some(later) = pop_due(pending, cycle) {
        *present = later.value;
    }
}

// Takes the first out, where it has come by a cycle.
fn pop_due<T: Drop>(pending: &mut VecDeque<Later<T>>, cycle: u32) -> Option<Later<T>>
    ensures first { IfSome result (λ later. pending.old.items ≡ later ∷ pending.new.items) }
    ensures due { IfSome result (λ later. later.boundary ≤ cycle) }
    ensures stays { IfNone result (pending.new.items ≡ pending.old.items) }
    ensures len { deque_len pending.new ≤ deque_len pending.old }
    ensures capacity { deque_capacity pending.new ≡ deque_capacity pending.old }
{
    if is_first_due(pending, cycle) {
        pending.pop_front()
    } else {
        None
    }
}

// Whether the first has come by a cycle.
fn is_first_due<T>(pending: &VecDeque<Later<T>>, cycle: u32) -> bool
    ensures { result ≡ first_is_due pending.now.items cycle }
{
    match pending.front() {
        Some(later) => later.boundary <= cycle,
        None => false,
    }
}
