//! The meeting of all passes, and how all calls ended.
ghost use Rattle.std.specs.Prelude.{◌≡◌, ℕ, ◌+◌, ◌-◌, ◌≤◌, ◌<◌, ◌++◌, [], List, length, option_to_list};
ghost use Rattle.std.specs.Vec.{vec_len, vec_capacity};
ghost use Rattle.tdl_turn.specs.Numbers.{Reads};
ghost use Rattle.tdl_session.specs.Passes.{IsPassOf};
ghost use Rattle.tdl_session.specs.inside.Spots.{AreSingle, HaveMet, ends_of};

use crate::machine::Machine;
use crate::pass::{Pass, Shared};
use crate::spots::Spot;

/// Puts the passes of all spots together with this one, which then stands for the numbers of all and has seen what any
/// of them has, and how their calls ended behind what ended before. It takes no memory.
pub(crate) fn meet_all<M: Machine, T: Drop>(
    shared: &Shared<M>,
    pass: &mut Pass<M>,
    spots: Vec<Spot<M, T>>,
    ends: &mut Vec<T>,
)
    requires pass { IsPassOf shared.now pass.old }
    requires spots { AreSingle shared.now spots.items }
    requires room { vec_len ends.old + length spots.items ≤ vec_capacity ends.old }
    ensures pass { (pass.new.table ≡ pass.old.table) × (pass.new.fixed ≡ pass.old.fixed) × (pass.new.number ≡ pass.old.number) }
    ensures made { length pass.new.made ≡ length pass.old.made + length spots.items }
    ensures next { pass.old.next ≤ 9 → pass.new.next ≡ pass.old.next }
    ensures reads { Reads M.by pass.new.seen pass.old.seen pass.old.made }
    ensures met { HaveMet M.by pass.new.seen pass.new.made spots.items }
    ensures ends { ends.new.items ≡ ends.old.items ++ ends_of spots.items }
{
    for spot in spots {
        let (other, end) = spot.into_parts();
        shared.meet(pass, other);
        put_end(ends, end);
    }
}

// Puts an end behind the others, where there is one.
fn put_end<T: Drop>(ends: &mut Vec<T>, end: Option<T>)
    requires room { vec_len ends.old < vec_capacity ends.old }
    ensures items { ends.new.items ≡ ends.old.items ++ option_to_list end }
    ensures len { vec_len ends.new ≤ vec_len ends.old + 1 }
    ensures capacity { vec_capacity ends.new ≡ vec_capacity ends.old }
{
    if let Some(end) = end {
        ends.push_reserved(end);
    }
}

/// All passes meet, and the machine is taken out, with how the calls ended, in order.
pub(crate) fn close_all<M: Machine, T: Drop>(
    shared: Shared<M>,
    mut pass: Pass<M>,
    spots: Vec<Spot<M, T>>,
    mut ends: Vec<T>,
) -> (M, Vec<T>)
    requires pass { IsPassOf shared pass }
    requires spots { AreSingle shared spots.items }
    requires next { pass.next ≤ 9 }
    requires all { length pass.made + length spots.items + (9 - pass.next) ≡ 9 }
    requires room { (ends.items ≡ []) × (length spots.items ≤ vec_capacity ends) }
    ensures fixed { M.fixed result.0 ≡ shared.1 }
    ensures legal { M.legal shared.1 (M.history result.0) }
    ensures reads { Reads M.by (M.history result.0) pass.seen pass.made }
    ensures met { (made : List ℕ) × HaveMet M.by (M.history result.0) made spots.items }
    ensures ends { result.1.items ≡ ends_of spots.items }
{
    meet_all(&shared, &mut pass, spots, &mut ends);
    let machine = shared.close(pass);
    (machine, ends)
}
