//! Callers beside a leader, from the start of their session to its end.
ghost use Rattle.std.specs.Prelude.{◌≡◌, ℕ, ◌+◌, ◌≤◌, List, [], length, IfOk, IfSome, IfNone};
ghost use Rattle.std.specs.Thread.{IsSync};
ghost use Rattle.std.specs.Vec.{vec_capacity};
ghost use Rattle.tdl_session.specs.Passes.{IsPassOf, IsFirst, SamePass};
ghost use Rattle.tdl_session.specs.Gatherings.{LeadsAt, StaysDone, EachEnded};
ghost use Rattle.tdl_session.specs.inside.Beside.{AllMay, EachDid};
ghost use Rattle.tdl_session.specs.inside.Spots.{AreNew, AreSingle, HaveMet, after_splits, ends_of};

use crate::beside::{PairWork, each_beside};
use crate::hall::{Caller, Hall, Leader};
use crate::machine::Machine;
use crate::meetings::close_all;
use crate::pass::{Pass, Shared};
use crate::spots::{Spot, spots_for};
use std::alloc::{AllocError, Global};
use std::sync::Wait;
use std::thread::{Threads, join_mut};

/// What came of a gathering: the machine, how the leader's calls ended, and how those of each caller did, in their order.
#[derive(Drop)]
pub struct Gathered<M, E, T> {
    pub machine: M,
    pub led: E,
    pub ends: Vec<T>,
}

/// The leader makes its calls of one machine as number 0, and beside it the callers make theirs as the numbers from 1 on,
/// each on a thread of its own where one can be made. The machine's history then has what each did. It is None where
/// memory runs out before the first call.
pub fn gather<
    M: Machine + Send + Drop,
    L: Leader<M> + Send,
    D: Caller<M> + Send,
    R: Threads + Wait + Sync,
>(
    rt: &R,
    alloc: Global,
    machine: M,
    leader: &mut L,
    callers: &mut [D],
) -> Option<Gathered<M, L::End, D::End>>
where
    M::Call: Drop + Send,
    M::Reply: Drop + Send,
    M::Refusal: Drop + Send,
    L::End: Drop + Send,
    D::End: Drop + Send,
    requires history { M.history machine ≡ [] }
    requires few { length callers.old ≤ 8 }
    ensures fixed { IfSome result (λ g. M.fixed g.machine ≡ M.fixed machine) }
    ensures legal { IfSome result (λ g. M.legal (M.fixed machine) (M.history g.machine)) }
    ensures led { IfSome result (λ g. L.did (M.fixed machine) (M.history g.machine) leader.old leader.new g.led) }
    ensures did { IfSome result (λ g. EachEnded D.did (M.fixed machine) 1 (M.history g.machine) callers.old callers.new g.ends.items) }
    ensures none { IfNone result ((leader.new ≡ leader.old) × (callers.new ≡ callers.old)) }
{
    let Ok((shared, mut pass)) = Shared::start(alloc, machine) else {
        return None;
    };
    let hall = Hall { shared, alloc };
    let Ok((mut spots, ends)) = spots_with_room(&hall, &mut pass, callers.len()) else {
        return None;
    };
    let led = call_from_spots(rt, &hall, leader, &mut pass, callers, &mut spots);
    L::did_law();
    D::did_law();
    let Hall { shared, .. } = hall;
    let (machine, ends) = close_all(shared, pass, spots, ends);
    Some(Gathered { machine, led, ends })
}

// A spot for each caller, and room for how each ends.
fn spots_with_room<M: Machine, T: Drop>(
    hall: &Hall<M>,
    pass: &mut Pass<M>,
    count: usize,
) -> Result<(Vec<Spot<M, T>>, Vec<T>), AllocError>
    requires pass { IsPassOf hall.now.shared pass.old × IsFirst pass.old }
    requires few { count ≤ 8 }
    ensures pass { IfOk result (λ t. pass.new ≡ after_splits pass.old count) }
    ensures count { IfOk result (λ t. length t.0.items ≡ count) }
    ensures new { IfOk result (λ t. AreNew hall.now.shared 1 [] t.0.items) }
    ensures room { IfOk result (λ t. (t.1.items ≡ []) × (count ≤ vec_capacity t.1)) }
{
    let spots = spots_for(hall.alloc, &hall.shared, pass, count)?;
    let ends = Vec::with_capacity(hall.alloc, count)?;
    Ok((spots, ends))
}

// All make their calls, the callers through the passes of the spots.
fn call_from_spots<
    M: Machine + Send,
    L: Leader<M> + Send,
    D: Caller<M> + Send,
    R: Threads + Wait + Sync,
>(
    rt: &R,
    hall: &Hall<M>,
    leader: &mut L,
    pass: &mut Pass<M>,
    callers: &mut [D],
    spots: &mut Vec<Spot<M, D::End>>,
) -> L::End
where
    M::Call: Drop + Send,
    M::Reply: Drop + Send,
    M::Refusal: Drop + Send,
    L::End: Drop + Send,
    D::End: Drop + Send,
    requires leads { LeadsAt hall.now.shared pass.old }
    requires same { length spots.old.items ≡ length callers.old }
    requires few { length callers.old ≤ 8 }
    requires new { AreNew hall.now.shared 1 [] spots.old.items }
    ensures pass { SamePass pass.old pass.new }
    ensures led { L.did hall.now.shared.1 pass.new.seen leader.old leader.new result }
    ensures count { length spots.new.items ≡ length callers.old }
    ensures single { AreSingle hall.now.shared spots.new.items }
    ensures did { (history : List M.Entry) (made : List ℕ) → StaysDone M.by D.did → HaveMet M.by history made spots.new.items
        → EachEnded D.did hall.now.shared.1 1 history callers.old callers.new (ends_of spots.new.items) }
{
    lead_beside(rt, hall, leader, pass, hall, callers, spots.as_mut_slice())
}

// Does the work with each pair, each on a thread of its own where one can be made, and beside it the leader makes its calls.
fn lead_beside<
    M: Machine + Send,
    L: Leader<M> + Send,
    W: PairWork<A, B> + Sync,
    A: Send,
    B: Send,
    R: Threads + Wait + Sync,
>(
    rt: &R,
    hall: &Hall<M>,
    leader: &mut L,
    pass: &mut Pass<M>,
    work: &W,
    firsts: &mut [A],
    seconds: &mut [B],
) -> L::End
where
    M::Call: Drop + Send,
    M::Reply: Drop + Send,
    M::Refusal: Drop + Send,
    L::End: Send,
    requires leads { LeadsAt hall.now.shared pass.old }
    requires same { length firsts.old ≡ length seconds.old }
    requires may { AllMay (W.may work.now) firsts.old seconds.old }
    ensures pass { SamePass pass.old pass.new }
    ensures led { L.did hall.now.shared.1 pass.new.seen leader.old leader.new result }
    ensures did { EachDid (W.did work.now) firsts.old firsts.new seconds.old seconds.new }
{
    // Where no thread can be made the second part goes first, so that the leader then comes behind all others.
    let (led, ()) = join_mut(
        rt,
        &mut || -> L::End
            requires { LeadsAt hall.now.shared pass.now }
            ensures { SamePass pass.entry.now pass.exit.now × L.did hall.entry.now.shared.1 pass.exit.now.seen leader.entry.now leader.exit.now result }
        { lead(rt, hall, leader, pass) },
        &mut ||
            requires { IsSync R.row × IsSync W.row × (length firsts.now ≡ length seconds.now) × AllMay (W.may work.now) firsts.now seconds.now }
            ensures { EachDid (W.did work.entry.now) firsts.entry.now firsts.exit.now seconds.entry.now seconds.exit.now }
        { each_beside(rt, work, firsts, seconds) },
    );
    led
}

// The leader makes its calls.
fn lead<M: Machine, L: Leader<M>, R: Wait>(
    rt: &R,
    hall: &Hall<M>,
    leader: &mut L,
    pass: &mut Pass<M>,
) -> L::End
    requires { LeadsAt hall.now.shared pass.old }
    ensures pass { SamePass pass.old pass.new }
    ensures did { L.did hall.now.shared.1 pass.new.seen leader.old leader.new result }
{
    leader.lead(rt, hall, pass)
}
