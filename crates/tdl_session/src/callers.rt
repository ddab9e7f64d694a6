//! Callers on threads of their own.
ghost use Rattle.std.specs.Prelude.{◌≡◌, ℕ, List, [], ◌++◌, IfSome};
ghost use Rattle.tdl_session.specs.Passes.{IsPassOf, SamePass};
ghost use Rattle.tdl_session.specs.Told.{Tells, IsTold, answered};

use crate::machine::Machine;
use crate::pass::{Pass, Shared};
use crate::told::tell;
use std::alloc::Global;
use std::sync::Wait;
use std::thread::{Threads, join};

// Makes two calls, one after the other, and hands the pass back.
fn call_twice<M: Machine, R: Wait>(
    rt: &R,
    alloc: Global,
    shared: &Shared<M>,
    pass: Pass<M>,
    calls: (M::Call, M::Call),
) -> (
    Pass<M>,
    (Result<M::Reply, M::Refusal>, Result<M::Reply, M::Refusal>),
)
    requires pass { IsPassOf shared.now pass }
    requires may { (own : List M.Entry) → M.may pass.number own calls.0 × M.may pass.number own calls.1 }
    ensures pass { SamePass pass result.0 }
    ensures told { IsTold M.by M.adds shared.now.1 pass result.0.seen (answered calls.0 result.1.0 ++ answered calls.1 result.1.1) }
{
    let mut pass = pass;
    let (before, after) = calls;
    let first = tell(rt, alloc, shared, &mut pass, before);
    let second = tell(rt, alloc, shared, &mut pass, after);
    (pass, (first, second))
}

/// Two callers on threads of their own, as the numbers 1 and 2, make two calls each of one machine. Its history then
/// has the accepted ones of each, in that caller's order, with the answers that it was told. It is None where memory
/// runs out.
pub fn two_callers<M: Machine + Send + Drop, R: Threads + Wait + Sync>(
    rt: &R,
    alloc: Global,
    machine: M,
    a: (M::Call, M::Call),
    b: (M::Call, M::Call),
) -> Option<
    (
        M,
        (Result<M::Reply, M::Refusal>, Result<M::Reply, M::Refusal>),
        (Result<M::Reply, M::Refusal>, Result<M::Reply, M::Refusal>),
    ),
>
where
    M::Call: Drop + Send,
    M::Reply: Drop + Send,
    M::Refusal: Drop + Send,
    requires history { M.history machine ≡ [] }
    requires first { (own : List M.Entry) → M.may 1 own a.0 × M.may 1 own a.1 }
    requires second { (own : List M.Entry) → M.may 2 own b.0 × M.may 2 own b.1 }
    ensures fixed { IfSome result (λ t. M.fixed t.0 ≡ M.fixed machine) }
    ensures legal { IfSome result (λ t. M.legal (M.fixed machine) (M.history t.0)) }
    ensures first { IfSome result (λ t. Tells M.by M.adds (M.fixed machine) 1 (M.history t.0) (answered a.0 t.1.0 ++ answered a.1 t.1.1)) }
    ensures second { IfSome result (λ t. Tells M.by M.adds (M.fixed machine) 2 (M.history t.0) (answered b.0 t.2.0 ++ answered b.1 t.2.1)) }
{
    let Ok((shared, mut pass)) = Shared::start(alloc, machine) else {
        return None;
    };
    let first = shared.split(&mut pass);
    let second = shared.split(&mut pass);
    let lock = &shared;
    let (left, right) = join(
        rt,
        || -> (
            Pass<M>,
            (Result<M::Reply, M::Refusal>, Result<M::Reply, M::Refusal>),
        )
            requires { IsPassOf lock.now first × ((own : List M.Entry) → M.may first.number own a.0 × M.may first.number own a.1) }
            ensures { SamePass first result.0 × IsTold M.by M.adds lock.entry.now.1 first result.0.seen (answered a.0 result.1.0 ++ answered a.1 result.1.1) }
        { call_twice(rt, alloc, lock, first, a) },
        || -> (
            Pass<M>,
            (Result<M::Reply, M::Refusal>, Result<M::Reply, M::Refusal>),
        )
            requires { IsPassOf lock.now second × ((own : List M.Entry) → M.may second.number own b.0 × M.may second.number own b.1) }
            ensures { SamePass second result.0 × IsTold M.by M.adds lock.entry.now.1 second result.0.seen (answered b.0 result.1.0 ++ answered b.1 result.1.1) }
        { call_twice(rt, alloc, lock, second, b) },
    );
    let (first, first_answers) = left;
    let (second, second_answers) = right;
    shared.meet(&mut pass, first);
    shared.meet(&mut pass, second);
    let machine = shared.close(pass);
    Some((machine, first_answers, second_answers))
}
