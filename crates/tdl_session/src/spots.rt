//! Callers side by side, each with a pass of its own.
ghost use Rattle.std.specs.Prelude.{◌≡◌, ◌+◌, ◌≤◌, length, None, IfOk};
ghost use Rattle.tdl_session.specs.Passes.{IsPassOf};
ghost use Rattle.tdl_session.specs.Gatherings.{SitsAt};
ghost use Rattle.tdl_session.specs.inside.Spots.{SpotView, AreNew, CalledAt, after_splits};

use crate::beside::PairWork;
use crate::hall::{Caller, Hall};
use crate::machine::Machine;
use crate::pass::{Pass, Shared};
use std::alloc::{AllocError, Global};
use std::marker::Model;
use std::sync::Wait;

/// A caller's pass, and how its calls ended.
#[derive(Drop)]
pub(crate) struct Spot<M: Machine, T> {
    pass: Pass<M>,
    end: Option<T>,
}

impl<M: Machine, T> Model for Spot<M, T> {
    ghost Value = { SpotView M.Entry M.Fixed T };

    ghost view = { λ s. record { pass = s.pass; end = s.end } };
}

impl<M: Machine, T> Spot<M, T> {
    /// Before any call.
    pub(crate) fn of(pass: Pass<M>) -> Spot<M, T>
        ensures { result ≡ record { pass = pass; end = None } }
    {
        Spot { pass, end: None }
    }
}

impl<M: Machine, T: Drop> Spot<M, T> {
    /// The pass, and how the calls ended.
    pub(crate) fn into_parts(self) -> (Pass<M>, Option<T>)
        ensures pass { result.0 ≡ self.pass }
        ensures end { result.1 ≡ self.end }
    {
        let Spot { pass, end } = self;
        (pass, end)
    }
}

impl<M: Machine, D: Caller<M>> PairWork<D, Spot<M, D::End>> for Hall<M>
where
    D::End: Drop,
{
    ghost may = { λ hall caller spot. SitsAt hall.shared spot.pass };

    ghost did = { λ hall old new before after. CalledAt D.did hall.shared.1 old new before after };

    fn act<R: Wait>(&self, rt: &R, first: &mut D, second: &mut Spot<M, D::End>) {
        let end = first.make_calls(rt, self, &mut second.pass);
        second.end = Some(end);
    }
}

/// Makes so many passes of the next numbers. The error is out of memory.
pub(crate) fn spots_for<M: Machine, T: Drop>(
    alloc: Global,
    shared: &Shared<M>,
    pass: &mut Pass<M>,
    count: usize,
) -> Result<Vec<Spot<M, T>>, AllocError>
    requires pass { IsPassOf shared.now pass.old }
    requires few { pass.old.next + count ≤ 9 }
    ensures pass { IfOk result (λ v. pass.new ≡ after_splits pass.old count) }
    ensures count { IfOk result (λ v. length v.items ≡ count) }
    ensures new { IfOk result (λ v. AreNew shared.now pass.old.next pass.old.seen v.items) }
{
    let mut spots = Vec::new(alloc);
    while spots.len() < count {
        let spot = Spot::of(shared.split(pass));
        spots.push(spot)?;
    }
    Ok(spots)
}
