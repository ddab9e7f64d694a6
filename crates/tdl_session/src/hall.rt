//! A machine that many call, and who calls it.
ghost use Rattle.std.specs.Prelude.{ℕ, List};
ghost use Rattle.tdl_session.specs.Passes.{SamePass};
ghost use Rattle.tdl_session.specs.Gatherings.{SitsAt, LeadsAt, StaysDone, StaysLed};

use crate::machine::Machine;
use crate::pass::{Pass, Shared};
use std::alloc::Global;
use std::sync::Wait;

/// A machine that many call, and where the memory for the calls comes from.
#[derive(Drop)]
pub struct Hall<M: Machine> {
    pub shared: Shared<M>,
    pub alloc: Global,
}

/// What makes calls of a machine through a pass.
pub trait Caller<M: Machine> {
    /// How its calls end.
    type End;

    // What it did, of a machine with this fixed part, as this number and in this history, from before to after.
    ghost did: { M.Fixed → ℕ → List M.Entry → Self → Self → Self.End → Type 0 };

    /// What it did in what its pass has seen, it did in the whole history.
    fn did_law()
        ensures { StaysDone M.by did };

    fn make_calls<R: Wait>(&mut self, rt: &R, hall: &Hall<M>, pass: &mut Pass<M>) -> Self::End
        requires { SitsAt hall.now.shared pass.old }
        ensures pass { SamePass pass.old pass.new }
        ensures did { did hall.now.shared.1 pass.old.number pass.new.seen self.old self.new result };
}

/// What makes the calls of number 0, beside all callers.
pub trait Leader<M: Machine> {
    /// How its calls end.
    type End;

    // What it did, of a machine with this fixed part, in this history, from before to after.
    ghost did: { M.Fixed → List M.Entry → Self → Self → Self.End → Type 0 };

    /// What it did in what its pass has seen, it did in the whole history.
    fn did_law()
        ensures { StaysLed M.by M.legal did };

    fn lead<R: Wait>(&mut self, rt: &R, hall: &Hall<M>, pass: &mut Pass<M>) -> Self::End
        requires { LeadsAt hall.now.shared pass.old }
        ensures pass { SamePass pass.old pass.new }
        ensures did { did hall.now.shared.1 pass.new.seen self.old self.new result };
}
