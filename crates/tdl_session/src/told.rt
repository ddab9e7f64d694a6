//! What callers were told.
ghost use Rattle.std.specs.Prelude.{ℕ, IfOk, IfErr};
ghost use Rattle.tdl_turn.specs.Numbers.{Among};
ghost use Rattle.tdl_session.specs.Passes.{mine, IsPassOf, SamePass, Called, Refused};
ghost use Rattle.tdl_session.specs.Told.{IsTold, answered, AnswersAreAdded, RefusalsAddNothing, MeetingsAddNothing, EntriesTellOfCalls};

use crate::machine::Machine;
use crate::pass::{Pass, Shared};
use std::alloc::Global;
use std::sync::Wait;

/// Makes a call, as `Shared::call` does. The answer follows what the pass's holder was told before (`told`).
pub fn tell<M: Machine, R: Wait>(
    rt: &R,
    alloc: Global,
    shared: &Shared<M>,
    pass: &mut Pass<M>,
    call: M::Call,
) -> Result<M::Reply, M::Refusal>
    requires pass { IsPassOf shared.now pass.old }
    requires may { M.may pass.old.number (mine M.by pass.old) call }
    ensures pass { SamePass pass.old pass.new }
    ensures own { Among pass.old.number pass.old.made }
    ensures legal { M.legal shared.now.1 pass.new.seen }
    ensures ok { IfOk result (λ r. Called M.by (λ h e. M.adds shared.now.1 h pass.old.number call e r) pass.old pass.new) }
    ensures err { IfErr result (λ x. Refused M.by (λ h. M.refuses shared.now.1 h pass.old.number call x) pass.old pass.new) }
    ensures told { IsTold M.by M.adds shared.now.1 pass.old pass.new.seen (answered call result) }
{
    shared.call(rt, alloc, pass, call)
}

/// What a holder was told follows its pass: an accepted call adds its own answer, a refused one adds nothing, and
/// what one pass was told is told of what another has seen, once they have met.
pub fn records_follow_their_passes<M: Machine>()
    ensures accepted { (fixed : M.Fixed) → AnswersAreAdded M.by M.adds fixed }
    ensures refused { (fixed : M.Fixed) → RefusalsAddNothing M.by M.adds fixed M.refuses }
    ensures met { (fixed : M.Fixed) → MeetingsAddNothing M.by M.adds fixed }
{}

/// A caller's own entries in a history are those of the calls that it was told of, in order: they have of these whatever
/// every entry has of its call.
pub fn entries_tell_of_calls<M: Machine, X>()
    ensures { (fixed : M.Fixed) (n : ℕ) (f : M.Entry → X) (g : M.Call → X) → EntriesTellOfCalls M.by M.adds fixed n f g }
{}
