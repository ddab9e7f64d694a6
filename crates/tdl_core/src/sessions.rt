// A core that many call.
ghost use Rattle.std.specs.Prelude.{◌≡◌, [], ◌++◌, List, IfSome};
ghost use Rattle.tdl_score.specs.declared.histories.Entry.{Entry};
ghost use Rattle.tdl_session.specs.Told.{Tells, answered};
ghost use Rattle.tdl_core.specs.Replies.{MayCall};
ghost use Rattle.tdl_core.specs.Said.{IsLegal};
ghost use Rattle.tdl_core.specs.Sessions.{Adds, Refuses};

use crate::calls::Call;
use crate::machine::Core;
use crate::replies::{Refusal, Reply};
use std::alloc::Global;
use std::sync::Wait;
use std::thread::Threads;
use tdl_score::Entry;
use tdl_session::{Machine, two_callers};
use tdl_tempo::Tempo;
use tdl_turn::Chronicle;

impl Chronicle for Core {
    type Entry = Entry;

    type Fixed = Tempo;

    ghost history = { λ core. core.history };

    ghost by = { λ entry. entry.who };

    ghost fixed = { λ core. core.tempo };

    fn entries(&self) -> u64 {
        u64::from(self.history().len())
    }
}

impl Machine for Core {
    type Call = Call;

    type Reply = Reply;

    type Refusal = Refusal;

    ghost legal = { λ tempo entries. IsLegal entries };

    ghost adds = { Adds };

    ghost refuses = { λ tempo entries who call refusal. Refuses entries call refusal };

    ghost may = { λ who own call. MayCall own who call };

    fn legal_law(&self) {
        self.history();
    }

    // A core takes memory from the allocator that it was started with.
    fn apply(&mut self, _alloc: Global, who: u32, call: Call) -> Result<Reply, Refusal> {
        self.apply(who, call)
    }
}

/// Two performers on threads of their own, as the numbers 1 and 2, make two calls each of one core. Its history then is
/// legal, and has the accepted ones of each, in that performer's order, with the replies that it was told. It is None
/// where memory runs out.
pub fn two_performers<R: Threads + Wait + Sync>(
    rt: &R,
    alloc: Global,
    core: Core,
    a: (Call, Call),
    b: (Call, Call),
) -> Option<
    (
        Core,
        (Result<Reply, Refusal>, Result<Reply, Refusal>),
        (Result<Reply, Refusal>, Result<Reply, Refusal>),
    ),
>
    requires history { core.history ≡ [] }
    requires first { (own : List Entry) → MayCall own 1 a.0 × MayCall own 1 a.1 }
    requires second { (own : List Entry) → MayCall own 2 b.0 × MayCall own 2 b.1 }
    ensures tempo { IfSome result (λ t. t.0.tempo ≡ core.tempo) }
    ensures legal { IfSome result (λ t. IsLegal t.0.history) }
    ensures first { IfSome result (λ t. Tells (λ (e : Entry). e.who) Adds core.tempo 1 t.0.history (answered a.0 t.1.0 ++ answered a.1 t.1.1)) }
    ensures second { IfSome result (λ t. Tells (λ (e : Entry). e.who) Adds core.tempo 2 t.0.history (answered b.0 t.2.0 ++ answered b.1 t.2.1)) }
{
    two_callers(rt, alloc, core, a, b)
}
