ghost use Rattle.std.specs.Prelude.{◌≡◌, ◌<◌, ◌≤◌, ◌^◌, if◌then◌else◌, length};
ghost use Rattle.tdl_meaning.specs.Pattern.{turn};
ghost use Rattle.tdl_meaning.specs.Values.{meets};
ghost use Rattle.tdl_visits.specs.Rounds.{IsChosenChild};

use tdl_expr::{Ids, NodeId, Test};
use tdl_meaning::Cycle;

/// What a cycle plays of children by turns: the child whose turn it is, and the cycle that it plays then.
#[derive(Clone, Copy)]
pub struct ChosenChild {
    pub child: NodeId,
    pub cycle: Cycle,
}

impl ChosenChild {
    /// What this cycle plays of these children.
    pub fn of(children: &Ids, cycle: Cycle) -> ChosenChild
        requires some { 0 < length children.now }
        requires few { length children.now ≤ 2 ^ 31 }
        ensures { IsChosenChild children.now cycle result }
    {
        ChosenChild {
            child: *children.get(cycle.turn(children.len())),
            cycle: cycle.rounds(children.len()),
        }
    }
}

/// The one row or the other, by the cycles that have passed in the round, of so many cycles.
pub fn one_of(modulus: u32, test: Test, yes: NodeId, no: NodeId, cycle: Cycle) -> NodeId
    requires { 0 < modulus }
    ensures { result ≡ (if meets test (turn cycle modulus) then yes else no) }
{
    if cycle.meets(test, modulus) { yes } else { no }
}
