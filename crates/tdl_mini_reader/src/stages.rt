// What may follow in a step, and what an open bracket is in the level round it.
ghost use Rattle.std.specs.Prelude.{◌≡◌, IfOk, List, ◌++◌, ◌∷◌, []};
ghost use Rattle.tdl_mini_tree.specs.Tree.{Layers as Trees};
ghost use Rattle.tdl_mini_machine.specs.Machine.States.{step_by_role};
ghost use Rattle.tdl_mini_tree.specs.View.{step_of, operand_of, changed};
ghost use Rattle.tdl_mini_reader.specs.ReaderView.{role_of};
ghost use Rattle.tdl_mini_reader.specs.inside.PartView.{braced_step, IsPending, ends_step};

use std::alloc::Global;
use std::mem;
use tdl_control::{NoMemory, Word};
use tdl_mini_tree::{Bracket, Last, MiniStep, NestId, Number, Operand, StepChange, Term, Value};

/// What an operand is in a step: its term, or the factor of a further change.
#[derive(Drop)]
pub enum Role {
    Term,
    Faster(MiniStep),
    Slower(MiniStep),
}

/// Between which tokens of an element the reader stands.
#[derive(Drop)]
pub enum Stage {
    /// Between elements.
    Ready,
    /// After a word or digits, where `:` may follow; after that `:`.
    Voiced(Word),
    Sampling(Word),
    /// After a number, where `..` may follow; after that `..`.
    Numbered(Number),
    Ranging(Number),
    /// After a `}`, where `%` may follow; where a factor is wanted.
    Braced {
        role: Role,
        braces: Vec<NestId>,
        last: NestId,
    },
    Wanting {
        role: Role,
        braces: Vec<NestId>,
    },
    /// After a term or a change; after `@`; after the weight.
    Stepping(MiniStep),
    Weighing(MiniStep),
    Weighted {
        step: MiniStep,
        weight: Number,
    },
    /// After a `!`; a count may follow where a step without one ends before it.
    Repeating {
        takes_count: bool,
    },
    /// After the text's end.
    Ended,
}

/// An operand's bracket after some braces, or the arguments of a Euclid after those that are finished.
#[derive(Drop)]
pub(crate) enum Hole {
    Operand {
        role: Role,
        braces: Vec<NestId>,
        bracket: Bracket,
    },
    Hits(MiniStep),
    Steps {
        step: MiniStep,
        hits: NestId,
    },
    From {
        step: MiniStep,
        hits: NestId,
        steps: NestId,
    },
}

/// A step that has a term alone.
pub(crate) fn begins(alloc: Global, term: Term) -> MiniStep
    ensures term { result.term ≡ term }
    ensures changes { result.changes.items ≡ [] }
{
    MiniStep {
        term,
        changes: Vec::new(alloc),
    }
}

impl Role {
    /// The step with this operand in it.
    pub(crate) fn join(self, alloc: Global, operand: Operand) -> Result<MiniStep, NoMemory>
        ensures { IfOk result (λ step. (trees : List Trees) → step_of trees step ≡ step_by_role (role_of trees self) (operand_of trees operand)) }
    {
        match self {
            Role::Term => Ok(begins(alloc, Term::Bracketed(operand))),
            Role::Faster(step) => changed(step, StepChange::Fast(operand)),
            Role::Slower(step) => changed(step, StepChange::Slow(operand)),
        }
    }
}

/// The step with a further change.
pub(crate) fn changed(step: MiniStep, change: StepChange) -> Result<MiniStep, NoMemory>
    ensures { IfOk result (λ after. (trees : List Trees) → step_of trees after ≡ changed trees (step_of trees step) change) }
{
    let mut step = step;
    step.changes.push(change)?;
    Ok(step)
}

/// The step with an operand that ends with a brace.
pub(crate) fn end_brace(
    alloc: Global,
    role: Role,
    braces: Vec<NestId>,
    nest: NestId,
) -> Result<MiniStep, NoMemory>
    ensures { IfOk result (λ step. (trees : List Trees) → step_of trees step ≡ braced_step trees role braces.items nest) }
{
    let last = Last::Nest {
        bracket: Bracket::Brace,
        nest,
    };
    role.join(alloc, Operand { braces, last })
}

impl Stage {
    /// Takes the step that ends here, or leaves the stage as it is.
    pub(crate) fn pending(&mut self, alloc: Global) -> Result<Option<MiniStep>, NoMemory>
        ensures { IfOk result (IsPending self.old self.new) }
    {
        let step = match mem::replace(self, Stage::Ready) {
            Stage::Voiced(word) => begins(alloc, Term::Value(Value::Sound { word, number: None })),
            Stage::Numbered(number) => { begins(alloc, Term::Value(Value::Number(number))) }
            Stage::Braced { role, braces, last } => end_brace(alloc, role, braces, last)?,
            Stage::Stepping(step) => step,
            other => {
                *self = other;
                return Ok(None);
            }
        };
        Ok(Some(step))
    }

    /// Puts a further stage in the place of `Ready`, which holds nothing that is to be let go.
    pub(crate) fn follow(&mut self, next: Stage)
        requires { self.old ≡ Stage.Ready }
        ensures { self.new ≡ next }
    {
        mem::forget(mem::replace(self, next));
    }

    /// Whether a step without a count ends here.
    pub(crate) fn ends_step(&self) -> bool
        ensures { result ≡ ends_step self.now }
    {
        matches!(
            self,
            Stage::Voiced(_)
                | Stage::Numbered(_)
                | Stage::Braced { .. }
                | Stage::Stepping(_)
                | Stage::Weighted { .. }
        )
    }
}
