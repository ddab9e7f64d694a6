// Syntax trees.
ghost use Rattle.std.specs.Prelude.{◌≡◌, List, IsTrue, IfSome};
ghost use Rattle.tdl_mini_tree.specs.Tree.{Layers as Trees};
ghost use Rattle.tdl_mini_tree.specs.Values.{operand_values};
ghost use Rattle.tdl_mini_tree.specs.View.{named, named_values, operand_of, trees_of};
ghost use Rattle.tdl_mini_tree.specs.Valid.{is_valid};
ghost use Rattle.tdl_mini_tree.specs.ValidNests.{IsValidOperand, IsValidNest};
ghost use Rattle.tdl_mini_tree.specs.Values.{values_of};
ghost use Rattle.tdl_mini_tree.specs.Extremes.{AreExtremes};

use crate::extremes::Extremes;
use crate::leaves::{Bracket, Kind, Number, Value};
use crate::played::extremes_of;
use smallvec::SmallVec;
use std::alloc::Global;
use std::default::MadeWith;

/// Layers inside a bracket, or an argument of a Euclid, by their index in the tree.
#[derive(Clone, Copy, Debug, PartialEq, Eq)]
pub struct NestId {
    pub index: u32,
}

/// Sequences that play together. Most layers have one.
#[derive(Drop)]
pub struct Layers {
    pub sequences: SmallVec<Sequence, 1>,
}

/// Groups with dots between them, of which most sequences have one.
#[derive(Drop)]
pub struct Sequence {
    pub groups: SmallVec<Group, 1>,
}

// What an unused place holds.
impl MadeWith<Global> for Sequence {
    fn made_with(alloc: Global) -> Sequence {
        Sequence {
            groups: SmallVec::new(alloc),
        }
    }
}

/// Steps one after another.
#[derive(Drop)]
pub struct Group {
    pub elements: Vec<Element>,
}

// What an unused place holds.
impl MadeWith<Global> for Group {
    fn made_with(alloc: Global) -> Group {
        Group {
            elements: Vec::new(alloc),
        }
    }
}

/// A part of a group.
#[derive(Drop)]
pub enum Element {
    /// A step, with the weight after `@` and the count after `!` where they are written.
    Played {
        step: MiniStep,
        weight: Option<Number>,
        count: Option<Number>,
    },
    /// The whole numbers from one to another, `..`.
    Range {
        first: Number,
        last: Number,
    },
    /// `_`
    Hold,
    /// `!` without a count.
    Repeat,
}

/// A term and the changes after it.
#[derive(Drop)]
pub struct MiniStep {
    pub term: Term,
    pub changes: Vec<StepChange>,
}

/// What a step begins with.
#[derive(Drop)]
pub enum Term {
    Value(Value),
    /// `~`
    Rest,
    Bracketed(Operand),
}

/// A change of a step.
#[derive(Drop)]
pub enum StepChange {
    /// `*`
    Fast(Operand),
    /// `/`
    Slow(Operand),
    /// `(hits,steps,from)`; each argument is one sequence.
    Euclid {
        hits: NestId,
        steps: NestId,
        from: Option<NestId>,
    },
}

/// Braces with a `%` after each, and what follows the last `%`. What follows a `%` is the factor of the
/// brace before it.
#[derive(Drop)]
pub struct Operand {
    pub braces: Vec<NestId>,
    pub last: Last,
}

impl Operand {
    /// The first bracket, of which the others are factors; none where there is a number alone.
    pub fn first(&self) -> Option<NestId>
        ensures values { (trees : List Trees) → operand_values (operand_of trees self.now) ≡ named_values trees result }
        ensures valid { (kind : Kind) (trees : List Trees) → IsValidOperand kind trees self.now → IfSome result (IsValidNest kind trees) }
    {
        match self.braces.first() {
            Some(first) => Some(*first),
            None => match self.last {
                Last::Nest { nest, .. } => Some(nest),
                Last::Number(_) => None,
            },
        }
    }
}

/// The last part of an operand.
#[derive(Clone, Copy, PartialEq, Eq)]
pub enum Last {
    Number(Number),
    Nest { bracket: Bracket, nest: NestId },
}

/// The syntax tree of a text of a kind. Layers inside others come before them, and the text's are the last.
/// The rules on numbers, sizes, nesting and Euclids hold in it, and its values are those of the kind.
#[derive(Drop)]
pub struct Tree {
    pub kind: Kind,
    pub nests: Vec<Layers>,
    pub root: NestId,
    pub ghost valid: { IsTrue (is_valid kind (named (trees_of nests.items) root)) },
}

impl Tree {
    /// The span of its values. A walk over the tree.
    pub fn span(&self) -> Extremes
        ensures { AreExtremes result (values_of (named (trees_of self.now.nests.items) self.now.root)) }
    {
        extremes_of(&self.nests, self.root)
    }
}
