ghost use Rattle.std.specs.Prelude.{◌≡◌, ◌==◌, ◌<◌, ◌≤◌, ◌/◌, ◌^◌, [], ◌∷◌, ◌++◌, length, map, take, IfOk, OnOk, OnErr};
ghost use Rattle.std.specs.List.{All, HoldsAt, list_all, zip};
ghost use Rattle.tdl_expr.specs.Passed.{weight_sum, AreEnds, HasPassed, ends_after};
ghost use Rattle.tdl_expr.specs.Weights.{even_steps, lowest, steps_of};

use crate::ids::NodeId;
use crate::weights::common_divisor;
use std::alloc::Global;
use std::marker::Model;
use tdl_control::NoMemory;

/// A row with its weight, which is its share of a cycle among those of the other steps.
#[derive(Clone, Copy, PartialEq, Eq)]
pub struct Step {
    pub weight: u64,
    pub child: NodeId,
}

/// Where each step of a list ends among the weights.
#[derive(Drop)]
enum Ends {
    /// Each weight is 1, as in most lists.
    Even,
    At(Vec<u64>),
}

/// Steps, in the order in which they come in a cycle. The list knows where each step ends among the
/// weights, so that the step at a place of the cycle is found by a search.
#[derive(Drop)]
pub struct StepList {
    steps: Vec<Step>,
    ends: Ends,
}

impl Model for StepList {
    ghost use Rattle.std.specs.Prelude.{List, ◌≡◌};
    ghost use Rattle.tdl_expr.specs.declared.steps.Step.{Step as StepValue};
    ghost use Rattle.tdl_expr.specs.Passed.{AreEnds};

    ghost Value = { List StepValue };

    ghost view = { λ list. list.steps.items };

    ghost invariant = { λ list. AreEnds list.ends list.steps.items };
}

impl StepList {
    /// No steps. What the list grows by comes from the allocator.
    pub fn new(alloc: Global) -> StepList
        ensures { result ≡ [] }
    {
        StepList {
            steps: Vec::new(alloc),
            ends: Ends::Even,
        }
    }

    /// The steps of the vector.
    pub fn of(alloc: Global, steps: Vec<Step>) -> Result<StepList, NoMemory>
        ensures { IfOk result (λ list. list ≡ steps.items) }
    {
        let ends = ends_of(alloc, &steps)?;
        Ok(StepList { steps, ends })
    }

    /// How many steps there are.
    pub fn len(&self) -> usize
        ensures { result ≡ length self.now }
    {
        self.steps.len()
    }

    /// The step at this index, from 0.
    pub fn get(&self, index: usize) -> &Step
        requires { index < length self.now }
        ensures { HoldsAt (λ step. result.now ≡ step) self.now index }
    {
        &self.steps[index]
    }

    /// The steps in their order.
    pub fn as_slice(&self) -> &[Step]
        ensures { result.now ≡ self.now }
    {
        &self.steps
    }

    /// Puts the step at the end. `NoMemory` leaves the list as it was.
    pub fn push(&mut self, step: Step) -> Result<(), NoMemory>
        ensures ok { OnOk result (self.new ≡ self.old ++ step ∷ []) }
        ensures err { OnErr result (self.new ≡ self.old) }
    {
        if let Ends::Even = self.ends {
            let alloc = *self.steps.allocator();
            self.ends = Ends::At(sums_of(alloc, &self.steps)?);
        }
        if let Ends::At(ends) = &mut self.ends {
            let before = ends.last().copied().unwrap_or(0);
            ends.reserve(1)?;
            self.steps.push(step)?;
            ends.push_reserved(before.saturating_add(step.weight));
        }
        Ok(())
    }

    /// The sum of the weights of the first steps, so many.
    pub fn weight_before(&self, count: usize) -> u64
        requires within { count ≤ length self.now }
        requires sum { weight_sum self.now ≤ 2 ^ 40 }
        ensures { result ≡ weight_sum (take count self.now) }
    {
        match &self.ends {
            _ if count == 0 => 0,
            Ends::Even => count as u64,
            Ends::At(ends) => ends[count - 1],
        }
    }

    /// The sum of all weights.
    pub fn total_weight(&self) -> u64
        requires { weight_sum self.now ≤ 2 ^ 40 }
        ensures { result ≡ weight_sum self.now }
    {
        self.weight_before(self.len())
    }

    /// How many steps have ended where so much weight of the sequence has passed. It searches, and does
    /// not look at each step.
    pub fn passed(&self, weight: u64) -> usize
        requires { weight_sum self.now ≤ 2 ^ 40 }
        ensures { HasPassed self.now weight result }
    {
        match &self.ends {
            Ends::Even => (weight as usize).min(self.steps.len()),
            Ends::At(ends) => ends.partition_point(|end| *end <= weight),
        }
    }
}

// Where each step ends among the weights.
fn ends_of(alloc: Global, steps: &[Step]) -> Result<Ends, NoMemory>
    ensures { IfOk result (λ ends. AreEnds ends steps.now) }
{
    if is_even(steps) {
        return Ok(Ends::Even);
    }
    Ok(Ends::At(sums_of(alloc, steps)?))
}

fn is_even(steps: &[Step]) -> bool
    ensures { result ≡ list_all (λ s. s.weight == 1) steps.now }
{
    steps.iter().all(|step| step.weight == 1)
}

// The sum of the weights up to each step, with it.
fn sums_of(alloc: Global, steps: &[Step]) -> Result<Vec<u64>, NoMemory>
    ensures { IfOk result (λ sums. sums.items ≡ ends_after 0 steps.now) }
{
    let mut sums = Vec::new(alloc);
    sums.reserve(steps.len())?;
    let mut sum: u64 = 0;
    for step in steps {
        sum = sum.saturating_add(step.weight);
        sums.push(sum)?;
    }
    Ok(sums)
}

// These rows, each with weight 1.
pub(crate) fn even_steps(alloc: Global, ids: &[NodeId]) -> Result<Vec<Step>, NoMemory>
    ensures { IfOk result (λ steps. steps.items ≡ even_steps ids.now) }
{
    let steps = ids
        .iter()
        .map(|id| Step {
            weight: 1,
            child: *id,
        })
        .collect(alloc)?;
    Ok(steps)
}

// These rows with these counts as weights, without what divides all of them.
pub(crate) fn lowest_steps(
    alloc: Global,
    counts: &[u64],
    ids: &[NodeId],
) -> Result<Vec<Step>, NoMemory>
    requires some { 0 < length counts.now }
    requires positive { All (λ count. 0 < count) counts.now }
    ensures { IfOk result (λ steps. steps.items ≡ steps_of (lowest counts.now) ids.now) }
{
    divided_steps(alloc, counts, common_divisor(counts), ids)
}

// Counts are mostly the divisor itself, which takes no division.
fn quotient(count: u64, divisor: u64) -> u64
    requires { 0 < divisor }
    ensures { result ≡ count / divisor }
{
    if count == divisor {
        return 1;
    }
    count / divisor
}

// These rows with these counts as weights, divided by a number.
fn divided_steps(
    alloc: Global,
    counts: &[u64],
    divisor: u64,
    ids: &[NodeId],
) -> Result<Vec<Step>, NoMemory>
    requires { 0 < divisor }
    ensures { IfOk result (λ steps. steps.items ≡ map (λ p. record { weight = p.0 / divisor; child = p.1 }) (zip counts.now ids.now)) }
{
    let steps = counts
        .iter()
        .zip(ids)
        .map(|(count, id)| Step {
            weight: quotient(*count, divisor),
            child: *id,
        })
        .collect(alloc)?;
    Ok(steps)
}
