//! The bounds of a tree of each kind, of those of its children.
ghost use Rattle.std.specs.Prelude.{◌≡◌, ◌<◌, ℕ, Bool, pos};
ghost use Rattle.tdl_fraction.specs.Rational.{Rational, whole, ◌<ℚ◌};
ghost use Rattle.tdl_expr.specs.Tree.{Tree, Trees, Steps};
ghost use Rattle.tdl_expr.specs.Bounds.{sum_of_weights};
ghost use Rattle.tdl_expr.specs.Valid.{IsValid, AreValid, AreValidSteps};
ghost use Rattle.tdl_expr.specs.Tree as tree;
ghost use Rattle.tdl_expr.specs.declared.joinings.Op.{Op};
ghost use Rattle.tdl_expr.specs.declared.joinings.Side.TheVariants.{Left, Right, Both};
ghost use Rattle.tdl_expr.specs.declared.rounds.Test.{Test};
ghost use Rattle.tdl_control.specs.declared.leaves.Leaf.{Leaf};
ghost use Rattle.tdl_compile.specs.inside.Sizes.{NumbersStandFor, CollectsTrees, CollectsSteps};

use crate::asks::{grid_at, hang_at, shift_hang, shift_touches, touched};
use crate::numbers::{capped, least_multiple};
use crate::sizes::{Group, Growth, RowBounds};
use tdl_expr::Side;
use tdl_fraction::Frac;

impl RowBounds {
    pub(crate) fn of_silence() -> RowBounds
        ensures { NumbersStandFor result tree.Silence }
    {
        RowBounds {
            count: 0,
            load: 1,
            hang: 0,
            grid: 1,
            growth: Growth::none(),
        }
        .with_own()
    }

    pub(crate) fn of_leaf() -> RowBounds
        ensures { (leaf : Leaf) → NumbersStandFor result (tree.Pure leaf) }
    {
        RowBounds {
            count: 1,
            load: 1,
            hang: 0,
            grid: 1,
            growth: Growth::none(),
        }
        .with_own()
    }

    pub(crate) fn fast(self, rate: Frac) -> RowBounds
        requires { whole (pos 0) <ℚ rate }
        ensures { (e : Tree) → IsValid (tree.Fast rate e) → NumbersStandFor self e → NumbersStandFor result (tree.Fast rate e) }
    {
        let times = touched(rate);
        let visits = times.saturating_mul(self.load);
        RowBounds {
            count: times.saturating_mul(self.count),
            load: 1u64.saturating_add(visits),
            hang: hang_at(rate, self.hang),
            grid: grid_at(rate, self.grid),
            growth: self.growth.fast(rate),
        }
        .with_own()
    }

    pub(crate) fn rev(self) -> RowBounds
        ensures { (e : Tree) → NumbersStandFor self e → NumbersStandFor result (tree.Rev e) }
    {
        RowBounds {
            count: self.count,
            load: 1u64.saturating_add(self.load),
            hang: self.hang,
            grid: self.grid,
            growth: self.growth,
        }
        .with_own()
    }

    /// Of a choice by this selector among these trees.
    pub(crate) fn pick(self, choices: Group) -> RowBounds
        ensures { (e : Tree) (trees : Trees) → IsValid (tree.Pick e trees) → NumbersStandFor self e → CollectsTrees choices trees
            → NumbersStandFor result (tree.Pick e trees) }
    {
        let selecting = 1u64.saturating_add(self.load);
        let visits = self.count.max(1).saturating_mul(choices.loads);
        RowBounds {
            count: self.count.saturating_mul(choices.most),
            load: selecting.saturating_add(visits),
            hang: choices.hangs,
            grid: least_multiple(self.grid, choices.grids),
            growth: self.growth.with(choices.growth.asked_finer(self.grid)),
        }
        .with_own()
    }

    /// Of a round that has this tree in some cycles, and the other in the others.
    pub(crate) fn when(self, other: RowBounds) -> RowBounds
        ensures { (modulus : ℕ) (test : Test) (d e : Tree) → IsValid (tree.When modulus test d e) → NumbersStandFor self d → NumbersStandFor other e
            → NumbersStandFor result (tree.When modulus test d e) }
    {
        let own = 1u64.saturating_add(self.load);
        RowBounds {
            count: self.count.max(other.count),
            load: own.saturating_add(other.load),
            hang: self.hang.max(other.hang),
            grid: least_multiple(self.grid, other.grid),
            growth: self.growth.with(other.growth),
        }
        .with_own()
    }

    pub(crate) fn shift(self, by: Frac) -> RowBounds
        ensures { (e : Tree) → IsValid e → NumbersStandFor self e → NumbersStandFor result (tree.Shift by e) }
    {
        let times = shift_touches(by);
        let visits = times.saturating_mul(self.load);
        RowBounds {
            count: times.saturating_mul(self.count),
            load: 1u64.saturating_add(visits),
            hang: shift_hang(by, self.hang),
            grid: least_multiple(self.grid, by.denominator()),
            growth: self.growth.shift(by),
        }
        .with_own()
    }

    /// Of a join with this as its left side.
    pub(crate) fn join(self, side: Side, right: RowBounds) -> RowBounds
        ensures { (op : Op) (d e : Tree) → IsValid (tree.Join side op d e) → NumbersStandFor self d → NumbersStandFor right e
            → NumbersStandFor result (tree.Join side op d e) }
    {
        match side {
            Side::Left => self.join_wholes(right),
            Side::Right => right.join_wholes(self),
            Side::Both => self.join_both(right),
        }
    }

    // Of a join with this as the side that gives the wholes. The other is asked for the cycles that each whole touches.
    fn join_wholes(self, other: RowBounds) -> RowBounds
        ensures left { (op : Op) (d e : Tree) → IsValid (tree.Join Left op d e) → NumbersStandFor self d → NumbersStandFor other e
            → NumbersStandFor result (tree.Join Left op d e) }
        ensures right { (op : Op) (d e : Tree) → IsValid (tree.Join Right op e d) → NumbersStandFor self d → NumbersStandFor other e
            → NumbersStandFor result (tree.Join Right op e d) }
    {
        let span = capped(self.hang.saturating_mul(2).saturating_add(1));
        let events = self.count.saturating_mul(span);
        let asked = self.count.max(1).saturating_mul(span);
        let visits = asked.saturating_mul(other.load);
        let own = 1u64.saturating_add(self.load);
        RowBounds {
            count: events.saturating_mul(other.count),
            load: own.saturating_add(visits),
            hang: self.hang,
            grid: least_multiple(self.grid, other.grid),
            growth: self.growth.with(other.growth.at_wholes(self)),
        }
        .with_own()
    }

    // Of a join whose wholes are what those of both sides share.
    fn join_both(self, right: RowBounds) -> RowBounds
        ensures { (op : Op) (d e : Tree) → IsValid (tree.Join Both op d e) → NumbersStandFor self d → NumbersStandFor right e
            → NumbersStandFor result (tree.Join Both op d e) }
    {
        let pairs = self.count.saturating_mul(right.count);
        let sides = self.load.saturating_add(right.load);
        let own = 1u64.saturating_add(sides);
        RowBounds {
            count: pairs,
            load: own.saturating_add(pairs),
            hang: self.hang.min(right.hang),
            grid: least_multiple(self.grid, right.grid),
            growth: self.growth.with(right.growth),
        }
        .with_own()
    }

    pub(crate) fn ply(self, times: u32) -> RowBounds
        requires { 0 < times }
        ensures { (e : Tree) → IsValid e → NumbersStandFor self e → NumbersStandFor result (tree.Ply times e) }
    {
        let pieces = (times as u64).saturating_mul(self.count);
        let own = 1u64.saturating_add(self.load);
        RowBounds {
            count: pieces,
            load: own.saturating_add(pieces),
            hang: self.hang,
            grid: (times as u64).saturating_mul(self.grid),
            growth: self.growth,
        }
        .with_own()
    }

    /// As of the tree turned round: what passes is no more than there is.
    pub(crate) fn gate(self) -> RowBounds
        ensures { (from to : Rational) (inside : Bool) (e : Tree) → NumbersStandFor self e → NumbersStandFor result (tree.Gate from to inside e) }
    {
        self.rev()
    }
}

impl Group {
    pub(crate) fn none() -> Group
        ensures trees { CollectsTrees result tree.empty }
        ensures steps { CollectsSteps result tree.none }
    {
        Group {
            counts: 0,
            most: 0,
            loads: 0,
            hangs: 0,
            grids: 1,
            growth: Growth::none(),
        }
    }

    /// With one more tree, before the others, of this weight where it is a step, and of 1 elsewhere.
    pub(crate) fn with(self, first: RowBounds, weight: u64) -> Group
        ensures trees { (e : Tree) (trees : Trees) → weight ≡ 1 → IsValid e → AreValid trees → NumbersStandFor first e → CollectsTrees self trees
            → CollectsTrees result (tree.child e trees) }
        ensures steps { (e : Tree) (steps : Steps) → 0 < weight → IsValid e → AreValidSteps steps → NumbersStandFor first e → CollectsSteps self steps
            → CollectsSteps result (tree.step weight e steps) }
    {
        Group {
            counts: first.count.saturating_add(self.counts),
            most: first.count.max(self.most),
            loads: first.load.saturating_add(self.loads),
            hangs: first.hang.max(self.hangs),
            grids: least_multiple(first.grid, self.grids),
            growth: first.growth.asked_finer(weight).with(self.growth),
        }
    }

    /// As steps, whose weights have this sum.
    pub(crate) fn time_cat(self, sum: u64) -> RowBounds
        requires { 0 < sum }
        ensures { (steps : Steps) → sum ≡ sum_of_weights steps → CollectsSteps self steps → NumbersStandFor result (tree.TimeCat steps) }
    {
        RowBounds {
            count: self.counts,
            load: 1u64.saturating_add(self.loads),
            hang: self.hangs,
            grid: sum.saturating_mul(self.grids),
            growth: self.growth,
        }
        .with_own()
    }

    /// In turn.
    pub(crate) fn cat(self) -> RowBounds
        ensures { (trees : Trees) → CollectsTrees self trees → NumbersStandFor result (tree.Cat trees) }
    {
        RowBounds {
            count: self.most,
            load: 1u64.saturating_add(self.loads),
            hang: self.hangs,
            grid: self.grids,
            growth: self.growth,
        }
        .with_own()
    }

    /// At the same time.
    pub(crate) fn stack(self) -> RowBounds
        ensures { (trees : Trees) → CollectsTrees self trees → NumbersStandFor result (tree.Stack trees) }
    {
        RowBounds {
            count: self.counts,
            load: 1u64.saturating_add(self.loads),
            hang: self.hangs,
            grid: self.grids,
            growth: self.growth,
        }
        .with_own()
    }
}
