// Choices among choices: what is made with three numbers, each of which may be chosen.
ghost use Rattle.std.specs.Prelude.{ℕ, List};
ghost use Rattle.std.specs.List.{All};
ghost use Rattle.tdl_expr.specs.declared.nodes.Node.{Node as Row};
ghost use Rattle.tdl_expr.specs.Tree.{Tree};
ghost use Rattle.tdl_fraction.specs.Rational.{Rational};
ghost use Rattle.tdl_rows.specs.Arguments.{argument_at, choose_among_at, numbers_of, IsArgument};
ghost use Rattle.tdl_rows.specs.Built.{Built};
ghost use Rattle.tdl_rows.specs.Chosen.{AllAmong, StaysAmong};
ghost use Rattle.tdl_rows.specs.Joined.{choose, choose_both};
ghost use Rattle.tdl_rows.specs.Lowers.{Gains, LowersTo};
ghost use Rattle.tdl_rows.specs.Stays.{first-stays, second-stays, third-stays};

use crate::choices::{ByNumber, choose};
use std::alloc::Global;
use tdl_expr::{Arg, NodeId, PushFault, Table};
use tdl_fraction::Frac;

/// What is made of rows with three numbers.
pub trait ByNumbers {
    /// The tree that it makes with three numbers, and the tree's rows, over the rows of a table.
    ghost made: { List Row → Self → Rational → Rational → Rational → Built Tree };

    /// It speaks of rows of the table.
    ghost stands: { List Row → Self → Type 0 };

    /// The numbers that it takes.
    ghost takes: { Self → Rational → Rational → Rational → Type 0 };

    /// The row that is made with three numbers.
    fn row(
        &self,
        alloc: Global,
        first: Frac,
        second: Frac,
        third: Frac,
        table: &mut Table,
    ) -> Result<NodeId, PushFault>
        requires stands { stands table.old self.now }
        requires takes { takes self.now first second third }
        ensures { LowersTo table.old table.new (made table.old self.now first second third) result };

    /// It makes the same while a table gains rows.
    ghost stays: { (old new : List Row) (rows : List ℕ) (x : Self) → Gains old new rows → stands old x → StaysAmong (stands new x) (made old x) (made new x) };
}

/// The row for three arguments: where they are chosen, the choice by the first among the choices by the second
/// among those by the third. An argument that is not needed is a plain number, which costs no row.
pub fn choose_among<M: ByNumbers>(
    alloc: Global,
    first: &Arg,
    second: &Arg,
    third: &Arg,
    made: &M,
    table: &mut Table,
) -> Result<NodeId, PushFault>
    requires stands { M.stands table.old made.now }
    requires first { IsArgument table.old first.now }
    requires second { IsArgument table.old second.now }
    requires third { IsArgument table.old third.now }
    requires takes { AllAmong (M.takes made.now) (numbers_of first.now) (numbers_of second.now) (numbers_of third.now) }
    ensures { LowersTo table.old table.new (choose_among_at table.old first.now second.now third.now (M.made table.old made.now)) result }
{
    let by_first = ByFirst {
        made,
        second,
        third,
    };
    choose(alloc, first, &by_first, table)
}

// What is made with the first number, where the others are arguments.
#[derive(Drop)]
struct ByFirst<'a, M> {
    made: &'a M,
    second: &'a Arg,
    third: &'a Arg,
}

impl<'a, M: ByNumbers> ByNumber for ByFirst<'a, M> {
    ghost made = { λ nodes x a. choose_both (argument_at nodes x.second.now) (argument_at nodes x.third.now) (M.made nodes x.made.now a) };

    ghost stands = { λ nodes x. M.stands nodes x.made.now × (IsArgument nodes x.second.now × IsArgument nodes x.third.now) };

    ghost takes = { λ x a. All (λ b. All (M.takes x.made.now a b) (numbers_of x.third.now)) (numbers_of x.second.now) };

    ghost stays = { λ old new rows x gains stands. first-stays gains x.second.now x.third.now _ _ (M.stays old new rows x.made.now gains stands.0) stands.1 };

    fn row(&self, alloc: Global, number: Frac, table: &mut Table) -> Result<NodeId, PushFault> {
        let by_second = BySecond {
            made: self.made,
            first: number,
            third: self.third,
        };
        choose(alloc, self.second, &by_second, table)
    }
}

// What is made with the second number after the first, where the third is an argument.
#[derive(Drop)]
struct BySecond<'a, M> {
    made: &'a M,
    first: Frac,
    third: &'a Arg,
}

impl<'a, M: ByNumbers> ByNumber for BySecond<'a, M> {
    ghost made = { λ nodes x b. choose (argument_at nodes x.third.now) (M.made nodes x.made.now x.first b) };

    ghost stands = { λ nodes x. M.stands nodes x.made.now × IsArgument nodes x.third.now };

    ghost takes = { λ x b. All (M.takes x.made.now x.first b) (numbers_of x.third.now) };

    ghost stays = { λ old new rows x gains stands. second-stays gains x.third.now _ _ x.first (M.stays old new rows x.made.now gains stands.0) stands.1 };

    fn row(&self, alloc: Global, number: Frac, table: &mut Table) -> Result<NodeId, PushFault> {
        let by_third = ByThird {
            made: self.made,
            first: self.first,
            second: number,
        };
        choose(alloc, self.third, &by_third, table)
    }
}

// What is made with the third number after the others.
#[derive(Drop)]
struct ByThird<'a, M> {
    made: &'a M,
    first: Frac,
    second: Frac,
}

impl<'a, M: ByNumbers> ByNumber for ByThird<'a, M> {
    ghost made = { λ nodes x c. M.made nodes x.made.now x.first x.second c };

    ghost stands = { λ nodes x. M.stands nodes x.made.now };

    ghost takes = { λ x c. M.takes x.made.now x.first x.second c };

    ghost stays = { λ old new rows x gains stands. third-stays _ _ x.first x.second (M.stays old new rows x.made.now gains stands) };

    fn row(&self, alloc: Global, number: Frac, table: &mut Table) -> Result<NodeId, PushFault> {
        self.made.row(alloc, self.first, self.second, number, table)
    }
}
