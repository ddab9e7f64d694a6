// A row that is changed by numbers, each of which may be chosen.
ghost use Rattle.std.specs.Prelude.{◌≤◌, ◌^◌, IsTrue, nat_abs};
ghost use Rattle.tdl_euclid.specs.Refusal.{has_rhythm};
ghost use Rattle.tdl_expr.specs.Rows.{IsRow, tree_at};
ghost use Rattle.tdl_rows.specs.Arguments.{HasBoundedParts};
ghost use Rattle.tdl_rows.specs.Joined.{euclid_of, fast_of, slow_of};
ghost use Rattle.tdl_rows.specs.Stays.{hits-stay, rate-stays};

use crate::choices::ByNumber;
use crate::nests::ByNumbers;
use crate::rates::{fast_of, slow_of};
use crate::rhythms::euclid_of;
use std::alloc::Global;
use tdl_expr::{NodeId, PushFault, Table};
use tdl_fraction::Frac;

/// The row, so many times as fast.
#[derive(Clone, Copy)]
pub struct Faster {
    pub id: NodeId,
}

impl ByNumber for Faster {
    ghost made = { λ nodes x rate. fast_of rate (tree_at nodes x.id) };

    ghost stands = { λ nodes x. IsRow nodes x.id };

    ghost takes = { λ x rate. Unit {0} };

    ghost stays = { λ old new rows x gains row. rate-stays gains x.id fast_of row };

    fn row(&self, _alloc: Global, rate: Frac, table: &mut Table) -> Result<NodeId, PushFault> {
        fast_of(table, rate, self.id)
    }
}

/// The row, so many times as slow.
#[derive(Clone, Copy)]
pub struct Slower {
    pub id: NodeId,
}

impl ByNumber for Slower {
    ghost made = { λ nodes x rate. slow_of rate (tree_at nodes x.id) };

    ghost stands = { λ nodes x. IsRow nodes x.id };

    ghost takes = { λ x rate. HasBoundedParts rate };

    ghost stays = { λ old new rows x gains row. rate-stays gains x.id slow_of row };

    fn row(&self, _alloc: Global, rate: Frac, table: &mut Table) -> Result<NodeId, PushFault> {
        slow_of(table, rate, self.id)
    }
}

/// The row at the hits of a rhythm: of so many hits, in so many steps, from such a step on.
#[derive(Clone, Copy)]
pub struct AtHits {
    pub id: NodeId,
}

impl ByNumbers for AtHits {
    ghost made = { λ nodes x hits steps from. euclid_of (tree_at nodes x.id) hits steps from };

    ghost stands = { λ nodes x. IsRow nodes x.id };

    ghost takes = { λ x hits steps from. IsTrue (has_rhythm hits.num steps.num) × (nat_abs from.num ≤ 2 ^ 30) };

    ghost stays = { λ old new rows x gains row. hits-stay gains x.id row };

    fn row(
        &self,
        alloc: Global,
        hits: Frac,
        steps: Frac,
        from: Frac,
        table: &mut Table,
    ) -> Result<NodeId, PushFault> {
        euclid_of(alloc, self.id, hits, steps, from, table)
    }
}
