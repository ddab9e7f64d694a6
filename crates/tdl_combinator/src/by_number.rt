// Rows that are changed by a number, which may be chosen.
ghost use Rattle.tdl_expr.specs.Rows.{IsRow, tree_at};
ghost use Rattle.tdl_rows.specs.Arguments.{HasBoundedParts};
ghost use Rattle.tdl_rows.specs.Stays.{rate-stays};
ghost use Rattle.tdl_combinator.specs.inside.Numbered.{made_by};

use crate::in_time::{earlier_of, iter_of, later_of};
use crate::of_events::{ply_of, segment_of};
use std::alloc::Global;
use tdl_expr::{NodeId, PushFault, Table};
use tdl_fraction::Frac;
use tdl_rows::ByNumber;

/// The functions of one number that have no other function in them, but those of a rate.
#[derive(Clone, Copy, PartialEq, Eq)]
pub(crate) enum Way {
    Later,
    Earlier,
    Ply,
    Segment,
    Iter,
}

/// The row, changed so.
#[derive(Clone, Copy)]
pub(crate) struct Changed {
    pub(crate) way: Way,
    pub(crate) id: NodeId,
}

impl ByNumber for Changed {
    ghost made = { λ nodes x number. made_by x.way number (tree_at nodes x.id) };

    ghost stands = { λ nodes x. IsRow nodes x.id };

    ghost takes = { λ x number. HasBoundedParts number };

    ghost stays = { λ old new rows x gains row. rate-stays gains x.id (made_by x.way) row };

    fn row(&self, alloc: Global, number: Frac, table: &mut Table) -> Result<NodeId, PushFault> {
        match self.way {
            Way::Later => later_of(table, number, self.id),
            Way::Earlier => earlier_of(table, number, self.id),
            Way::Ply => ply_of(table, number, self.id),
            Way::Segment => segment_of(table, number, self.id),
            Way::Iter => iter_of(alloc, table, number, self.id),
        }
    }
}
