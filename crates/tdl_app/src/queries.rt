ghost use Rattle.std.specs.Prelude.{IfOk, IfErr};
ghost use Rattle.tdl_words.specs.View.{query_of};
ghost use Rattle.tdl_app.specs.inside.QueryFaults.{IsFaultOf, IsPlan};

use crate::arcs::read_arc;
use crate::query_faults::QueryFault;
use std::alloc::Global;
use tdl_compile::Program;
use tdl_fraction::TimeArc;
use tdl_prepare::prepare_pattern;
use tdl_script::read_pattern;
use tdl_words::QueryWords;

// What a query asks for: the events of a program in an arc.
#[derive(Drop)]
pub(crate) struct QueryPlan {
    pub program: Program,
    pub arc: TimeArc,
}

// What a query asks for, or why it has no events. The pattern is read first, then the arc, and then the pattern's limits
// are looked at.
pub(crate) fn read_query(alloc: Global, query: &QueryWords<'_>) -> Result<QueryPlan, QueryFault>
    ensures ok { IfOk result (λ plan. IsPlan (query_of query.now) plan.program plan.arc) }
    ensures err { IfErr result (IsFaultOf (query_of query.now)) }
{
    let pattern = read_pattern(alloc, query.pattern)?;
    let arc = read_arc(query.from, query.to)?;
    let program = prepare_pattern(alloc, &pattern)?;
    Ok(QueryPlan { program, arc })
}
