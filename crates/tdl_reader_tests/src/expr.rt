// Node tables, and lists of steps.
ghost use Rattle.std.specs.Prelude.{◌≡◌, length, IfOk};
ghost use Rattle.tdl_expr.specs.Passed.{weight_sum};

use crate::patterns::{Rows, Size, have_rows, have_sizes};
use std::alloc::Global;
use std::test::Fail;
use tdl_expr::{Node, NodeId, PushFault, Step, StepList, Table};

// A row of each kind, and each join of two rows, of one and of none.
static SIZES: [Size; 14] = [
    Size(b"fast 2 $ s \"bd\"", 2, 1),
    Size(b"s \"bd@3 ~\"", 3, 2),
    Size(b"rev $ s \"bd\"", 2, 1),
    Size(b"fast \"<2 3>\" $ s \"bd\"", 7, 7),
    Size(b"every 3 id $ s \"bd\"", 2, 2),
    Size(b"1 ~> s \"bd\"", 2, 1),
    Size(b"struct \"t\" $ s \"bd\"", 3, 2),
    Size(b"ply 2 $ s \"bd\"", 2, 1),
    Size(b"within (0, 1) id $ s \"bd\"", 4, 4),
    Size(b"cat [silence, s \"bd\"]", 3, 2),
    Size(b"stack [silence, s \"bd\"]", 3, 2),
    Size(b"fastcat [silence, s \"bd\"]", 3, 2),
    Size(b"stack [s \"bd\"]", 1, 0),
    Size(b"cat [] # s \"bd\"", 3, 2),
];

#[test]
fn counts_rows_and_links(rt: HostRuntime) {
    assert!(rt; have_sizes(rt.alloc(), &SIZES));
}

static WEIGHTS: [Rows; 1] = [Rows(
    b"timecat [(1.5, s \"bd\"), (1, s \"sn\")]",
    b"s=bd; s=sn; timecat 3*0 2*1",
)];

#[test]
fn brings_weights_to_whole_numbers(rt: HostRuntime) {
    assert!(rt; have_rows(rt.alloc(), &WEIGHTS));
}

// Why a table takes no further row of silence, after so many.
fn refusal_after(alloc: Global, count: u32) -> Option<PushFault> {
    let mut table = Table::new(alloc);
    for _ in 0..count {
        if let Err(fault) = table.push(Node::Silence) {
            return Some(fault);
        }
    }
    None
}

#[test]
fn has_at_most_2048_rows(rt: HostRuntime) {
    let (rows, links) = (2049, 0);
    let fault = PushFault::TooLarge { rows, links };
    assert!(rt; refusal_after(rt.alloc(), 2048) == None);
    assert!(rt; refusal_after(rt.alloc(), 2049) == Some(fault));
}

// Steps with weights 3, 2 and 4.
fn weighted(alloc: Global) -> Result<StepList, Fail>
    ensures { IfOk result (λ steps. (weight_sum steps ≡ 9) × (length steps ≡ 3)) }
{
    let child = NodeId::default();
    let mut steps = StepList::new(alloc);
    steps.push(Step { weight: 3, child })?;
    steps.push(Step { weight: 2, child })?;
    steps.push(Step { weight: 4, child })?;
    Ok(steps)
}

// How much weight has passed, and how many steps have ended then.
static PASSED: [(u64, usize); 7] = [(0, 0), (2, 0), (3, 1), (5, 2), (8, 2), (9, 3), (10, 3)];

#[test]
fn finds_what_has_passed(rt: HostRuntime) -> Result<(), Fail> {
    let steps = weighted(rt.alloc())?;
    assert!(rt; steps.total_weight() == 9);
    assert!(rt; steps.weight_before(2) == 5);
    for (weight, count) in &PASSED {
        assert!(rt; steps.passed(*weight) == *count);
    }
    Ok(())
}
