// Which patterns are programs: their loads, and the faults of those that go above a limit.
ghost use Rattle.std.specs.Prelude.{IfSome};
ghost use Rattle.tdl_expr.specs.Rows.{IsRow};

use crate::patterns::program_of;
use std::alloc::Global;
use std::test::Fail;
use tdl_compile::{CompileFault, compile};
use tdl_control::Leaf;
use tdl_expr::{Node, NodeId, Table};
use tdl_fraction::Frac;
use tdl_prepare::{PrepareFault, prepare_pattern};
use tdl_script::read_pattern;

// Patterns with their loads, or why they are no programs.
static LOADS: [(&[u8], Result<u64, PrepareFault>); 23] = [
    (b"n \"0\"", Ok(1)),
    (b"fast 1.5 $ n \"0\"", Ok(4)),
    (
        b"fast 256 $ fast 512 $ n \"0\"",
        Err(PrepareFault::TooDense { load: 131_329 }),
    ),
    (b"fast 256 $ fast 256 $ n \"0\"", Ok(65_793)),
    (
        b"fast 300 $ fast 256 $ n \"0\"",
        Err(PrepareFault::TooFar {
            reach: 80_530_636_800,
        }),
    ),
    (b"fast (45/32768) $ slow 32768 $ slow 16 $ n \"0\"", Ok(7)),
    (
        b"fast (45/32768) $ slow 32768 $ slow 17 $ n \"0\"",
        Err(PrepareFault::TooFine {
            grid: 18_691_697_672_192,
        }),
    ),
    // at the limit, and one above it
    (
        b"stack [fast 65535 $ n \"0\", fast 65534 $ n \"0\"]",
        Ok(131_072),
    ),
    (
        b"stack [fast 65535 $ n \"0\", fast 65535 $ n \"0\"]",
        Err(PrepareFault::TooDense { load: 131_073 }),
    ),
    (
        b"fast 65535 $ fast 65535 $ fast 65535 $ fast 65535 $ fast 65535 $ n \"0\"",
        Err(PrepareFault::TooDense { load: u64::MAX }),
    ),
    // the grid is above 2^80, and then down to 1 again
    (
        b"slow 65449 $ slow 65479 $ slow 65497 $ slow 65519 $ slow 65521 \
          $ fast (65449/65450) $ fast (65479/65480) $ fast (65497/65498) $ fast (65519/65520) $ fast (65521/65522) \
          $ n \"0\"",
        Err(PrepareFault::TooFine { grid: u64::MAX }),
    ),
    // a side of a join is asked for each whole of the other
    (b"(fast 4 $ n \"0\") # (fast 40 $ n \"0\")", Ok(170)),
    (b"(fast 4 $ n \"0\") +| (fast 40 $ n \"0\")", Ok(242)),
    (b"(fast 4 $ n \"0\") |+| (fast 40 $ n \"0\")", Ok(207)),
    // in each cycle a whole that touches up to 6,001
    (
        b"(slow 3000 $ n \"0\") # (fast 40 $ n \"0\")",
        Err(PrepareFault::TooDense { load: 246_044 }),
    ),
    // the wholes reach above 2^79 cycles, and then down to 2^47 again
    (
        b"mask \"1\" $ fast 60000 $ fast 60000 \
          $ slow 60000 $ slow 60000 $ slow 60000 $ slow 60000 $ slow 60000 $ silence",
        Err(PrepareFault::TooDense {
            load: 432_028_800_180_007,
        }),
    ),
    (b"0.25 ~> (fast 3 $ n \"0\")", Ok(9)),
    (b"2 <~ (fast 3 $ n \"0\")", Ok(5)),
    (b"every 3 (fast 2) $ fast 5 $ n \"0\"", Ok(20)),
    (b"ply 3 $ fast 5 $ n \"0\"", Ok(22)),
    // two gates of 23 each
    (b"within (0, 1) id $ ply 3 $ fast 5 $ n \"0\"", Ok(47)),
    (b"bd sn", Ok(3)),
    (
        b"ply 512 $ ply 512 $ s \"bd\"",
        Err(PrepareFault::TooDense { load: 262_659 }),
    ),
];

fn load_of(alloc: Global, pattern: &[u8]) -> Option<Result<u64, PrepareFault>> {
    let pattern = read_pattern(alloc, pattern).ok()?;
    match prepare_pattern(alloc, &pattern) {
        Ok(program) => Some(Ok(program.load())),
        Err(fault) => Some(Err(fault)),
    }
}

fn have_loads(alloc: Global) -> bool {
    for (pattern, load) in &LOADS {
        if load_of(alloc, pattern) != Some(*load) {
            return false;
        }
    }
    true
}

#[test]
fn keeps_to_the_limits(rt: HostRuntime) {
    assert!(rt; have_loads(rt.alloc()));
}

#[test]
fn tells_its_grid(rt: HostRuntime) {
    let program = program_of(rt.alloc(), b"slow 2 $ fast 3 $ n \"0\"");
    assert!(rt; program.map(|program| program.grid()) == Some(3));
}

#[test]
fn tells_its_count(rt: HostRuntime) {
    let pattern = b"every 4 (fast 2) $ jux rev $ s \"bd*2 [~ sn] hh*4 <cp arpy>\" # n \"<0 2 5>\"";
    let program = program_of(rt.alloc(), pattern);
    assert!(rt; program.map(|program| program.count()) == Some(32));
}

// A leaf, below the same rate so many times.
type Chain = (&'static [u8], u32);

// A chain, later by a fraction if there is one, in a table with other chains before it. With its load, its row and
// how many rows there are, or why it is no program.
#[derive(Clone, Copy)]
struct Tree {
    others: &'static [Chain],
    chain: Chain,
    by: &'static [u8],
    made: Result<(u64, u32, u32), CompileFault>,
}

static TREES: [Tree; 4] = [
    Tree {
        others: &[],
        chain: (b"1", 2047),
        by: b"",
        made: Ok((2048, 2047, 2048)),
    },
    Tree {
        others: &[(b"65535", 9), (b"1/65535", 9)],
        chain: (b"2", 1),
        by: b"",
        made: Ok((3, 21, 22)),
    },
    Tree {
        others: &[],
        chain: (b"1", 0),
        by: b"1/400000009",
        made: Err(CompileFault::TooFine {
            grid: 18_432_000_414_720,
        }),
    },
    Tree {
        others: &[],
        chain: (b"1", 0),
        by: b"68719476735",
        made: Err(CompileFault::TooFar {
            reach: 68_720_525_311,
        }),
    },
];

fn add_chain(table: &mut Table, rate: &[u8], times: u32) -> Option<NodeId>
    ensures { IfSome result (λ id. IsRow table.new id) }
{
    let rate = Frac::read(rate)?;
    let leaf = Leaf::Index(0);
    let leaf = table.push(Node::Pure { leaf }).ok()?;
    add_rates(table, leaf, rate, times)
}

// The rate, if it is above 0, so many times over a row.
fn add_rates(table: &mut Table, first: NodeId, rate: Frac, times: u32) -> Option<NodeId>
    requires { IsRow table.old first }
    ensures { IfSome result (λ id. IsRow table.new id) }
{
    let mut last = first;
    for _ in 0..times {
        if Frac::whole(0).is_less(rate) {
            last = table.push(Node::Fast { rate, child: last }).ok()?;
        }
    }
    Some(last)
}

fn add_tree(table: &mut Table, tree: &Tree) -> Option<NodeId>
    ensures { IfSome result (λ id. IsRow table.new id) }
{
    for (rate, times) in tree.others {
        add_chain(table, rate, *times)?;
    }
    let (rate, times) = tree.chain;
    let child = add_chain(table, rate, times)?;
    match Frac::read(tree.by) {
        Some(by) => table.push(Node::Shift { by, child }).ok(),
        None => Some(child),
    }
}

fn is_made(alloc: Global, tree: &Tree) -> Option<bool> {
    let mut table = Table::new(alloc);
    let root = add_tree(&mut table, tree)?;
    let made = match compile(alloc, table, root) {
        Ok(program) => Ok((
            program.load(),
            program.root().index(),
            program.table().rows(),
        )),
        Err(fault) => Err(fault),
    };
    Some(made == tree.made)
}

fn are_made(alloc: Global) -> bool {
    for tree in &TREES {
        if is_made(alloc, tree) != Some(true) {
            return false;
        }
    }
    true
}

// What is beyond texts: a table that is full, rows that are not reached, and shifts by any fraction.
#[test]
fn compiles_trees_at_the_limits(rt: HostRuntime) {
    assert!(rt; are_made(rt.alloc()));
}

#[test]
fn says_why(rt: HostRuntime) -> Result<(), Fail> {
    let fault = CompileFault::TooFar {
        reach: 80_530_636_800,
    };
    let text = format!(in rt.alloc(); "{fault}")?;
    assert!(rt; text.as_str() == "the pattern has times as far as 80530636800 cycles");
    Ok(())
}
