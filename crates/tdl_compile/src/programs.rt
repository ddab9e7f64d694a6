ghost use Rattle.std.specs.Prelude.{◌≡◌, ◌<◌, ◌≤◌, ◌^◌, ◌⊎◌, Err, Some, None, IfOk, IfErr, IfSome};
ghost use Rattle.tdl_fraction.specs.Divisor.{lcm};
ghost use Rattle.tdl_fraction.specs.Units.{tick_units};
ghost use Rattle.tdl_expr.specs.Rows.{IsRow, tree_at};
ghost use Rattle.tdl_expr.specs.Bounds.{bounds, grid};
ghost use Rattle.tdl_expr.specs.Valid.{IsWithinLimits};
ghost use Rattle.tdl_compile.specs.Compiled.{bounds_fault};
ghost use Rattle.tdl_compile.specs.Grids.{IsGridWithin, AreGridsOf};

use crate::extents::extent_up_to;
use crate::faults::CompileFault;
use crate::numbers::least_multiple;
use crate::rows::{bounds_at, bounds_of_rows};
use crate::sizes::{Asked, Extent, RowBounds};
use std::alloc::Global;
use std::marker::Model;
use tdl_expr::{NodeId, Table};
use tdl_fraction::{LAST_CYCLE, TICK_UNITS};

// The most visits that a cycle asks for.
const MAX_LOAD: u64 = 131_072;

// The greatest denominator of a time.
const MAX_FINE: u64 = 1 << 44;

// The greatest size of a time, in cycles.
const MAX_REACH: u64 = 1 << 36;

/// A table with one of its rows, whose tree may be played: asked for arcs on the grid of ticks up to the last
/// cycle, it asks for no more visits, and meets no finer and no further times, than there may be.
#[derive(Drop)]
pub struct Program {
    table: Table,
    root: NodeId,
    count: u64,
    load: u64,
    unit: u64,
    rows: Vec<RowBounds>,
}

impl Model for Program {
    ghost use Rattle.tdl_compile.specs.Compiled.{Compiled};

    ghost Value = { Compiled };

    ghost use Rattle.std.specs.Prelude.{◌≡◌};
    ghost use Rattle.tdl_expr.specs.Rows.{IsRow, tree_at};
    ghost use Rattle.tdl_fraction.specs.Divisor.{lcm};
    ghost use Rattle.tdl_fraction.specs.Units.{tick_units};
    ghost use Rattle.tdl_expr.specs.Bounds.{bounds, grid};
    ghost use Rattle.tdl_expr.specs.Valid.{IsWithinLimits};
    ghost use Rattle.tdl_compile.specs.Grids.{AreGridsOf};

    ghost view = { λ p. record { nodes = p.table; root = p.root } };

    ghost invariant = { λ p. IsRow p.table p.root × IsWithinLimits (tree_at p.table p.root)
        × (p.count ≡ (bounds (tree_at p.table p.root)).count) × (p.load ≡ (bounds (tree_at p.table p.root)).load)
        × (p.unit ≡ lcm (grid (tree_at p.table p.root)) tick_units) × AreGridsOf p.table p.rows.items };
}

impl Program {
    /// The table, whose rows are those that were compiled.
    pub fn table(&self) -> &Table
        ensures { result.now ≡ self.now.nodes }
    {
        &self.table
    }

    /// The row that is played.
    pub fn root(&self) -> NodeId
        ensures value { result ≡ self.now.root }
        ensures row { IsRow self.now.nodes result }
        ensures limits { IsWithinLimits (tree_at self.now.nodes self.now.root) }
    {
        self.root
    }

    /// At most how many events a cycle of its tree has.
    pub fn count(&self) -> u64
        ensures { result ≡ (bounds (tree_at self.now.nodes self.now.root)).count }
    {
        self.count
    }

    /// How many visits a cycle of its tree asks for.
    pub fn load(&self) -> u64
        ensures { result ≡ (bounds (tree_at self.now.nodes self.now.root)).load }
    {
        self.load
    }

    /// The wholes of its tree's events begin and end at multiples of one over this number.
    pub fn grid(&self) -> u64
        ensures value { result ≡ grid (tree_at self.now.nodes self.now.root) }
        ensures positive { 0 < result }
        ensures small { result ≤ 2 ^ 44 }
    {
        self.grid_of(self.root)
    }

    /// Ticks and the wholes of its tree's events begin and end at multiples of one over this number.
    pub fn unit(&self) -> u64
        ensures value { result ≡ lcm (grid (tree_at self.now.nodes self.now.root)) tick_units }
        ensures small { result ≤ 2 ^ 44 }
    {
        self.unit
    }

    /// The wholes of the events of a row's tree begin and end at multiples of one over this number, wherever that tree
    /// may be asked for something.
    pub fn grid_of(&self, id: NodeId) -> u64
        requires { IsRow self.now.nodes id }
        ensures { IsGridWithin (tree_at self.now.nodes id) result }
    {
        self.rows[id.index() as usize].grid
    }
}

/// The program that plays this row of the table. Only what its tree asks for counts, whatever the other rows do.
/// The load is looked at first, then the fineness, then the reach, and each may be at its limit. A table that is
/// refused is lost.
pub fn compile(alloc: Global, table: Table, root: NodeId) -> Result<Program, CompileFault>
    requires { IsRow table root }
    ensures ok { IfOk result (λ program. program ≡ record { nodes = table; root = root }) }
    ensures limits { IfOk result (λ program. IsWithinLimits (tree_at program.nodes program.root)) }
    ensures refused { IfSome (bounds_fault (tree_at table root)) (λ fault. (result ≡ Err fault) ⊎ (result ≡ Err CompileFault.NoMemory)) }
    ensures only { IfErr result (λ fault. (bounds_fault (tree_at table root) ≡ Some fault) ⊎ (fault ≡ CompileFault.NoMemory)) }
{
    let Checked {
        count,
        load,
        unit,
        rows,
    } = check_tree(alloc, &table, root)?;
    Ok(Program {
        table,
        root,
        count,
        load,
        unit,
        rows,
    })
}

// What is kept of a tree that is within limits: its count, its load, its unit, and the bounds of all rows.
#[derive(Drop)]
struct Checked {
    count: u64,
    load: u64,
    unit: u64,
    rows: Vec<RowBounds>,
}

// The numbers of the tree, if it is within limits.
fn check_tree(alloc: Global, table: &Table, root: NodeId) -> Result<Checked, CompileFault>
    requires { IsRow table.now root }
    ensures count { IfOk result (λ checked. checked.count ≡ (bounds (tree_at table.now root)).count) }
    ensures load { IfOk result (λ checked. checked.load ≡ (bounds (tree_at table.now root)).load) }
    ensures unit { IfOk result (λ checked. checked.unit ≡ lcm (grid (tree_at table.now root)) tick_units) }
    ensures grids { IfOk result (λ checked. AreGridsOf table.now checked.rows.items) }
    ensures limits { IfOk result (λ _. IsWithinLimits (tree_at table.now root)) }
    ensures none { IfOk result (λ _. bounds_fault (tree_at table.now root) ≡ None) }
    ensures only { IfErr result (λ fault. (bounds_fault (tree_at table.now root) ≡ Some fault) ⊎ (fault ≡ CompileFault.NoMemory)) }
{
    let rows = bounds_of_rows(alloc, table)?;
    let RowBounds {
        count,
        load,
        grid,
        ..
    } = bounds_at(&rows, root);
    if load > MAX_LOAD {
        return Err(CompileFault::TooDense { load });
    }
    let asked = Asked {
        grid: TICK_UNITS,
        far: LAST_CYCLE as u64,
    };
    let limit = Extent {
        fine: MAX_FINE,
        reach: MAX_REACH,
    };
    let extent = extent_up_to(table, &rows, root, asked, limit);
    if extent.fine > MAX_FINE {
        return Err(CompileFault::TooFine { grid: extent.fine });
    }
    if extent.reach > MAX_REACH {
        return Err(CompileFault::TooFar {
            reach: extent.reach,
        });
    }
    let unit = least_multiple(grid, TICK_UNITS);
    Ok(Checked {
        count,
        load,
        unit,
        rows,
    })
}
