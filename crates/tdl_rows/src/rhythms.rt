// Rows at the hits of Euclidean rhythms.
ghost use Rattle.std.specs.Prelude.{◌≡◌, ◌≤◌, ◌^◌, IsTrue, map, cond, length, nat_abs, IfOk};
ghost use Rattle.std.specs.List.{list_all};
ghost use Rattle.tdl_euclid.specs.Euclid.{euclid};
ghost use Rattle.tdl_euclid.specs.Refusal.{has_rhythm};
ghost use Rattle.tdl_expr.specs.Rows.{IsRow, tree_at};
ghost use Rattle.tdl_rows.specs.Joined.{euclid_of, rest_of};
ghost use Rattle.tdl_rows.specs.Lowers.{LowersTo};

use crate::joins::fastcat_of;
use std::alloc::Global;
use tdl_control::NoMemory;
use tdl_euclid::{Bits, rhythm};
use tdl_expr::{Node, NodeId, PushFault, Table};
use tdl_fraction::Frac;

/// The row at the hits of a rhythm, and silence at its other steps.
pub fn euclid_of(
    alloc: Global,
    id: NodeId,
    hits: Frac,
    steps: Frac,
    from: Frac,
    table: &mut Table,
) -> Result<NodeId, PushFault>
    requires row { IsRow table.old id }
    requires rhythm { IsTrue (has_rhythm hits.num steps.num) }
    requires from { nat_abs from.num ≤ 2 ^ 30 }
    ensures { LowersTo table.old table.new (euclid_of (tree_at table.old id) hits steps from) result }
{
    let bits = rhythm_of(hits, steps, from);
    let rest = rest_of(id, bits, table)?;
    let ids = hit_rows(alloc, bits, id, rest)?;
    fastcat_of(alloc, &ids, table)
}

// What is played where there is no hit; where each step is one, no row.
fn rest_of(id: NodeId, bits: Bits, table: &mut Table) -> Result<NodeId, PushFault>
    requires { IsRow table.old id }
    ensures { LowersTo table.old table.new (rest_of (tree_at table.old id) bits) result }
{
    if all_hits(bits) {
        return Ok(id);
    }
    table.push(Node::Silence)
}

// The rhythm of a Euclid that is taken.
fn rhythm_of(hits: Frac, steps: Frac, from: Frac) -> Bits
    requires rhythm { IsTrue (has_rhythm hits.num steps.num) }
    requires from { nat_abs from.num ≤ 2 ^ 30 }
    ensures value { result ≡ euclid hits.num (nat_abs steps.num) from.num }
    ensures few { length result ≤ 128 }
{
    let steps = steps.numerator().unsigned_abs() as u32;
    rhythm(hits.numerator() as i32, steps, from.numerator() as i32).unwrap()
}

fn all_hits(bits: Bits) -> bool
    ensures { result ≡ list_all (λ hit. hit) bits }
{
    for i in 0..bits.len() {
        if !bits.get(i) {
            return false;
        }
    }
    true
}

// One row at each hit and the other at the other steps.
fn hit_rows(
    alloc: Global,
    bits: Bits,
    hit_row: NodeId,
    rest: NodeId,
) -> Result<Vec<NodeId>, NoMemory>
    ensures { IfOk result (λ ids. ids.items ≡ map (λ hit. cond hit hit_row rest) bits) }
{
    let mut ids = Vec::with_capacity(alloc, bits.len() as usize)?;
    for i in 0..bits.len() {
        let id = if bits.get(i) { hit_row } else { rest };
        ids.push(id)?;
    }
    Ok(ids)
}
