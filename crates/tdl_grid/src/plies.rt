ghost use Rattle.std.specs.Prelude.{◌≡◌, ℕ, ◌<◌, ◌≤◌, ◌^◌, pos, ◌-ℤ◌, ◌*ℤ◌, nat_abs, OnOk};
ghost use Rattle.std.specs.List.{flat_map};
ghost use Rattle.tdl_meaning.specs.Kinds.{piece, fragments};
ghost use Rattle.tdl_meaning.specs.Proper.{Each};
ghost use Rattle.tdl_grid.specs.Span.{HasPieces, piece_span, arc_of};
ghost use Rattle.tdl_grid.specs.Item.{HasWholePieces, event_of, AddsInEach};
ghost use Rattle.tdl_grid.specs.ItemLaws.{events_of};

use crate::items::{Item, Items};
use crate::spans::Span;
use std::alloc::Global;
use tdl_control::NoMemory;

/// Adds the items, each cut into so many equal pieces, one after another.
pub fn add_plied<'t>(
    alloc: Global,
    times: u32,
    items: Items<'t>,
    out: &mut Items<'t>,
) -> Result<(), NoMemory>
    requires some { 0 < times }
    requires exact { Each (HasWholePieces times) items }
    ensures { OnOk result (AddsInEach out.old out.new (λ u. flat_map (fragments times) (events_of u items.entry))) }
{
    for item in items.into_vec() {
        add_fragments(alloc, times, item, out)?;
    }
    Ok(())
}

// Adds of each of so many equal pieces of the item's whole what the item's part has of it. The last one takes the
// item's own value.
fn add_fragments<'t>(
    alloc: Global,
    times: u32,
    item: Item<'t>,
    out: &mut Items<'t>,
) -> Result<(), NoMemory>
    requires some { 0 < times }
    requires exact { HasWholePieces times item }
    ensures { OnOk result (AddsInEach out.old out.new (λ u. fragments times (event_of u item.entry))) }
{
    let Item { whole, part, value } = item;
    let width = whole.width_of_piece(times);
    let last = times - 1;
    for j in 0..last {
        let next = whole.piece(times, width, j);
        if let Some(cut) = next.meet(part) {
            out.push(Item {
                whole: next,
                part: cut,
                value: value.copy(alloc)?,
            })?;
        }
    }
    let next = whole.piece(times, width, last);
    match next.meet(part) {
        Some(cut) => out.push(Item {
            whole: next,
            part: cut,
            value,
        }),
        None => Ok(()),
    }
}

impl Span {
    /// How many counts each of so many equal pieces has.
    pub fn width_of_piece(self, times: u32) -> i128
        requires some { 0 < times }
        requires exact { HasPieces times self }
        ensures value { self.stop -ℤ self.start ≡ result *ℤ pos times }
        ensures bound { nat_abs result ≤ 2 ^ 125 }
    {
        (self.stop() - self.start()) / times as i128
    }

    /// The piece after `j` of so many equal ones, each of this width.
    pub fn piece(self, times: u32, width: i128, j: u32) -> Span
        requires below { j < times }
        requires width { self.stop -ℤ self.start ≡ width *ℤ pos times }
        ensures counts { result ≡ piece_span width self j }
        ensures arcs { (u : ℕ) → 0 < u → arc_of u result ≡ piece times (arc_of u self) j }
    {
        let start = self.start() + width * j as i128;
        Span::between(start, start + width)
    }
}
