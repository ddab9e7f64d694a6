// What was done, as a line of a log tells it.
ghost use Rattle.std.specs.Prelude.{◌≡◌, ◌≤◌, ◌↔◌, ℕ, List, ◌++◌, codes, IfNone, IfOk, IfSome, IsTrue};
ghost use Rattle.tdl_fraction.specs.Units.{last_units};
ghost use Rattle.tdl_score.specs.declared.histories.Deed.{Deed as DeedValue};
ghost use Rattle.tdl_score.specs.declared.histories.Entry.{Entry};
ghost use Rattle.tdl_control.specs.Limits.{max_every};
ghost use Rattle.tdl_score.specs.History.{MayBeDone, boundary_of};
ghost use Rattle.tdl_score.specs.Known.{Tells};
ghost use Rattle.tdl_score.specs.Placed.{IsPlacedDeed};
ghost use Rattle.tdl_log.specs.LogText.{deed_text, place_text};
ghost use Rattle.tdl_log.specs.inside.Deeds.{IsPlain, IsSwapAt, MayBePlain};

use crate::fronts::{after, cut_at};
use itoa::Buffer;
use std::alloc::Global;
use tdl_control::{NoMemory, Text};
use tdl_fraction::{Frac, LAST_UNITS, TICK_UNITS, print_units, units_of};
use tdl_score::{Deed, Known, TextReader};

// What was done, where a caller may do it next.
pub(crate) fn read_deed<R: TextReader>(
    alloc: Global,
    said: &[u8],
    who: u32,
    known: &Known,
) -> Result<Option<Deed>, NoMemory>
    requires { known.now.frontier ≤ last_units }
    ensures some { IfOk result (λ read. IfSome read (λ deed. (entries : List Entry) → Tells known.now entries
        → MayBeDone R.reads entries who deed × (said.now ≡ deed_text deed))) }
    ensures placed { IfOk result (λ read. IfSome read IsPlacedDeed) }
    ensures none { IfOk result (λ read. IfNone read ((entries : List Entry) (deed : DeedValue) → Tells known.now entries
        → MayBeDone R.reads entries who deed → said.now ≡ deed_text deed → ⊥)) }
{
    match after(said, b"swap ") {
        Some(swap) => read_swap::<R>(alloc, swap, who, known),
        None => Ok(read_unswapped(said, who, known)),
    }
}

// What was done that is no swap, where a caller may do it next.
fn read_unswapped(said: &[u8], who: u32, known: &Known) -> Option<Deed>
    requires { known.now.frontier ≤ last_units }
    ensures some { IfSome result (λ deed. (entries : List Entry) → Tells known.now entries → MayBePlain entries who deed × (said.now ≡ deed_text deed)) }
    ensures placed { IfSome result IsPlacedDeed }
    ensures none { IfNone result ((entries : List Entry) (deed : DeedValue) → Tells known.now entries
        → MayBePlain entries who deed → said.now ≡ deed_text deed → ⊥) }
{
    let deed = read_plain(said)?;
    if may_be_done(&deed, who, known) {
        Some(deed)
    } else {
        None
    }
}

// Whether a caller may do this next. Swaps are asked about by their texts.
fn may_be_done(deed: &Deed, who: u32, known: &Known) -> bool
    requires { known.now.frontier ≤ last_units }
    ensures { (entries : List Entry) → Tells known.now entries → IsTrue result ↔ MayBePlain entries who deed.now }
{
    match deed {
        Deed::Swap { .. } => false,
        Deed::Look => known.may_perform(who),
        Deed::Tick { to } => known.may_tick(who, *to),
        Deed::Finish => known.may_finish(who),
    }
}

// A look, the finish or a tick.
fn read_plain(text: &[u8]) -> Option<Deed>
    ensures some { IfSome result (λ deed. text.now ≡ deed_text deed) }
    ensures plain { IfSome result IsPlain }
    ensures none { IfNone result ((deed : DeedValue) → IsPlain deed → text.now ≡ deed_text deed → ⊥) }
{
    if text == b"look".as_slice() {
        return Some(Deed::Look);
    }
    if text == b"finish".as_slice() {
        return Some(Deed::Finish);
    }
    let to = read_place(after(text, b"tick ")?)?;
    Some(Deed::Tick { to })
}

// A time up to the last cycle, in tick units.
fn read_place(text: &[u8]) -> Option<u64>
    ensures some { IfSome result (λ units. text.now ≡ place_text units) }
    ensures placed { IfSome result (λ units. units ≤ last_units) }
    ensures none { IfNone result ((units : ℕ) → units ≤ last_units → text.now ≡ place_text units → ⊥) }
{
    let units = units_of(Frac::read(text)?)?;
    if units > LAST_UNITS {
        return None;
    }
    if print_units(units).bytes() == text {
        Some(units)
    } else {
        None
    }
}

// A swap behind its word, where a caller may make it next.
fn read_swap<R: TextReader>(
    alloc: Global,
    said: &[u8],
    who: u32,
    known: &Known,
) -> Result<Option<Deed>, NoMemory>
    requires { known.now.frontier ≤ last_units }
    ensures some { IfOk result (λ read. IfSome read (λ deed. (entries : List Entry) → Tells known.now entries
        → MayBeDone R.reads entries who deed × (codes "swap " ++ said.now ≡ deed_text deed))) }
    ensures placed { IfOk result (λ read. IfSome read IsPlacedDeed) }
    ensures none { IfOk result (λ read. IfNone read ((entries : List Entry) (deed : DeedValue) → Tells known.now entries
        → MayBeDone R.reads entries who deed → codes "swap " ++ said.now ≡ deed_text deed → ⊥)) }
{
    R::reading_law();
    let Some((number, text)) = cut_at(b' ', said) else {
        return Ok(None);
    };
    if !known.may_perform(who) {
        return Ok(None);
    }
    let Some(boundary) = asked::<R>(alloc, text, known.frontier)? else {
        return Ok(None);
    };
    if Buffer::new().format(boundary).as_bytes() != number {
        return Ok(None);
    }
    let text = copied(alloc, text)?;
    Ok(Some(Deed::Swap { boundary, text }))
}

// From which cycle on a text changes what is played, at a frontier. None where it reads as no change.
fn asked<R: TextReader>(alloc: Global, text: &[u8], frontier: u64) -> Result<Option<u32>, NoMemory>
    requires { frontier ≤ last_units }
    ensures some { IfOk result (λ read. IfSome read (λ boundary. IsSwapAt R.reads frontier boundary text.now)) }
    ensures none { IfOk result (λ read. IfNone read ((boundary : ℕ) → IsSwapAt R.reads frontier boundary text.now → ⊥)) }
{
    R::reading_law();
    match R::every(alloc, text)? {
        Some(every) => Ok(Some(boundary_of(frontier, every))),
        None => Ok(None),
    }
}

// The least multiple of so many cycles that is not below a time in tick units, in cycles.
fn boundary_of(frontier: u64, every: u32) -> u32
    requires frontier { frontier ≤ last_units }
    requires from_one { 1 ≤ every }
    requires to_most { every ≤ max_every }
    ensures { result ≡ boundary_of frontier every }
{
    every * frontier.div_ceil(u64::from(every) * TICK_UNITS) as u32
}

// A text with these bytes.
fn copied(alloc: Global, bytes: &[u8]) -> Result<Text, NoMemory>
    ensures { IfOk result (λ text. text ≡ bytes.now) }
{
    let mut text = Text::new(alloc);
    text.add(bytes)?;
    Ok(text)
}
