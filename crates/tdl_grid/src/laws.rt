ghost use Rattle.tdl_grid.specs.ItemLaws.{ItemLaws, SpanLaws, UnitLaws};

/// What each kind of pattern asks of its children in counts is what it asks in times, and what it does to the
/// counts of their items is what it does to the times of their events.
pub fn counts_move_as_times()
    ensures down { SpanLaws }
    ensures up { ItemLaws }
{}

/// The unit of a child at a rate, or in a step of a sequence: where its parent's grid divides the parent's unit, its
/// own divides its own, and it is not too fine. And which counts a time on a grid has.
pub fn units_keep_to_grids()
    ensures { UnitLaws }
{}
