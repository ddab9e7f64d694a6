// What is read of the innermost bracket.
ghost use Rattle.std.specs.Prelude.{◌≡◌, ◌≤◌, ◌<◌, ◌^◌, List, IsTrue, IfOk, OnOk, ◌++◌, ◌∷◌, []};
ghost use Rattle.tdl_mini_tree.specs.Tree.{Layers as Trees};
ghost use Rattle.tdl_mini_tree.specs.Sizes.{steps_of, size_of, is_within};
ghost use Rattle.tdl_mini_tree.specs.SizeView.{size_value, IsSizeWith};
ghost use Rattle.tdl_mini_tree.specs.View.{group_of, sequence_of};
ghost use Rattle.tdl_mini_machine.specs.Machine.Marks.{level_after_dot};
ghost use Rattle.tdl_mini_machine.specs.Machine.Values.{with_count};
ghost use Rattle.tdl_mini_tree.specs.Numbers.{is_count};

use crate::stages::Hole;
use smallvec::SmallVec;
use std::alloc::Global;
use std::mem;
use tdl_control::NoMemory;
use tdl_mini_tree::{Element, Group, Kind, Layers, Number, Sequence, Size, times_of};

/// The finished sequences, groups of the sequence, and elements of the group; where the element began whose
/// size is to be tested; the steps of the groups, and the size of the group.
#[derive(Drop)]
pub(crate) struct Level {
    pub kind: Kind,
    pub sequences: SmallVec<Sequence, 1>,
    pub groups: SmallVec<Group, 1>,
    pub elements: Vec<Element>,
    pub start: u32,
    pub before: u64,
    pub size: Size,
    ghost steps: { (trees : List Trees) → before ≡ steps_of (sequence_of trees groups.items) },
    ghost sizes: { (trees : List Trees) → size_value size ≡ size_of (group_of trees elements.items) },
    ghost within: { IsTrue (is_within before (size_value size)) },
    ghost last: { size.last ≤ size.sum },
}

/// An open bracket: the level round it, and what the bracket is in it.
#[derive(Drop)]
pub(crate) struct Frame {
    pub level: Level,
    pub hole: Hole,
}

// How many brackets are open at once in most texts, at most.
const USUAL_DEPTH: usize = 2;

// Room for the brackets of most texts, once the first is open.
fn make_room(frames: &mut Vec<Frame>) -> Result<(), NoMemory>
    ensures { OnOk result (frames.new.items ≡ frames.old.items) }
{
    if frames.is_empty() {
        frames.reserve_exact(USUAL_DEPTH)?;
    }
    Ok(())
}

/// Puts a bracket inside the others.
pub(crate) fn push_frame(frames: &mut Vec<Frame>, frame: Frame) -> Result<(), NoMemory>
    ensures { OnOk result (frames.new.items ≡ frames.old.items ++ frame ∷ []) }
{
    make_room(frames)?;
    frames.push(frame)?;
    Ok(())
}

// Plays the last element so many times, if it is a step.
fn count_last(elements: Vec<Element>, number: Number) -> Result<Vec<Element>, NoMemory>
    ensures { IfOk result (λ after. (trees : List Trees) → group_of trees after.items ≡ with_count (group_of trees elements.items) number) }
{
    let mut elements = elements;
    match elements.pop() {
        Some(
            Element::Played {
                step,
                weight,
                count: _,
            },
        ) => elements.push(Element::Played {
            step,
            weight,
            count: Some(number),
        })?,
        Some(other) => elements.push(other)?,
        None => {}
    }
    Ok(elements)
}

impl Level {
    ghost use Rattle.tdl_mini_tree.specs.Tree.{element as with_element};
    ghost use Rattle.tdl_mini_tree.specs.View.{element_of, layers_of};
    ghost use Rattle.tdl_mini_machine.specs.Machine.States.{first_level, with_group, closed_layers};
    ghost use Rattle.tdl_mini_reader.specs.inside.PartView.{HasGroup, level_after_comma};
    ghost use Rattle.tdl_mini_reader.specs.ReaderView.{level_of};

    /// Nothing is read.
    pub fn new(alloc: Global, kind: Kind) -> Level
        ensures { (trees : List Trees) → level_of trees result ≡ first_level kind }
    {
        Level {
            kind,
            sequences: SmallVec::new(alloc),
            groups: SmallVec::new(alloc),
            elements: Vec::new(alloc),
            start: 0,
            before: 0,
            size: Size::none(),
        }
    }

    /// Puts an element at the end of the group, which then has this size.
    pub fn push(&mut self, element: Element, size: Size) -> Result<(), NoMemory>
        requires sizes { IsSizeWith size self.old.elements.items element }
        requires within { IsTrue (is_within self.old.before (size_value size)) }
        requires last { size.last ≤ size.sum }
        ensures { OnOk result (HasGroup (λ trees. with_element (group_of trees self.old.elements.items) (element_of trees element)) self.old self.new) }
    {
        self.elements.push(element)?;
        self.size = size;
        Ok(())
    }

    /// The size of the group if its last step is played so many times, if the last element is a step.
    pub fn size_with_count(&self, number: Number) -> Size
        requires { IsTrue (is_count number) }
        ensures sizes { (trees : List Trees) → size_value result ≡ size_of (with_count (group_of trees self.now.elements.items) number) }
        ensures last { result.last ≤ result.sum }
        ensures small { result.steps < 2 ^ 40 }
    {
        match self.elements.last() {
            Some(Element::Played { count, .. }) => self.size.counted(
                u64::from(times_of(*count)),
                u64::from(times_of(Some(number))),
            ),
            _ => self.size,
        }
    }

    /// Plays the last step so many times, if the last element is a step; the group then has this size.
    pub fn set_count(&mut self, alloc: Global, number: Number, size: Size) -> Result<(), NoMemory>
        requires sizes { (trees : List Trees) → size_value size ≡ size_of (with_count (group_of trees self.old.elements.items) number) }
        requires within { IsTrue (is_within self.old.before (size_value size)) }
        requires last { size.last ≤ size.sum }
        ensures { OnOk result (HasGroup (λ trees. with_count (group_of trees self.old.elements.items) number) self.old self.new) }
    {
        let elements = mem::replace(&mut self.elements, Vec::new(alloc));
        self.size = Size::none();
        self.elements = count_last(elements, number)?;
        self.size = size;
        Ok(())
    }

    /// Ends the group, and begins another.
    pub fn end_group(&mut self, alloc: Global) -> Result<(), NoMemory>
        ensures { OnOk result ((trees : List Trees) → level_of trees self.new ≡ level_after_dot (level_of trees self.old)) }
    {
        let steps = self.size.steps;
        let elements = mem::replace(&mut self.elements, Vec::new(alloc));
        self.size = Size::none();
        self.groups.push(Group { elements })?;
        self.before += steps;
        self.start = 0;
        Ok(())
    }

    /// Ends the sequence, and begins another.
    pub fn end_sequence(&mut self, alloc: Global) -> Result<(), NoMemory>
        ensures { OnOk result ((trees : List Trees) → level_of trees self.new ≡ level_after_comma (level_of trees self.old)) }
    {
        self.end_group(alloc)?;
        let groups = mem::replace(&mut self.groups, SmallVec::new(alloc));
        self.before = 0;
        self.sequences.push(Sequence { groups })?;
        Ok(())
    }

    /// The layers that are read.
    pub fn into_layers(self, alloc: Global) -> Result<Layers, NoMemory>
        ensures { IfOk result (λ layers. (trees : List Trees) → layers_of trees layers.sequences.items ≡ closed_layers (level_of trees self)) }
    {
        let mut level = self;
        level.end_sequence(alloc)?;
        Ok(Layers {
            sequences: level.sequences,
        })
    }
}
