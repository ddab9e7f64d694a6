ghost use Rattle.std.specs.Prelude.{◌≡◌, ◌↔◌, ◌<◌, if◌then◌else◌, [], ◌∷◌, ◌++◌, length, take, slice_set, IsTrue, OnOk, OnErr};
ghost use Rattle.std.specs.List.{HoldsAt, SwappedAt};
ghost use Rattle.tdl_control.specs.Text.{AddsPrefix};
ghost use Rattle.tdl_event.specs.ClipLaws.{ClipLaws};
ghost use Rattle.tdl_event.specs.Event.{HasOnset, clip, clip_event, retimed, line_of, print_of};
ghost use Rattle.tdl_fraction.specs.Arc.{IsInside};

use crate::printing::LinePrinter;
use std::alloc::Global;
use std::marker::Model;
use tdl_control::{Leaf, Map, NoMemory, Text};
use tdl_fraction::{Frac, TimeArc};

/// A value that a pattern has for some time, as TidalCycles has it. The whole is the time of the
/// value in the pattern, and the part, which lies in it, the piece of that time that is meant.
/// Times are in cycles.
#[derive(Drop)]
pub struct Event {
    pub whole: TimeArc,
    pub part: TimeArc,
    pub value: Leaf,
}

impl Model for Event {
    ghost use Rattle.tdl_fraction.specs.Arc.{IsInside};
    ghost use Rattle.tdl_event.specs.Event.{Event as EventValue};

    ghost Value = { EventValue };

    ghost view = { λ e. record { whole = e.whole; part = e.part; value = e.value } };

    ghost invariant = { λ e. IsInside e.part e.whole };
}

impl Event {
    /// Whether the event has its onset: its part starts where its whole starts. Only such an event
    /// begins to sound.
    pub fn has_onset(&self) -> bool
        ensures onset { IsTrue result ↔ HasOnset self.now }
        ensures inside { IsInside self.now.part self.now.whole }
    {
        self.part.start() == self.whole.start()
    }

    // Cuts the part to the arc. False where they do not meet, and the event is as it was then.
    fn cut(&mut self, arc: TimeArc) -> bool
        ensures { clip_event arc self.old ≡ (if result then self.new ∷ [] else []) }
    {
        match self.part.meet(arc) {
            Some(part) => {
                self.part = part;
                true
            }
            None => false,
        }
    }

    /// Adds the event's line, if its value is a map: `whole-start whole-stop part-start part-stop map` with a
    /// line feed. `NoMemory` leaves a front piece of the line.
    pub fn print(&self, out: &mut Text) -> Result<(), NoMemory>
        ensures ok { OnOk result (out.new ≡ out.old ++ line_of self.now) }
        ensures err { OnErr result (AddsPrefix (line_of self.now) out.old out.new) }
    {
        LinePrinter::new().print(self, out)
    }
}

/// A list of events. Their order is that in which a pattern gives them, and need not be by time.
#[derive(Drop)]
pub struct Events {
    items: Vec<Event>,
}

impl Model for Events {
    ghost use Rattle.std.specs.Prelude.{List};
    ghost use Rattle.tdl_event.specs.Event.{Event as EventValue};

    ghost Value = { List EventValue };

    ghost view = { λ e. e.items.items };
}

impl Events {
    /// No events. What the list grows by comes from the allocator.
    pub fn new(alloc: Global) -> Events
        ensures { result ≡ [] }
    {
        Events {
            items: Vec::new(alloc),
        }
    }

    /// How many events there are.
    pub fn len(&self) -> usize
        ensures { result ≡ length self.now }
    {
        self.items.len()
    }

    /// Whether there are none.
    pub fn is_empty(&self) -> bool
        ensures { IsTrue result ↔ (self.now ≡ []) }
    {
        self.items.is_empty()
    }

    /// The event at place `i`, from 0.
    pub fn get(&self, i: usize) -> &Event
        requires { i < length self.now }
        ensures { HoldsAt (λ event. result.now ≡ event) self.now i }
    {
        &self.items[i]
    }

    /// Puts the event at the end. `NoMemory` leaves the list as it was and gives the event up.
    pub fn push(&mut self, event: Event) -> Result<(), NoMemory>
        ensures ok { OnOk result (self.new ≡ self.old ++ event ∷ []) }
        ensures err { OnErr result (self.new ≡ self.old) }
    {
        self.items.push(event)?;
        Ok(())
    }

    /// Puts the events of the other list at the end, in their order. `NoMemory` leaves the list as it
    /// was and gives the others up.
    pub fn append(&mut self, mut more: Events) -> Result<(), NoMemory>
        ensures ok { OnOk result (self.new ≡ self.old ++ more) }
        ensures err { OnErr result (self.new ≡ self.old) }
    {
        self.items.append(&mut more.items)?;
        Ok(())
    }

    /// Takes all events away. The memory that they took is kept for those that come.
    pub fn clear(&mut self)
        ensures { self.new ≡ [] }
    {
        self.items.clear();
    }

    /// Puts the events at two places, from 0, in each other's place.
    pub fn swap(&mut self, i: usize, j: usize)
        requires first { i < length self.old }
        requires second { j < length self.old }
        ensures { SwappedAt self.old self.new i j }
    {
        self.items.swap(i, j);
    }

    /// Keeps the first so many events. Where there are no more, all stay.
    pub fn truncate(&mut self, count: usize)
        ensures { self.new ≡ take count self.old }
    {
        self.items.truncate(count);
    }

    /// The same events, in their order, each to be taken.
    pub fn into_vec(self) -> Vec<Event>
        ensures { result.items ≡ self }
    {
        self.items
    }

    /// The events that meet the arc, each with its part cut to it, in their order. It takes no memory.
    pub fn clip(mut self, arc: TimeArc) -> Events
        ensures { result ≡ clip arc self }
    {
        self.items.retain_mut(|event| event.cut(arc));
        self
    }

    /// Gives the event at place `i`, from 0, this whole and this part, in which it keeps its value.
    pub fn retime(&mut self, i: usize, whole: TimeArc, part: TimeArc)
        requires place { i < length self.old }
        requires inside { IsInside part whole }
        ensures { HoldsAt (λ event. self.new ≡ slice_set self.old i (retimed whole part event)) self.old i }
    {
        let event = &mut self.items[i];
        event.whole = whole;
        event.part = part;
    }

    /// Adds a line for each event whose value is a map, and nothing for other events. A line is
    /// `whole-start whole-stop part-start part-stop map` with a line feed. `NoMemory` leaves a front
    /// piece of the lines.
    pub fn print(&self, out: &mut Text) -> Result<(), NoMemory>
        ensures ok { OnOk result (out.new ≡ out.old ++ print_of self.now) }
        ensures err { OnErr result (AddsPrefix (print_of self.now) out.old out.new) }
    {
        let mut printer = LinePrinter::new();
        for event in &self.items {
            printer.print(event, out)?;
        }
        Ok(())
    }

    /// What a list cut to an arc has at each time: in the arc what the list has there, in the same
    /// order, and outside it nothing. No event is split.
    pub fn clip_laws()
        ensures { ClipLaws }
    {}
}
