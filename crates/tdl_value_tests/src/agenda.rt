// Ends of notes that wait for their times.
ghost use Rattle.std.specs.Prelude.{◌≡◌, ◌≢◌};
ghost use Rattle.std.specs.Bool.{OnTrue};
ghost use Rattle.std.specs.List.{AllByRecursion};

use std::alloc::Global;
use std::marker::Model;
use std::test::Fail;
use tdl_agenda::{Agenda, Item};
use tdl_control::NoMemory;
use tdl_fraction::Frac;
use tdl_midi::Note;

fn quarters_of_a_cycle(count: u8) -> Frac {
    Frac::ten_thousandths(i64::from(count) * 2_500)
}

// At a time in quarters of a cycle; the key is the time, to tell the item by.
fn item(quarters: u8, order: u64) -> Item
    ensures { result.order ≡ order }
{
    Item {
        time: quarters_of_a_cycle(quarters),
        order,
        note: Note {
            channel: 0,
            key: quarters,
            velocity: 64,
        },
    }
}

// An agenda whose items have order numbers from `low` to `high`.
#[derive(Drop)]
struct Numbered {
    agenda: Agenda,
    low: u64,
    high: u64,
}

impl Model for Numbered {
    ghost use Rattle.std.specs.Prelude.{◌≤◌};
    ghost use Rattle.std.specs.List.{AllByRecursion};
    ghost use Rattle.tdl_agenda.specs.Agenda.{Kept};

    ghost Value = { Kept };

    ghost view = { λ n. n.agenda };

    ghost invariant = { λ n. AllByRecursion (λ item. (n.low ≤ item.order) × (item.order ≤ n.high)) n.agenda.items };
}

impl Numbered {
    fn new(alloc: Global) -> Numbered {
        Numbered {
            agenda: Agenda::new(alloc),
            low: u64::MAX,
            high: 0,
        }
    }

    // Whether an order number is lower or higher than those of all items.
    fn is_outside(&self, order: u64) -> bool
        ensures { OnTrue result (AllByRecursion (λ item. item.order ≢ order) self.now.items) }
    {
        order < self.low || self.high < order
    }

    // Puts in an item whose order number is outside of those before it, and leaves out any other.
    fn put(&mut self, item: Item) -> Result<(), NoMemory> {
        let order = item.order;
        if !self.is_outside(order) {
            return Ok(());
        }
        self.agenda.reserve(1)?;
        self.agenda.insert(item);
        self.low = order.min(self.low);
        self.high = order.max(self.high);
        Ok(())
    }
}

// An agenda with items at these times, in quarters of a cycle, of these order numbers.
fn agenda_of(alloc: Global, items: &[(u8, u64)]) -> Result<Agenda, NoMemory> {
    let mut numbered = Numbered::new(alloc);
    for &(quarters, order) in items {
        numbered.put(item(quarters, order))?;
    }
    Ok(numbered.agenda)
}

// Whether the items of the agenda have these order numbers, as they are taken out one after the other.
fn gives(mut agenda: Agenda, orders: &[u64]) -> bool {
    for order in orders {
        match agenda.pop_next() {
            Some(item) if item.order == *order => {}
            _ => return false,
        }
    }
    agenda.is_empty() && agenda.pop_next().is_none()
}

// Items, and their order numbers in the order of their turns.
static TURNS: [(&[(u8, u64)], &[u64]); 6] = [
    (&[], &[]),
    (&[(3, 5)], &[5]),
    (&[(1, 0), (2, 1), (2, 2), (5, 3)], &[0, 1, 2, 3]),
    (&[(5, 0), (2, 1), (2, 2), (1, 3)], &[3, 1, 2, 0]),
    (&[(2, 6), (2, 4), (2, 9), (2, 1)], &[1, 4, 6, 9]),
    (&[(0, 7), (4, 8), (2, 3), (2, 9), (4, 0)], &[7, 3, 9, 0, 8]),
];

#[test]
fn sorts_what_comes(rt: HostRuntime) -> Result<(), Fail> {
    for (items, orders) in &TURNS {
        assert!(rt; gives(agenda_of(rt.alloc(), items)?, orders));
    }
    Ok(())
}

static WAITING: [(u8, u64); 4] = [(0, 7), (2, 9), (2, 3), (4, 0)];

// Times, and the items that are before them when they are asked for one after the other.
static BEFORE: [(u8, Option<(u8, u64)>); 5] = [
    (2, Some((0, 7))),
    (2, None),
    (3, Some((2, 3))),
    (3, Some((2, 9))),
    (3, None),
];

fn pops(agenda: &mut Agenda, time: u8, parts: Option<(u8, u64)>) -> bool {
    match (agenda.pop_before(quarters_of_a_cycle(time)), parts) {
        (Some(found), Some((quarters, order))) => found == item(quarters, order),
        (None, None) => true,
        _ => false,
    }
}

#[test]
fn pops_what_is_before(rt: HostRuntime) -> Result<(), Fail> {
    let mut agenda = agenda_of(rt.alloc(), &WAITING)?;
    assert!(rt; agenda.len() == 4);
    assert!(rt; matches!(agenda.first(), Some(found) if *found == item(0, 7)));
    for (time, parts) in &BEFORE {
        assert!(rt; pops(&mut agenda, *time, *parts));
    }
    assert!(rt; agenda.len() == 1 && !agenda.is_empty());
    assert!(rt; agenda.pop_next() == Some(item(4, 0)));
    Ok(())
}

#[test]
fn numbers_anew(rt: HostRuntime) -> Result<(), Fail> {
    let mut agenda = agenda_of(rt.alloc(), &WAITING)?;
    agenda.renumber();
    assert!(rt; gives(agenda, &[0, 1, 2, 3]));
    Ok(())
}

const MANY: u16 = 1_000;

fn sevenths_of_a_cycle(count: u16) -> Option<Frac> {
    Frac::of(i128::from(count), 7)
}

// An agenda with many items at sevenths of cycles, of which the latest came first.
fn falling(alloc: Global) -> Result<Agenda, NoMemory> {
    let mut numbered = Numbered::new(alloc);
    for count in 0..MANY {
        if let Some(time) = sevenths_of_a_cycle(MANY - 1 - count) {
            let order = u64::from(count);
            numbered.put(Item {
                time,
                ..item(0, order)
            })?;
        }
    }
    Ok(numbered.agenda)
}

// Whether the next item that is taken out is the one at this time.
fn gives_at(agenda: &mut Agenda, time: Frac) -> bool {
    match agenda.pop_next() {
        Some(item) => item.time == time,
        None => false,
    }
}

#[test]
fn falling_times_come_out_rising(rt: HostRuntime) -> Result<(), Fail> {
    let mut agenda = falling(rt.alloc())?;
    assert!(rt; agenda.len() == usize::from(MANY));
    for count in 0..MANY {
        let Some(time) = sevenths_of_a_cycle(count) else {
            assert!(rt; false);
            return Ok(());
        };
        assert!(rt; gives_at(&mut agenda, time));
    }
    assert!(rt; agenda.is_empty());
    Ok(())
}
