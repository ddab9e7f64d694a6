// Functions on patterns, by the sizes of the tables that they make of one row.
ghost use Rattle.std.specs.Prelude.{◌≡◌, length, IfOk};
ghost use Rattle.std.specs.List.{All};
ghost use Rattle.tdl_rows.specs.Arguments.{HasBoundedParts};

use crate::patterns::{Size, have_sizes};
use std::alloc::Global;
use tdl_combinator::{Fun, apply};
use tdl_control::NoMemory;
use tdl_expr::{Arg, Fracs, Node, PushFault, Table};
use tdl_fraction::Frac;

static SIZES: [Size; 4] = [
    Size(b"id $ s \"bd\"", 1, 0),
    Size(b"palindrome $ s \"bd\"", 3, 3),
    Size(b"brak $ s \"bd\"", 5, 5),
    Size(b"jux rev $ s \"bd\"", 7, 7),
];

#[test]
fn pushes_what_functions_need(rt: HostRuntime) {
    assert!(rt; have_sizes(rt.alloc(), &SIZES));
}

// Among how many whole numbers the n of `every n id` is chosen, from which on; and the rows and links of the
// table then, or why it has no room for them.
#[derive(Clone, Copy)]
struct Choice(i16, u16, Result<(u32, u32), PushFault>);

static CHOICES: [Choice; 3] = [
    Choice(-2999, 3000, Ok((2, 3001))),
    Choice(
        -8191,
        8192,
        Err(PushFault::TooLarge {
            rows: 2,
            links: 8193,
        }),
    ),
    Choice(
        1,
        3000,
        Err(PushFault::TooLarge {
            rows: 2049,
            links: 4096,
        }),
    ),
];

fn numbers_from(alloc: Global, first: i16, count: u16) -> Result<Fracs, NoMemory>
    ensures { IfOk result (λ numbers. (length numbers ≡ count) × All HasBoundedParts numbers) }
{
    let mut numbers = Fracs::new(alloc);
    for i in 0..count {
        numbers.push(Frac::whole(i64::from(first) + i64::from(i)))?;
    }
    Ok(numbers)
}

// The row of silence is what is changed, and what chooses.
fn size_after(alloc: Global, first: i16, count: u16) -> Result<(u32, u32), PushFault> {
    let mut table = Table::new(alloc);
    let id = table.push(Node::Silence)?;
    let values = numbers_from(alloc, first, count)?;
    let then = Box::new(alloc, Fun::Same)?;
    let n = Arg::Chosen {
        selector: id,
        values,
    };
    apply(alloc, &mut table, &Fun::Every { n, then }, id)?;
    Ok((table.rows(), table.links()))
}

#[test]
fn chooses_among_more_numbers_than_a_table_has_rows(rt: HostRuntime) {
    for Choice(first, count, size) in &CHOICES {
        assert!(rt; size_after(rt.alloc(), *first, *count) == *size);
    }
}
