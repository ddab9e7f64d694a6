// What texts of mini-notation become.
mod rows;
mod sizes;

use crate::patterns::{have_rows, have_sizes};
use std::alloc::Global;
use tdl_control::Key;
use tdl_expr::{Arg, PushFault, Table};
use tdl_mini::{lower, lower_arg, read_mini};
use tdl_mini_tree::Kind;

#[test]
fn pushes_rows_and_links(rt: HostRuntime) {
    assert!(rt; have_sizes(rt.alloc(), &sizes::SOUNDS));
}

#[test]
fn pushes_the_rows_of_each_form(rt: HostRuntime) {
    assert!(rt; have_rows(rt.alloc(), &rows::SOUNDS));
    assert!(rt; have_rows(rt.alloc(), &rows::CHANGED));
    assert!(rt; have_rows(rt.alloc(), &rows::OTHERS));
}

// Why a text of notes is too large, and how many rows its table has then.
fn overflow_of(alloc: Global, text: &[u8]) -> Option<(PushFault, u32)> {
    if text.len() > 1 << 24 {
        return None;
    }
    let Ok(tree) = read_mini(alloc, text, Kind::Note { key: Key::N }) else {
        return None;
    };
    let mut table = Table::new(alloc);
    match lower(alloc, &tree, &mut table) {
        Ok(_) => None,
        Err(fault) => Some((fault, table.rows())),
    }
}

#[test]
fn stops_at_a_table_that_is_too_large(rt: HostRuntime) {
    let (rows, links) = (2049, 1024);
    let fault = PushFault::TooLarge { rows, links };
    assert!(rt; overflow_of(rt.alloc(), b"0 .. 1023, 0 .. 1023") == Some((fault, 2048)));
}

// An argument: a number without rows, or how many numbers it is chosen from, with the rows of its table.
#[derive(Clone, Copy)]
enum Wanted {
    Number(i128),
    Choice(usize, u32),
}

#[derive(Clone, Copy)]
struct Argument(&'static [u8], Wanted);

static ARGUMENTS: [Argument; 6] = [
    Argument(b"2", Wanted::Number(2)),
    Argument(b"-6%2", Wanted::Number(-3)),
    Argument(b"2!1", Wanted::Choice(1, 1)),
    Argument(b"<1 2 1.0>", Wanted::Choice(2, 4)),
    Argument(b"0 .. 3 4%2", Wanted::Choice(4, 6)),
    Argument(b"~", Wanted::Choice(0, 1)),
];

fn is_argument(alloc: Global, text: &[u8], wanted: Wanted) -> bool {
    if text.len() > 1 << 24 {
        return false;
    }
    let Ok(tree) = read_mini(alloc, text, Kind::Ratio) else {
        return false;
    };
    let mut table = Table::new(alloc);
    match (&lower_arg(alloc, &tree, &mut table), wanted) {
        (Ok(Arg::Plain(given)), Wanted::Number(number)) => {
            given.numerator() == number && given.denominator() == 1 && table.rows() == 0
        }
        (Ok(Arg::Chosen { values, .. }), Wanted::Choice(count, rows)) => {
            values.len() == count && table.rows() == rows
        }
        _ => false,
    }
}

fn are_arguments(alloc: Global, arguments: &[Argument]) -> bool {
    for Argument(text, wanted) in arguments {
        if !is_argument(alloc, text, *wanted) {
            return false;
        }
    }
    true
}

#[test]
fn gives_arguments(rt: HostRuntime) {
    assert!(rt; are_arguments(rt.alloc(), &ARGUMENTS));
}
