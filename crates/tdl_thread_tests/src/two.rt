ghost use Rattle.std.specs.Prelude.{◌≡◌};
ghost use Rattle.tdl_session.specs.Passes.{IsPassOf, SamePass};

use std::alloc::Global;
use std::sync::Wait;
use std::thread::{Threads, join};
use tdl_session::{Pass, Shared};
use tdl_tape::{Entry, Tape};

const CALLS: u64 = 100;

// Puts the numbers from 0 to 99 on the tape, and answers whether each was taken with a reply above the one before.
fn put_all<R: Wait>(
    rt: &R,
    alloc: Global,
    shared: &Shared<Tape>,
    mut pass: Pass<Tape>,
) -> (Pass<Tape>, bool)
    requires { IsPassOf shared.now pass }
    ensures { SamePass pass result.0 }
{
    let mut last = None;
    let mut rises = true;
    for number in 0..CALLS {
        let reply = shared.call(rt, alloc, &mut pass, number).ok();
        rises = rises && last < reply;
        last = reply;
    }
    (pass, rises)
}

// Whether the caller's entries are the numbers from 0 to 99, in this order.
pub(crate) fn are_in_order(entries: &[Entry], who: u32) -> bool {
    entries
        .iter()
        .filter(|entry| entry.who == who)
        .map(|entry| entry.number)
        .eq(0..CALLS)
}

fn two_put<R: Threads + Wait + Sync>(rt: &R, alloc: Global) -> bool {
    let Ok((shared, mut pass)) = Shared::start(alloc, Tape::new(alloc)) else {
        return false;
    };
    let first = shared.split(&mut pass);
    let second = shared.split(&mut pass);
    let lock = &shared;
    let ((first, first_rises), (second, second_rises)) = join(
        rt,
        || -> (Pass<Tape>, bool)
            requires { IsPassOf lock.now first }
            ensures { SamePass first result.0 }
        { put_all(rt, alloc, lock, first) },
        || -> (Pass<Tape>, bool)
            requires { IsPassOf lock.now second }
            ensures { SamePass second result.0 }
        { put_all(rt, alloc, lock, second) },
    );
    shared.meet(&mut pass, first);
    shared.meet(&mut pass, second);
    let tape = shared.close(pass);
    let entries = tape.as_slice();
    first_rises
        && second_rises
        && entries.len() == 200
        && are_in_order(entries, 1)
        && are_in_order(entries, 2)
}

#[test]
fn two_threads_put_a_hundred_numbers_each(rt: HostRuntime) {
    assert!(rt; two_put(&rt, rt.alloc()));
}
