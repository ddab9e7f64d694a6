ghost use Rattle.tdl_session.specs.Passes.{IsPassOf, SamePass};

use crate::two::are_in_order;
use std::alloc::Global;
use std::sync::Wait;
use std::thread::Threads;
use tdl_session::{Caller, Hall, Leader, Pass, gather};
use tdl_tape::Tape;

// Puts so many numbers on the tape, from 0 on.
#[derive(Drop)]
struct Putter {
    calls: u64,
}

impl Putter {
    // Whether all were taken.
    fn put<R: Wait>(&self, rt: &R, hall: &Hall<Tape>, pass: &mut Pass<Tape>) -> bool
        requires { IsPassOf hall.now.shared pass.old }
        ensures { SamePass pass.old pass.new }
    {
        let mut taken = true;
        for number in 0..self.calls {
            let reply = hall.shared.call(rt, hall.alloc, pass, number);
            taken = taken && reply.is_ok();
        }
        taken
    }
}

impl Caller<Tape> for Putter {
    type End = bool;

    ghost did = { λ fixed number history old new end. Unit {0} };

    fn did_law() {}

    fn make_calls<R: Wait>(&mut self, rt: &R, hall: &Hall<Tape>, pass: &mut Pass<Tape>) -> bool {
        self.put(rt, hall, pass)
    }
}

impl Leader<Tape> for Putter {
    type End = bool;

    ghost did = { λ fixed history old new end. Unit {0} };

    fn did_law() {}

    fn lead<R: Wait>(&mut self, rt: &R, hall: &Hall<Tape>, pass: &mut Pass<Tape>) -> bool {
        self.put(rt, hall, pass)
    }
}

// Whether the tape of a leader and eight callers has a hundred numbers of each, in its order.
fn nine_put<R: Threads + Wait + Sync>(rt: &R, alloc: Global) -> bool {
    let mut leader = Putter { calls: 100 };
    let mut callers = [
        Putter { calls: 100 },
        Putter { calls: 100 },
        Putter { calls: 100 },
        Putter { calls: 100 },
        Putter { calls: 100 },
        Putter { calls: 100 },
        Putter { calls: 100 },
        Putter { calls: 100 },
    ];
    let Some(gathered) = gather(rt, alloc, Tape::new(alloc), &mut leader, &mut callers) else {
        return false;
    };
    let entries = gathered.machine.as_slice();
    gathered.led
        && gathered.ends.len() == 8
        && gathered.ends.iter().all(|taken| *taken)
        && entries.len() == 900
        && (0..=8).all(|who| are_in_order(entries, who))
}

#[test]
fn a_leader_and_eight_callers_put_a_hundred_numbers_each(rt: HostRuntime) {
    assert!(rt; nine_put(&rt, rt.alloc()));
}
