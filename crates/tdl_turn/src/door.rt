// The door before the turn. A caller who finds the turn taken waits here without a ticket: to wake it takes as long as
// many turns, which others have meanwhile.
ghost use Rattle.tdl_turn.specs.Tokens.{IsBoard};

use crate::chronicle::Chronicle;
use crate::moves::{Board, LOOKS, is_free, served};
use std::array::from_fn;
use std::hint::spin_loop;
use std::sync::Wait;
use std::sync::atomic::{AtomicU64, Ordering};
use std::thread::Parker;

// More places than callers, so no two wait in one.
const PLACES: usize = 16;

// How many turns are given to others while a caller who was called in is on its way.
const MEANWHILE: u64 = 4;

// Callers come to the door, are called in one at a time, and enter, in the order of their numbers. None is left there:
// who comes counts itself before it looks whether anyone has a ticket, and who gives passes the turn on before it looks
// at the door, so one of the two sees the other. Who was called in draws a ticket, gives later, and calls in the next.
#[derive(Drop)]
pub struct Door {
    came: AtomicU64,
    called: AtomicU64,
    entered: AtomicU64,
    // The ticket that was served when the last caller was called in.
    since: AtomicU64,
    places: [Parker; PLACES],
}

impl Door {
    pub fn new() -> Door {
        Door {
            came: AtomicU64::new(0),
            called: AtomicU64::new(0),
            entered: AtomicU64::new(0),
            since: AtomicU64::new(0),
            places: from_fn(|_| Parker::new()),
        }
    }

    /// Waits until the caller may draw a ticket.
    pub fn enter<V: Chronicle, R: Wait>(&self, board: &Board<V, V::Entry, V::Fixed>, rt: &R)
        requires { IsBoard board.now.table_id }
    {
        for _ in 0..LOOKS {
            if self.is_open(board) {
                return;
            }
            spin_loop();
        }
        let number = self.came.fetch_add(1, Ordering::SeqCst);
        if is_free(board) {
            self.call_in(board);
        }
        self.wait(rt, number);
        self.entered.fetch_add(1, Ordering::SeqCst);
    }

    /// Calls in the next caller who waits, unless one is on its way.
    pub fn call_in<V: Chronicle>(&self, board: &Board<V, V::Entry, V::Fixed>)
        requires { IsBoard board.now.table_id }
    {
        let called = self.called.load(Ordering::SeqCst);
        if self.is_awaited(called) || self.came.load(Ordering::SeqCst) == called {
            return;
        }
        self.since.store(served(board), Ordering::SeqCst);
        let next = called.wrapping_add(1);
        let call = self
            .called
            .compare_exchange(called, next, Ordering::SeqCst, Ordering::SeqCst);
        if call.is_ok() {
            self.place(called).unpark();
        }
    }

    // Whether the last of so many who were called in is still on its way.
    fn is_awaited(&self, called: u64) -> bool {
        self.entered.load(Ordering::SeqCst) != called
    }

    // Whether a caller who did not wait may draw a ticket.
    fn is_open<V: Chronicle>(&self, board: &Board<V, V::Entry, V::Fixed>) -> bool
        requires { IsBoard board.now.table_id }
    {
        if !is_free(board) {
            return false;
        }
        let turns = served(board).wrapping_sub(self.since.load(Ordering::SeqCst));
        turns < MEANWHILE || !self.is_awaited(self.called.load(Ordering::SeqCst))
    }

    // Waits until the caller of this number is called in.
    fn wait<R: Wait>(&self, rt: &R, number: u64) {
        for _ in rt.forever() {
            if self.called.load(Ordering::SeqCst) > number {
                return;
            }
            self.place(number).park(rt);
        }
        unreachable!()
    }

    fn place(&self, number: u64) -> &Parker {
        &self.places[(number % PLACES as u64) as usize]
    }
}
