//! The machine behind its lock, and the passes to it.
ghost use Rattle.std.specs.Prelude.{◌≡◌, ℕ, ◌+◌, ◌<◌, ◌≤◌, min, false, List, [], ◌∷◌, ◌++◌, IfOk, IfErr};
ghost use Rattle.atomic_table.specs.Seated.{TableId};
ghost use Rattle.tdl_turn.specs.Numbers.{Among, Reads, longer};
ghost use Rattle.tdl_session.specs.Passes.{PassView, mine, pass_of, IsPassOf, IsFirst, SamePass, StandsForAll, Called, Refused};

use crate::machine::Machine;
use std::alloc::Global;
use std::marker::Model;
use std::sync::Wait;
use tdl_turn::{Seat, Turn};

/// A machine that many call. A clause sees of which table it is, and what no call changes in the machine.
#[derive(Drop)]
pub struct Shared<M: Machine> {
    turn: Turn<M>,
}

impl<M: Machine> Model for Shared<M> {
    ghost Value = { TableId × M.Fixed };

    ghost view = { λ s. s.turn };
}

/// The right to call the machine as one number.
#[derive(Drop)]
pub struct Pass<M: Machine> {
    seat: Seat<M>,
    number: u32,
    next: u32,
}

impl<M: Machine> Model for Pass<M> {
    ghost Value = { PassView M.Entry M.Fixed };

    ghost view = { λ p. pass_of p.seat };

    ghost invariant = { λ p. (p.number ≡ p.seat.number) × (p.next ≡ p.seat.next) × (p.next ≤ 9) × (p.seat.holds ≡ false) × Among p.seat.number p.seat.made };
}

impl<M: Machine> Shared<M> {
    /// Without memory the machine comes back. The first pass has number 0 and stands for all nine numbers.
    pub fn start(alloc: Global, machine: M) -> Result<(Shared<M>, Pass<M>), M>
        requires { M.history machine ≡ [] }
        ensures ok { IfOk result (λ t. IsPassOf t.0 t.1 × IsFirst t.1 × (t.0.1 ≡ M.fixed machine)) }
        ensures legal { M.legal (M.fixed machine) [] }
        ensures err { IfErr result (λ m. m ≡ machine) }
    {
        machine.legal_law();
        let (turn, seat) = Turn::new(alloc, machine)?;
        Ok((
            Shared { turn },
            Pass {
                seat,
                number: 0,
                next: 1,
            },
        ))
    }

    /// Waits for the turn, and calls the machine as the pass's number. What the pass has seen grows to the whole
    /// history, which ends with this call where it was accepted. No other entry that is new is the pass's own.
    pub fn call<R: Wait>(
        &self,
        rt: &R,
        alloc: Global,
        pass: &mut Pass<M>,
        call: M::Call,
    ) -> Result<M::Reply, M::Refusal>
        requires pass { IsPassOf self.now pass.old }
        requires may { M.may pass.old.number (mine M.by pass.old) call }
        ensures pass { SamePass pass.old pass.new }
        ensures own { Among pass.old.number pass.old.made }
        ensures legal { M.legal self.now.1 pass.new.seen }
        ensures ok { IfOk result (λ r. Called M.by (λ h e. M.adds self.now.1 h pass.old.number call e r) pass.old pass.new) }
        ensures err { IfErr result (λ x. Refused M.by (λ h. M.refuses self.now.1 h pass.old.number call x) pass.old pass.new) }
    {
        let mut machine = self.turn.take(rt, &mut pass.seat);
        let answer = machine.apply(alloc, pass.number, call);
        machine.legal_law();
        self.turn.give(&mut pass.seat, machine);
        answer
    }

    /// Makes the pass of the next number, which has seen as much, and no entry of its own.
    pub fn split(&self, pass: &mut Pass<M>) -> Pass<M>
        requires pass { IsPassOf self.now pass.old }
        requires number { pass.old.next < 9 }
        ensures pass { pass.new ≡ record pass.old { next = pass.old.next + 1 } }
        ensures new { result ≡ record pass.old { number = pass.old.next; made = pass.old.next ∷ []; next = 9 } }
        ensures mine { mine M.by result ≡ [] }
    {
        let own = &mut pass.seat;
        self.turn.read(own);
        let seat = self.turn.split(own);
        let number = pass.next;
        pass.next = number + 1;
        Pass {
            seat,
            number,
            next: 9,
        }
    }

    /// Puts two passes together. The pass stands for the numbers of both, and has seen what the one has that saw
    /// more; that begins with what the other had seen, and after it has no entry of a number that one stood for.
    pub fn meet(&self, pass: &mut Pass<M>, other: Pass<M>)
        requires pass { IsPassOf self.now pass.old }
        requires other { IsPassOf self.now other }
        ensures pass { (pass.new.table ≡ pass.old.table) × (pass.new.fixed ≡ pass.old.fixed) × (pass.new.number ≡ pass.old.number) }
        ensures numbers { (pass.new.made ≡ pass.old.made ++ other.made) × (pass.new.next ≡ min pass.old.next other.next) }
        ensures longer { pass.new.seen ≡ longer pass.old.seen other.seen }
        ensures this { Reads M.by pass.new.seen pass.old.seen pass.old.made }
        ensures that { Reads M.by pass.new.seen other.seen other.made }
        ensures mine { mine M.by pass.new ≡ mine M.by pass.old }
    {
        let Pass { seat, next, .. } = other;
        self.turn.join(&mut pass.seat, seat);
        self.turn.read(&mut pass.seat);
        if next < pass.next {
            pass.next = next;
        }
    }

    /// Takes the machine out for good, with the pass that stands for all nine numbers.
    pub fn close(self, pass: Pass<M>) -> M
        requires pass { IsPassOf self pass }
        requires alone { StandsForAll pass }
        ensures history { M.history result ≡ pass.seen }
        ensures fixed { M.fixed result ≡ self.1 }
        ensures legal { M.legal self.1 pass.seen }
    {
        let Shared { turn } = self;
        let Pass { seat, .. } = pass;
        let machine = turn.close(seat);
        machine.legal_law();
        machine
    }
}
