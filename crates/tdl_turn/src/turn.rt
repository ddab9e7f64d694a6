//! The lock and its seats.
ghost use Rattle.std.specs.Prelude.{◌≡◌, ℕ, ◌+◌, ◌-◌, ◌<◌, ◌≤◌, min, true, false, List, [], ◌∷◌, ◌++◌, length, IfOk, IfErr};
ghost use Rattle.atomic_table.specs.Seated.{TableId};
ghost use Rattle.tdl_turn.specs.Numbers.{NoneOf, NoneUnmade, Reads, longer};
ghost use Rattle.tdl_turn.specs.Sitters.{Sitter, no_mark, IsOf, SameSitter, MayAdd, first_sitter};
ghost use Rattle.tdl_turn.specs.Tokens.{sitter, Rests, IsBoard};

use crate::chronicle::Chronicle;
use crate::door::Door;
use crate::moves::{
    Home, Token, close_table, give_token, join_token, open, read_token, split_token, take_token,
};
use std::alloc::Global;
use std::marker::Model;
use std::sync::Wait;

/// A lock round one value. A clause sees which table it is, and what no call changes in the value.
#[derive(Drop)]
pub struct Turn<V: Chronicle> {
    table: Home<V, V::Entry, V::Fixed>,
    door: Door,
}

impl<V: Chronicle> Model for Turn<V> {
    ghost Value = { TableId × V.Fixed };

    ghost view = { λ t. (t.table.shared.table_id, V.fixed t.table.shared.key.value) };

    ghost invariant = { λ t. IsBoard t.table.shared.table_id };
}

/// The right to take the value in turn. It has no bytes.
#[derive(Drop)]
pub struct Seat<V: Chronicle> {
    token: Token<V, V::Entry, V::Fixed>,
}

impl<V: Chronicle> Model for Seat<V> {
    ghost Value = { Sitter V.Entry V.Fixed };

    ghost view = { λ s. sitter s.token };

    ghost invariant = { λ s. Rests s.token.me };
}

impl<V: Chronicle> Turn<V> {
    /// Without memory the value comes back.
    pub fn new(alloc: Global, value: V) -> Result<(Turn<V>, Seat<V>), V>
        requires { V.history value ≡ [] }
        ensures turn { IfOk result (λ t. t.0.1 ≡ V.fixed value) }
        ensures seat { IfOk result (λ t. t.1 ≡ first_sitter t.0.0 (V.fixed value)) }
        ensures err { IfErr result (λ v. v ≡ value) }
    {
        let (table, token) = open(alloc, value)?;
        let door = Door::new();
        Ok((Turn { table, door }, Seat { token }))
    }

    /// Waits for the turn, and takes the value. What the seat has seen grows to the whole history.
    pub fn take<R: Wait>(&self, rt: &R, seat: &mut Seat<V>) -> V
        requires { IsOf self.now seat.old × (seat.old.holds ≡ false) }
        ensures seat { SameSitter seat.old seat.new × (seat.new.holds ≡ true) }
        ensures seen { (more : List V.Entry) × (seat.new.seen ≡ seat.old.seen ++ more) × NoneOf V.by seat.old.made more }
        ensures history { V.history result ≡ seat.new.seen }
        ensures fixed { V.fixed result ≡ self.now.1 }
    {
        self.door.enter(&self.table.shared, rt);
        take_token(&self.table.shared, rt, &mut seat.token)
    }

    /// Gives the value back, with at most one entry more, and passes the turn on.
    pub fn give(&self, seat: &mut Seat<V>, value: V)
        requires seat { IsOf self.now seat.old × (seat.old.holds ≡ true) }
        requires fixed { V.fixed value ≡ self.now.1 }
        requires history { MayAdd V.by (V.history value) seat.old }
        ensures seat { SameSitter seat.old seat.new × (seat.new.holds ≡ false) }
        ensures seen { seat.new.seen ≡ V.history value }
    {
        give_token(&self.table.shared, &mut seat.token, value);
        self.door.call_in(&self.table.shared);
    }

    /// A count of entries. It tells that what the seat has seen begins with what the two seats of its last join had
    /// seen, and has no entry of their numbers after that; and that it has none of the numbers that the seat may
    /// still give.
    pub fn read(&self, seat: &mut Seat<V>) -> u64
        requires { IsOf self.now seat.old × (seat.old.holds ≡ false) }
        ensures seat { seat.new ≡ seat.old }
        ensures count { length seat.new.seen ≤ result }
        ensures left { Reads V.by seat.new.seen seat.new.left.list seat.new.left.numbers }
        ensures right { Reads V.by seat.new.seen seat.new.right.list seat.new.right.numbers }
        ensures unmade { NoneUnmade V.by seat.new.next seat.new.seen }
    {
        read_token(&self.table.shared, &mut seat.token)
    }

    /// Makes the seat of the next number, which has seen as much.
    pub fn split(&self, seat: &mut Seat<V>) -> Seat<V>
        requires seat { IsOf self.now seat.old × (seat.old.holds ≡ false) }
        requires number { seat.old.next < 9 }
        ensures seat { seat.new ≡ record seat.old { next = seat.old.next + 1 } }
        ensures new { result ≡ record seat.old { number = seat.old.next; made = seat.old.next ∷ []; next = 9; left = no_mark; right = no_mark } }
    {
        let token = split_token(&self.table.shared, &mut seat.token);
        Seat { token }
    }

    /// Puts two seats together. The seat stands for the numbers of both, and has seen what the one has that saw more.
    pub fn join(&self, seat: &mut Seat<V>, other: Seat<V>)
        requires seat { IsOf self.now seat.old × (seat.old.holds ≡ false) }
        requires other { IsOf self.now other × (other.holds ≡ false) }
        ensures seat { (seat.new.table ≡ seat.old.table) × (seat.new.fixed ≡ seat.old.fixed) × (seat.new.number ≡ seat.old.number) × (seat.new.holds ≡ false) }
        ensures numbers { (seat.new.made ≡ seat.old.made ++ other.made) × (seat.new.next ≡ min seat.old.next other.next) }
        ensures seen { seat.new.seen ≡ longer seat.old.seen other.seen }
        ensures left { (seat.new.left.list ≡ seat.old.seen) × (seat.new.left.numbers ≡ seat.old.made) }
        ensures right { (seat.new.right.list ≡ other.seen) × (seat.new.right.numbers ≡ other.made) }
    {
        let Seat { token } = other;
        join_token(&self.table.shared, &mut seat.token, token);
    }

    /// Takes the value out for good, with the seat that stands for all nine numbers.
    pub fn close(self, seat: Seat<V>) -> V
        requires seat { IsOf self seat × (seat.holds ≡ false) }
        requires alone { length seat.made + (9 - seat.next) ≡ 9 }
        ensures history { V.history result ≡ seat.seen }
        ensures fixed { V.fixed result ≡ self.1 }
    {
        let Turn { table, .. } = self;
        let Seat { token } = seat;
        close_table(table, token)
    }
}
