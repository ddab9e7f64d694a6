// The calls of a turn, on the table and a token of it.
ghost use Rattle.std.specs.Prelude.{◌≡◌, ℕ, ◌+◌, ◌-◌, ◌<◌, ◌≤◌, min, true, false, List, [], ◌∷◌, ◌++◌, length, IfOk, IfErr};
ghost use Rattle.tdl_turn.specs.Numbers.{Among, NoneOf, NoneUnmade, Reads, longer};
ghost use Rattle.tdl_turn.specs.Sitters.{IsOf, SameSitter, MayAdd, first_sitter};
ghost use Rattle.tdl_turn.specs.inside.Views.{width, at_stage, Fetched, splitter, newcomer, joined};
ghost use Rattle.tdl_turn.specs.Tokens.{Rests, sitter, IsBoard};
ghost use Rattle.tdl_turn.specs.declared.view.Stage.TheVariants.{Idle, Holding, Out};

use crate::chronicle::Chronicle;
use crate::plays::{Both, Count, Draw, Enter, Learn, Look, Part, Pass, Read, Take, Ticketed};
use crate::view::View;
use atomic_table::{Refused, Seat, Shared, Table};
use std::alloc::{AllocFailed, Global};
use std::hint::spin_loop;
use std::snapshot::Snapshot;
use std::sync::Wait;

pub type Home<V, E, F> = Table<Option<V>, View<E, F>, Snapshot<V>, Ticketed, Global>;

pub type Board<V, E, F> = Shared<Option<V>, View<E, F>, Snapshot<V>, Ticketed>;

pub type Token<V, E, F> = Seat<Option<V>, View<E, F>>;

const DRAWN: usize = 0;

const SERVED: usize = 1;

const ENTRIES: usize = 2;

// How often a caller looks for its turn before it parks.
pub const LOOKS: u32 = 100;

pub fn served<V: Chronicle>(board: &Board<V, V::Entry, V::Fixed>) -> u64
    requires { IsBoard board.now.table_id }
{
    board.peek(SERVED)
}

// Whether each ticket that is drawn is served.
pub fn is_free<V: Chronicle>(board: &Board<V, V::Entry, V::Fixed>) -> bool
    requires { IsBoard board.now.table_id }
{
    board.peek(DRAWN) == served(board)
}

pub fn open<V: Chronicle>(
    alloc: Global,
    value: V,
) -> Result<(Home<V, V::Entry, V::Fixed>, Token<V, V::Entry, V::Fixed>), V>
    requires { V.history value ≡ [] }
    ensures board { IfOk result (λ t. IsBoard t.0.shared.table_id × (V.fixed t.0.shared.key.value ≡ V.fixed value)) }
    ensures token { IfOk result (λ t. (sitter t.1 ≡ first_sitter t.0.shared.table_id (V.fixed value)) × Rests t.1.me) }
    ensures err { IfErr result (λ v. v ≡ value) }
{
    let about = Snapshot::of(&value);
    let mut slots = Vec::new(alloc);
    if let Err(AllocFailed { value }) = slots.push(Some(value)) {
        slots.destroy_empty();
        let Some(value) = value else { unreachable!() };
        return Err(value);
    }
    match Table::new(alloc, &[0, 0, 0], slots, &about) {
        Ok(opened) => Ok(opened),
        Err(Refused { mut slots }) => {
            let Some(Some(value)) = slots.pop() else {
                unreachable!()
            };
            slots.destroy_empty();
            Err(value)
        }
    }
}

// Draws a ticket, and waits until it is served.
fn wait<V: Chronicle, R: Wait>(
    board: &Board<V, V::Entry, V::Fixed>,
    rt: &R,
    token: &mut Token<V, V::Entry, V::Fixed>,
)
    requires board { IsBoard board.now.table_id × (token.old.table_id ≡ board.now.table_id) }
    requires token { (token.old.me.0.stage ≡ Idle) × (0 < width token.old.me.0) }
    ensures board { token.new.table_id ≡ token.old.table_id }
    ensures token { (t : ℕ) × (token.new.me ≡ (at_stage token.old.me.0 (Holding t), token.old.me.1)) }
{
    let ticket = board.fetch_add::<Draw>(token, DRAWN, 1);
    let mut looks = 0;
    for _ in rt.forever() {
        let served = board.load::<Look>(token, SERVED);
        if served == ticket {
            return;
        }
        if looks < LOOKS {
            looks += 1;
            spin_loop();
        } else {
            board.park(rt, SERVED, (served & 0xffff_ffff) as u32);
        }
    }
    unreachable!()
}

// Learns the history and takes the value out, for the seat whose ticket is served.
fn fetch<V: Chronicle>(
    board: &Board<V, V::Entry, V::Fixed>,
    token: &mut Token<V, V::Entry, V::Fixed>,
) -> V
    requires board { IsBoard board.now.table_id × IsOf (board.now.table_id, V.fixed board.now.key.value) (sitter token.old) }
    requires token { (t : ℕ) × (token.old.me.0.stage ≡ Holding t) × (token.old.me.1 ≡ []) }
    ensures board { token.new.table_id ≡ token.old.table_id }
    ensures token { (t : ℕ) × (more : List V.Entry) × Fetched token.old.me t more token.new.me × NoneOf V.by token.old.me.0.made more }
    ensures history { V.history result ≡ token.new.me.0.seen }
    ensures fixed { V.fixed result ≡ V.fixed board.now.key.value }
{
    board.load::<Learn>(token, ENTRIES);
    board.load::<Take>(token, SERVED);
    let Some(value) = board.exchange(token, 0, None) else {
        unreachable!()
    };
    value
}

pub fn take_token<V: Chronicle, R: Wait>(
    board: &Board<V, V::Entry, V::Fixed>,
    rt: &R,
    token: &mut Token<V, V::Entry, V::Fixed>,
) -> V
    requires board { IsBoard board.now.table_id × IsOf (board.now.table_id, V.fixed board.now.key.value) (sitter token.old) }
    requires token { Rests token.old.me × ((sitter token.old).holds ≡ false) }
    ensures rests { Rests token.new.me }
    ensures seat { SameSitter (sitter token.old) (sitter token.new) × ((sitter token.new).holds ≡ true) }
    ensures seen { (more : List V.Entry) × (token.new.me.0.seen ≡ token.old.me.0.seen ++ more) × NoneOf V.by token.old.me.0.made more }
    ensures history { V.history result ≡ token.new.me.0.seen }
    ensures fixed { V.fixed result ≡ V.fixed board.now.key.value }
{
    wait(board, rt, token);
    fetch(board, token)
}

// Counts the entry that the value in the seat's slot has more, if it has one.
fn enter<V: Chronicle>(
    board: &Board<V, V::Entry, V::Fixed>,
    token: &mut Token<V, V::Entry, V::Fixed>,
    value: &Snapshot<V>,
    entries: u64,
)
    requires board { IsBoard board.now.table_id × (token.old.table_id ≡ board.now.table_id) }
    requires own { Among token.old.me.0.number token.old.me.0.made }
    requires token { ((t : ℕ) × (token.old.me.0.stage ≡ Out t)) × (token.old.me.1 ≡ (0, Some value.now.value) ∷ []) }
    requires value { MayAdd V.by (V.history value.now.value) (sitter token.old) × (entries ≡ length (V.history value.now.value)) }
    ensures seat { SameSitter (sitter token.old) (sitter token.new) × (token.new.me.0.stage ≡ token.old.me.0.stage) × (token.new.me.1 ≡ token.old.me.1) }
    ensures seen { token.new.me.0.seen ≡ V.history value.now.value }
{
    let _ = value;
    if board.load::<Count>(token, ENTRIES) != entries {
        board.fetch_add::<Enter>(token, ENTRIES, 1);
    }
}

pub fn give_token<V: Chronicle>(
    board: &Board<V, V::Entry, V::Fixed>,
    token: &mut Token<V, V::Entry, V::Fixed>,
    value: V,
)
    requires board { IsBoard board.now.table_id × IsOf (board.now.table_id, V.fixed board.now.key.value) (sitter token.old) }
    requires token { Rests token.old.me × ((sitter token.old).holds ≡ true) }
    requires fixed { V.fixed value ≡ V.fixed board.now.key.value }
    requires history { MayAdd V.by (V.history value) (sitter token.old) }
    ensures rests { Rests token.new.me }
    ensures seat { SameSitter (sitter token.old) (sitter token.new) × ((sitter token.new).holds ≡ false) }
    ensures seen { token.new.me.0.seen ≡ V.history value }
{
    let entries = value.entries();
    let given = Snapshot::of(&value);
    let emptied = board.exchange(token, 0, Some(value));
    let None = emptied else { unreachable!() };
    enter(board, token, &given, entries);
    let served = board.fetch_add::<Pass>(token, SERVED, 1);
    // Nobody waits where the next ticket is not drawn.
    if board.peek(DRAWN) != served.wrapping_add(1) {
        board.wake_all(SERVED);
    }
}

pub fn read_token<V: Chronicle>(
    board: &Board<V, V::Entry, V::Fixed>,
    token: &mut Token<V, V::Entry, V::Fixed>,
) -> u64
    requires { IsBoard board.now.table_id × (token.old.table_id ≡ board.now.table_id) }
    ensures seat { (token.new.table_id ≡ token.old.table_id) × (token.new.me ≡ token.old.me) }
    ensures count { length token.new.me.0.seen ≤ result }
    ensures left { Reads V.by token.new.me.0.seen token.new.me.0.left.list token.new.me.0.left.numbers }
    ensures right { Reads V.by token.new.me.0.seen token.new.me.0.right.list token.new.me.0.right.numbers }
    ensures unmade { NoneUnmade V.by token.new.me.0.next token.new.me.0.seen }
{
    board.load::<Read>(token, ENTRIES)
}

pub fn split_token<V: Chronicle>(
    board: &Board<V, V::Entry, V::Fixed>,
    token: &mut Token<V, V::Entry, V::Fixed>,
) -> Token<V, V::Entry, V::Fixed>
    requires board { IsBoard board.now.table_id × (token.old.table_id ≡ board.now.table_id) }
    requires token { token.old.me.0.next < 9 }
    ensures seat { (token.new.table_id ≡ token.old.table_id) × (token.new.me ≡ (splitter token.old.me.0, token.old.me.1)) }
    ensures new { (result.table_id ≡ token.old.table_id) × (result.me ≡ (newcomer token.old.me.0, [])) }
{
    board.split_seat::<Part>(token)
}

pub fn join_token<V: Chronicle>(
    board: &Board<V, V::Entry, V::Fixed>,
    token: &mut Token<V, V::Entry, V::Fixed>,
    other: Token<V, V::Entry, V::Fixed>,
)
    requires board { IsBoard board.now.table_id × (token.old.table_id ≡ board.now.table_id) × (other.table_id ≡ board.now.table_id) }
    requires token { Rests token.old.me × (token.old.me.0.stage ≡ Idle) × (token.old.me.1 ≡ []) }
    requires other { (other.me.0.stage ≡ Idle) × (other.me.1 ≡ []) }
    ensures rests { Rests token.new.me }
    ensures seat { (token.new.table_id ≡ token.old.table_id) × (token.new.me ≡ (joined token.old.me.0 other.me.0, token.old.me.1)) }
{
    board.join_seat::<Both>(token, other);
}

pub fn close_table<V: Chronicle>(
    table: Home<V, V::Entry, V::Fixed>,
    token: Token<V, V::Entry, V::Fixed>,
) -> V
    requires board { IsBoard table.shared.table_id × (token.table_id ≡ table.shared.table_id) }
    requires token { (token.me.0.stage ≡ Idle) × (length token.me.0.made + (9 - token.me.0.next) ≡ 9) }
    ensures history { V.history result ≡ token.me.0.seen }
    ensures fixed { V.fixed result ≡ V.fixed table.shared.key.value }
{
    let mut closed = table.close_with(token);
    let Some(value) = closed.take(0) else {
        unreachable!()
    };
    closed.free();
    value
}
