// The rule of the table, and what its steps tell.
ghost use Rattle.tdl_turn.specs.inside.Views.{first_view, spent_view, splitter, newcomer, joined};
ghost use Rattle.tdl_turn.specs.inside.Rule.{Ruled};
ghost use Rattle.tdl_turn.specs.inside.Plays.{drew, looked, learned, took, counted, entered, passed, read};

use crate::chronicle::Chronicle;
use crate::view::View;
use atomic_table::{Join, Play, Split, TableRule};
use std::snapshot::Snapshot;

pub struct Ticketed;

impl<V: Chronicle> TableRule<Option<V>, View<V::Entry, V::Fixed>, Snapshot<V>> for Ticketed {
    ghost holds = { λ key. Ruled V.history V.fixed V.by (V.fixed key.value) };

    ghost first = { λ key. first_view (V.fixed key.value) };
}

pub struct Draw;

impl<X, E, F> Play<Option<X>, View<E, F>> for Draw {
    ghost then = { drew };
}

pub struct Look;

impl<X, E, F> Play<Option<X>, View<E, F>> for Look {
    ghost then = { looked };
}

pub struct Learn;

impl<V: Chronicle> Play<Option<V>, View<V::Entry, V::Fixed>> for Learn {
    ghost then = { learned V.by };
}

pub struct Take;

impl<V: Chronicle> Play<Option<V>, View<V::Entry, V::Fixed>> for Take {
    ghost then = { took V.history V.fixed };
}

pub struct Count;

impl<X, E, F> Play<Option<X>, View<E, F>> for Count {
    ghost then = { counted };
}

pub struct Enter;

impl<V: Chronicle> Play<Option<V>, View<V::Entry, V::Fixed>> for Enter {
    ghost then = { entered V.history };
}

pub struct Pass;

impl<X, E, F> Play<Option<X>, View<E, F>> for Pass {
    ghost then = { passed };
}

pub struct Read;

impl<V: Chronicle> Play<Option<V>, View<V::Entry, V::Fixed>> for Read {
    ghost then = { read V.by };
}

pub struct Part;

impl<E, F> Split<View<E, F>> for Part {
    ghost left = { splitter };

    ghost right = { newcomer };
}

pub struct Both;

impl<E, F> Join<View<E, F>> for Both {
    ghost both = { joined };

    ghost spent = { spent_view };
}
