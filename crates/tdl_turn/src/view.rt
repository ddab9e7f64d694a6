//! What a seat knows at the table.
use std::collections::LinkedList;

/// How far a seat is with its turn. A ticket is a number without bound, and the words have its remainder by 2^64.
pub enum Stage {
    Idle,
    Waiting(u64),
    Holding(u64),
    /// It has its turn and has seen the whole history.
    Learned(u64),
    /// The value is out with it.
    Out(u64),
}

/// What a seat had seen, and the numbers that it stood for.
pub struct Mark<E> {
    pub list: LinkedList<E>,
    pub numbers: LinkedList<u64>,
}

/// No value of it is made.
pub struct View<E, F> {
    pub number: u64,
    /// The numbers that it stands for and for which a seat was made.
    pub made: LinkedList<u64>,
    /// The numbers from here to 8 have no seat yet, and this seat gives them. 9 means that it gives none.
    pub next: u64,
    pub stage: Stage,
    pub seen: LinkedList<E>,
    pub left: Mark<E>,
    pub right: Mark<E>,
    pub fixed: Option<F>,
}
