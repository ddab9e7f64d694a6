ghost use Rattle.std.specs.Prelude.{◌≡◌, ◌<◌, ◌+◌};

use std::marker::Model;
use std::sync::ledger::{Blank, Book, Ledger, Share};

/// How many steps an evaluation took. A step is one visit of a node for one arc inside one cycle. The
/// count stands in a ledger and takes no bytes at run time: contracts see it, and nothing else does.
#[derive(Drop)]
pub struct StepCount<L: Ledger> {
    book: Book<L>,
    share: Share<L>,
    ghost has_parts: { 0 < share.parts },
}

impl<L: Ledger> Model for StepCount<L> {
    ghost use Rattle.std.specs.Prelude.{ℕ};

    ghost Value = { ℕ };

    ghost view = { λ steps. steps.share.amount };
}

impl<L: Ledger> StepCount<L> {
    /// No steps yet, in a ledger of their own.
    pub fn new(blank: Blank) -> StepCount<L>
        requires name { blank.name ≡ L.name }
        requires parts { blank.parts ≡ L.parts }
        requires some { 0 < blank.parts }
        ensures { result ≡ 0 }
    {
        let (book, share) = blank.open();
        StepCount { book, share }
    }

    /// One step more.
    pub fn tick(&mut self)
        ensures { self.new ≡ self.old + 1 }
    {
        self.book.add(&mut self.share, 1);
    }
}
