// Ways to read the texts of lines.
ghost use Rattle.std.specs.Prelude.{ℕ, List, IfNone, IfOk, IfSome};
ghost use Rattle.tdl_desk.specs.declared.changes.Change.{Change};
ghost use Rattle.tdl_expr.specs.Tree.{Tree};
ghost use Rattle.tdl_score.specs.Readings.{IsReading};

use std::alloc::Global;
use tdl_control::NoMemory;

/// A way to read the texts of lines. Histories are told by their texts, and what these change by the reader.
pub trait Reader {
    /// A text reads as this change of what is played, from the next multiple of so many cycles on.
    ghost reads: { List ℕ → ℕ → Change Tree → Type 0 };

    /// A text has one reading at most, of a pattern that can be played.
    fn reading_law()
        ensures { IsReading reads };
}

/// A reader that reads texts, one at a time.
pub trait TextReader: Reader {
    /// From the next multiple of how many cycles on the text changes what is played. None where it reads as no change.
    fn every(alloc: Global, text: &[u8]) -> Result<Option<u32>, NoMemory>
        ensures some { IfOk result (λ read. IfSome read (λ n. (change : Change Tree) × Self.reads text.now n change)) }
        ensures none { IfOk result (λ read. IfNone read ((n : ℕ) (change : Change Tree) → Self.reads text.now n change → ⊥)) };
}
