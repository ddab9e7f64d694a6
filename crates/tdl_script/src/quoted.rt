// The quoted texts of a line, as the reader of lines takes them.
ghost use Rattle.std.specs.Prelude.{◌≤◌, length};
ghost use Rattle.tdl_line_texts.specs.Limits.{max_line};

use std::alloc::Global;
use tdl_control::Faulted;
use tdl_line_reader::Quoted;
use tdl_mini::read_mini;
use tdl_mini_tree::{Kind, MiniKind, Tree};

/// A text of mini-notation in a line, without its quotes.
#[derive(Clone, Copy)]
pub(crate) struct QuotedText<'a> {
    pub(crate) bytes: &'a [u8],
    pub(crate) ghost short: { length bytes.now ≤ max_line },
}

impl<'a> Quoted for QuotedText<'a> {
    ghost use Rattle.tdl_mini_grammar.proofs.Readings.{some_reading};
    ghost use Rattle.tdl_script.specs.inside.QuotedView.{text_reads};

    ghost reads = { text_reads };

    ghost some = { λ kind quoted. some_reading kind quoted.bytes.now };

    fn read(self, alloc: Global, kind: Kind) -> Result<Tree, Faulted<MiniKind>> {
        read_mini(alloc, self.bytes, kind)
    }
}
