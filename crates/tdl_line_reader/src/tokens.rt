// Tokens as the grammar of lines sees them.
ghost use Rattle.std.specs.Prelude.{◌≡◌, IsTrue, IfOk, IfErr};
ghost use Rattle.tdl_mini_tree.specs.declared.leaves.Kind.{Kind as KindValue};
ghost use Rattle.tdl_mini_tree.specs.Reading.{Reading};
ghost use Rattle.tdl_mini_tree.specs.Valid.{fits_key};
ghost use Rattle.tdl_command.specs.View.{reading_of};
ghost use Rattle.tdl_line_reader.specs.Quoted.{IsNear, IsRefusal};

use std::alloc::Global;
use tdl_control::Faulted;
use tdl_line_machine::{Mark, Name};
use tdl_mini_tree::{Kind, MiniKind, Number, Tree};

/// A quoted text of a line, which is read in the kind that its place wants.
pub trait Quoted: Copy {
    /// What it is in a kind.
    ghost reads: { KindValue → Self → Reading → Type 0 };

    /// Its tree in a kind. A fault stands at the offset of a byte in the text, counted from 0.
    fn read(self, alloc: Global, kind: Kind) -> Result<Tree, Faulted<MiniKind>>
        requires { IsTrue (fits_key kind) }
        ensures ok { IfOk result (λ t. (reading : Reading) → reads kind self reading → reading ≡ reading_of t) }
        ensures kind { IfOk result (λ t. t.kind ≡ kind) }
        ensures refused { IfErr result (λ fault. (reading : Reading) → reads kind self reading → IsRefusal reading fault) }
        ensures near { IfErr result IsNear };

    /// It is something in each kind.
    ghost some: { (kind : KindValue) (quoted : Self) → (reading : Reading) × reads kind quoted reading };
}

/// A token of a line. A quoted text is without its quotes.
#[derive(Clone, Copy)]
pub enum Tok<Q> {
    Number(Number),
    Name(Name),
    Quoted(Q),
    Mark(Mark),
    End,
}
