// Reading a text.
ghost use Rattle.std.specs.Prelude.{◌≡◌, ◌≤◌, ◌^◌, length, IfOk, IfErr, IsTrue};
ghost use Rattle.tdl_mini_grammar.specs.Texts.{lexer_kind, IsMini, Refuses};
ghost use Rattle.tdl_lexer.specs.MiniForms.{mini_notation};
ghost use Rattle.tdl_lexer.specs.Tokens.{IsCut};
ghost use Rattle.tdl_control.specs.declared.faults.Faulted.TheVariants.{NoMemory};
ghost use Rattle.tdl_mini_tree.specs.Tree.{Layers};
ghost use Rattle.tdl_mini_tree.specs.Syntax.{syntax_of};
ghost use Rattle.tdl_mini_tree.specs.Valid.{fits_key};
ghost use Rattle.tdl_mini.specs.inside.LoopView.{IsTokenFault, IsWithin, IsAtToken, with_kind};

use crate::tokens::tok_at;
use std::alloc::Global;
use tdl_control::Faulted;
use tdl_lexer::{LexKind, Mode, Tokens};
use tdl_mini_reader::{MiniTokenReader, Stage};
use tdl_mini_tree::{Kind, MiniKind, Tree};

/// Reads a text of a kind. The key of a kind of words takes a word, and that of a kind of numbers or notes
/// takes none. A fault stands at the offset of a byte, counted from 0. Memory for the tokens and the tree
/// comes from the allocator.
pub fn read_mini(alloc: Global, text: &[u8], kind: Kind) -> Result<Tree, Faulted<MiniKind>>
    requires short { length text.now ≤ 2 ^ 24 }
    requires key { IsTrue (fits_key kind) }
    ensures text { IfOk result (λ tree. IsMini kind text.now (syntax_of tree)) }
    ensures kind { IfOk result (λ tree. tree.kind ≡ kind) }
    ensures refused { IfErr result (Refuses kind text.now) }
    ensures exact { (ls : Layers) → IsMini kind text.now ls → IfErr result (λ fault. fault ≡ NoMemory) }
{
    let tokens = match tdl_lexer::tokens(alloc, text, Mode::Mini) {
        Ok(tokens) => tokens,
        Err(fault) => return Err(lexer_fault(fault)),
    };
    match read_tokens(alloc, text, &tokens, kind) {
        Ok(tree) => Ok(tree),
        Err(fault) => Err(at_byte(fault, &tokens)),
    }
}

// Reads the tokens of a text. A fault stands at the index of its token.
fn read_tokens(
    alloc: Global,
    text: &[u8],
    tokens: &Tokens,
    kind: Kind,
) -> Result<Tree, Faulted<MiniKind>>
    requires short { length text.now ≤ 2 ^ 24 }
    requires key { IsTrue (fits_key kind) }
    requires cut { IsCut mini_notation text.now tokens.now }
    ensures text { IfOk result (λ tree. IsMini kind text.now (syntax_of tree)) }
    ensures kind { IfOk result (λ tree. tree.kind ≡ kind) }
    ensures err { IfErr result (IsTokenFault kind text.now tokens.now) }
{
    let mut reader = MiniTokenReader::new(alloc, kind);
    let mut stage = Stage::Ready;
    for i in 0..tokens.len() {
        reader.take(&mut stage, &tok_at(text, *tokens.get(i)))?;
    }
    Ok(reader.into_tree()?)
}

// The fault at the offset of its token in the text.
fn at_byte(fault: Faulted<MiniKind>, tokens: &Tokens) -> Faulted<MiniKind>
    requires { IsWithin (length tokens.now) fault }
    ensures { IsAtToken tokens.now fault result }
{
    match fault {
        Faulted::NoMemory => Faulted::NoMemory,
        Faulted::At { kind, at } => Faulted::At {
            kind,
            at: tokens.get(at as usize).at,
        },
    }
}

fn lexer_fault(fault: Faulted<LexKind>) -> Faulted<MiniKind>
    ensures { result ≡ with_kind fault }
{
    match fault {
        Faulted::NoMemory => Faulted::NoMemory,
        Faulted::At { kind, at } => Faulted::At {
            kind: lexer_kind(kind),
            at,
        },
    }
}

fn lexer_kind(kind: LexKind) -> MiniKind
    ensures { result ≡ lexer_kind kind }
{
    match kind {
        LexKind::NotAscii => MiniKind::NotAscii,
        LexKind::UnknownSign | LexKind::Unclosed => MiniKind::UnknownSign,
        LexKind::NumberTooLarge => MiniKind::NumberTooLarge,
        LexKind::WordTooLong => MiniKind::WordTooLong,
    }
}
