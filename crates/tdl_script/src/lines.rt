// Reading a line, and a pattern.
ghost use Rattle.std.specs.Prelude.{◌≡◌, ◌<◌, ◌≤◌, length, IfOk, IfErr, OnOk};
ghost use Rattle.tdl_control.specs.declared.faults.Faulted.TheVariants.{NoMemory, At};
ghost use Rattle.tdl_lexer.specs.LineForms.{line_notation};
ghost use Rattle.tdl_lexer.specs.Tokens.{IsCut};
ghost use Rattle.tdl_line_machine.specs.declared.faults.LineKind.TheVariants.{LineTooLong};
ghost use Rattle.tdl_line_texts.specs.Limits.{max_line};
ghost use Rattle.tdl_command.specs.Tree as tree;
ghost use Rattle.tdl_command.specs.Tree.{PatternTree};
ghost use Rattle.tdl_line_texts.specs.Texts.{IsWhole, RefusesWhole, IsLine, RefusesLine, IsPattern, RefusesPattern, IsTrimmed, lexer_kind};
ghost use Rattle.tdl_command.specs.View.{line_of, pattern_of, whole_of};
ghost use Rattle.tdl_script.specs.inside.LoopView.{IsTokenFault, IsWithin, IsAtByte, with_kind};
ghost use Rattle.tdl_line_machine.specs.Machine.States.{first_stage};
ghost use Rattle.tdl_line_reader.specs.ReaderView.{stage_of};

use crate::tokens::tok_at;
use std::alloc::Global;
use tdl_command::{Line, Pattern, Source, Whole};
use tdl_control::Faulted;
use tdl_lexer::{LexKind, Mode, Tokens};
use tdl_line_machine::{Goal, LineKind};
use tdl_line_reader::{Fault, LineTokenReader, Spot, Stage};
use tdl_line_texts::MAX_LINE;
use tdl_mini::read_mini;
use tdl_mini_tree::{Kind, MiniKind};

// Before the first token.
fn first_stage(goal: Goal) -> Stage
    ensures { stage_of result ≡ first_stage goal }
{
    match goal {
        Goal::Line => Stage::Beginning,
        Goal::Pattern => Stage::Wanting(Spot::First),
    }
}

/// Reads a performer's line. A fault stands at the offset of a byte, counted from 0.
#[inline(never)]
pub fn read_line(alloc: Global, text: &[u8]) -> Result<Line<'_>, Faulted<LineKind>>
    ensures line { IfOk result (λ l. IsLine text.now (line_of l.command)) }
    ensures text { IfOk result (λ l. IsTrimmed text.now l.text.now) }
    ensures refused { IfErr result (RefusesLine text.now) }
    ensures exact { (l : tree.Line) → IsLine text.now l → IfErr result (λ fault. fault ≡ NoMemory) }
{
    check_length(text)?;
    match read_whole(alloc, text, Goal::Line)? {
        Whole::Line(command) => Ok(Line {
            text: trimmed(text),
            command,
        }),
        Whole::Pattern(_) => unreachable!(),
    }
}

/// Reads a pattern: an expression where the text has a `"`, and else a text of mini-notation of sounds.
pub fn read_pattern(alloc: Global, text: &[u8]) -> Result<Pattern, Faulted<LineKind>>
    ensures pattern { IfOk result (λ p. IsPattern text.now (pattern_of p.source)) }
    ensures refused { IfErr result (RefusesPattern text.now) }
    ensures exact { (p : PatternTree) → IsPattern text.now p → IfErr result (λ fault. fault ≡ NoMemory) }
{
    check_length(text)?;
    if !text.contains(&b'"') {
        return match read_mini(alloc, text, Kind::Sound) {
            Ok(tree) => Ok(Pattern {
                source: Source::Mini(tree),
            }),
            Err(Faulted::NoMemory) => Err(Faulted::NoMemory),
            Err(Faulted::At { kind, at }) => Err(Faulted::At {
                kind: LineKind::Mini(kind),
                at,
            }),
        };
    }
    match read_whole(alloc, text, Goal::Pattern)? {
        Whole::Pattern(expr) => Ok(Pattern {
            source: Source::Expr(expr),
        }),
        Whole::Line(_) => unreachable!(),
    }
}

fn check_length(text: &[u8]) -> Result<(), Faulted<LineKind>>
    ensures ok { OnOk result (length text.now ≤ max_line) }
    ensures err { IfErr result (λ fault. (max_line < length text.now) × (fault ≡ At LineTooLong max_line)) }
{
    if text.len() <= MAX_LINE {
        Ok(())
    } else {
        Err(Faulted::At {
            kind: LineKind::LineTooLong,
            at: MAX_LINE as u32,
        })
    }
}

// The text without the blanks at its ends.
fn trimmed(text: &[u8]) -> &[u8]
    ensures { IsTrimmed text.now result.now }
{
    let mut start = 0;
    while start < text.len() && text[start] == b' ' {
        start += 1;
    }
    let mut end = text.len();
    while end > start && text[end - 1] == b' ' {
        end -= 1;
    }
    &text[start..end]
}

fn read_whole(alloc: Global, text: &[u8], goal: Goal) -> Result<Whole, Faulted<LineKind>>
    requires short { length text.now ≤ max_line }
    ensures whole { IfOk result (λ w. IsWhole goal text.now (whole_of w)) }
    ensures refused { IfErr result (RefusesWhole goal text.now) }
{
    let tokens = match tdl_lexer::tokens(alloc, text, Mode::Line) {
        Ok(tokens) => tokens,
        Err(fault) => return Err(lexer_fault(fault)),
    };
    match read_tokens(alloc, text, &tokens, goal) {
        Ok(whole) => Ok(whole),
        Err(fault) => Err(at_byte(fault, &tokens)),
    }
}

// Reads the tokens of a text. A fault stands at an offset in its token.
fn read_tokens(alloc: Global, text: &[u8], tokens: &Tokens, goal: Goal) -> Result<Whole, Fault>
    requires short { length text.now ≤ max_line }
    requires cut { IsCut line_notation text.now tokens.now }
    ensures whole { IfOk result (λ w. IsWhole goal text.now (whole_of w)) }
    ensures err { IfErr result (IsTokenFault goal text.now tokens.now) }
{
    let mut reader = LineTokenReader::new(alloc);
    let mut stage = first_stage(goal);
    for i in 0..tokens.len() {
        stage = reader.take(stage, &tok_at(text, *tokens.get(i)))?;
    }
    match stage {
        Stage::Ended(whole) => Ok(whole),
        _ => unreachable!(),
    }
}

// The fault at the offset of its byte in the text.
fn at_byte(fault: Fault, tokens: &Tokens) -> Faulted<LineKind>
    requires { IsWithin tokens.now fault }
    ensures { IsAtByte tokens.now fault result }
{
    match fault {
        Fault::NoMemory => Faulted::NoMemory,
        Fault::At { kind, place } => Faulted::At {
            kind,
            at: tokens.get(place.token as usize).at + u32::from(place.offset),
        },
    }
}

fn lexer_fault(fault: Faulted<LexKind>) -> Faulted<LineKind>
    ensures { result ≡ with_kind fault }
{
    match fault {
        Faulted::NoMemory => Faulted::NoMemory,
        Faulted::At { kind, at } => Faulted::At {
            kind: line_kind(kind),
            at,
        },
    }
}

fn line_kind(kind: LexKind) -> LineKind
    ensures { result ≡ lexer_kind kind }
{
    match kind {
        LexKind::NotAscii => LineKind::Mini(MiniKind::NotAscii),
        LexKind::UnknownSign => LineKind::Mini(MiniKind::UnknownSign),
        LexKind::NumberTooLarge => LineKind::Mini(MiniKind::NumberTooLarge),
        LexKind::WordTooLong => LineKind::Mini(MiniKind::WordTooLong),
        LexKind::Unclosed => LineKind::Unclosed,
    }
}
