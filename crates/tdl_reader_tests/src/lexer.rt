// The tokens of texts in each language.
mod line;
mod mini;

use std::alloc::Global;
use tdl_control::Faulted;
use tdl_lexer::{LexKind, Mode, Sign, Token, tokens};

// A token that is expected: its sign, its offset and its end.
#[derive(Clone, Copy)]
pub struct Piece(pub Sign, pub u32, pub u32);

// A text, and its tokens.
#[derive(Clone, Copy)]
pub struct Case(pub &'static [u8], pub &'static [Piece]);

// A text, and its first fault with its offset.
#[derive(Clone, Copy)]
pub struct Fault(pub &'static [u8], pub LexKind, pub u32);

fn is_cut(alloc: Global, mode: Mode, text: &[u8], wanted: &[Piece]) -> bool {
    if text.len() > 64 {
        return false;
    }
    let Ok(found) = tokens(alloc, text, mode) else {
        return false;
    };
    if found.len() != wanted.len() {
        return false;
    }
    for (i, Piece(sign, at, end)) in wanted.iter().enumerate() {
        let token = Token {
            sign: *sign,
            at: *at,
            end: *end,
        };
        if i >= found.len() || *found.get(i) != token {
            return false;
        }
    }
    true
}

// Whether each text is cut into its tokens.
fn are_cut(alloc: Global, mode: Mode, cases: &[Case]) -> bool {
    for Case(text, wanted) in cases {
        if !is_cut(alloc, mode, text, wanted) {
            return false;
        }
    }
    true
}

// Whether each text has its fault, at its offset.
fn have_faults(alloc: Global, mode: Mode, faults: &[Fault]) -> bool {
    for Fault(text, kind, at) in faults {
        let (kind, at) = (*kind, *at);
        if text.len() > 64 || tokens(alloc, text, mode).err() != Some(Faulted::At { kind, at }) {
            return false;
        }
    }
    true
}

#[test]
fn cuts_into_tokens(rt: HostRuntime) {
    assert!(rt; are_cut(rt.alloc(), Mode::Mini, &mini::CASES));
    assert!(rt; are_cut(rt.alloc(), Mode::Line, &line::CASES));
}

#[test]
fn finds_the_first_fault(rt: HostRuntime) {
    assert!(rt; have_faults(rt.alloc(), Mode::Mini, &mini::FAULTS));
    assert!(rt; have_faults(rt.alloc(), Mode::Line, &line::FAULTS));
}
