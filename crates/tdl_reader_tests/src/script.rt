// What the reader answers for lines, and for patterns.
mod faults;
mod readable;

use faults::Fault;
use std::alloc::Global;
use tdl_command::Source;
use tdl_control::Faulted;
use tdl_mini_tree::MiniKind;
use tdl_script::{LineKind, read_line, read_pattern};

fn fault_of(alloc: Global, text: &[u8]) -> Option<(LineKind, u32)> {
    match read_line(alloc, text) {
        Err(Faulted::At { kind, at }) => Some((kind, at)),
        Ok(_) | Err(Faulted::NoMemory) => None,
    }
}

// Whether each line has its fault, at its offset.
fn have_faults(alloc: Global, lines: &[Fault]) -> bool {
    for Fault(kind, text, at) in lines {
        if fault_of(alloc, text) != Some((*kind, *at)) {
            return false;
        }
    }
    true
}

#[test]
fn tells_faults(rt: HostRuntime) {
    assert!(rt; have_faults(rt.alloc(), &faults::LINES));
}

// Whether each line is read.
fn are_read(alloc: Global, lines: &[&[u8]]) -> bool {
    for text in lines {
        if read_line(alloc, text).is_err() {
            return false;
        }
    }
    true
}

#[test]
fn reads(rt: HostRuntime) {
    assert!(rt; are_read(rt.alloc(), &readable::LINES));
}

#[test]
fn refuses_long_lines(rt: HostRuntime) {
    let long = [b'('; 2049];
    let whole = [b' '; 2048];
    let fault = (LineKind::LineTooLong, 2048);
    assert!(rt; fault_of(rt.alloc(), &long) == Some(fault));
    assert!(rt; read_line(rt.alloc(), &whole).is_ok());
    assert!(rt; read_as(rt.alloc(), &long) == Err(Some(fault)));
}

#[test]
fn keeps_the_text_without_outer_blanks(rt: HostRuntime) {
    if let Ok(line) = read_line(rt.alloc(), b"  hush  -- now  ") {
        assert!(rt; line.text == b"hush  -- now".as_slice());
    } else {
        assert!(rt; false);
    }
}

// What a pattern is written as.
#[derive(Clone, Copy, PartialEq, Eq)]
enum Form {
    Mini,
    Expr,
}

// A text, and the form of its pattern or its fault.
#[derive(Clone, Copy)]
struct Read(&'static [u8], Result<Form, Option<(LineKind, u32)>>);

static PATTERNS: [Read; 4] = [
    Read(b"bd*2 <sn cp>", Ok(Form::Mini)),
    Read(b"rev $ s \"bd\"", Ok(Form::Expr)),
    Read(
        b"n \"1.5\"",
        Err(Some((LineKind::Mini(MiniKind::FloatValue), 3))),
    ),
    Read(
        b"bd [sn",
        Err(Some((LineKind::Mini(MiniKind::Unexpected), 6))),
    ),
];

// The form of a pattern, or its fault: `None` where memory is out.
fn read_as(alloc: Global, text: &[u8]) -> Result<Form, Option<(LineKind, u32)>> {
    match read_pattern(alloc, text) {
        Ok(pattern) => match &pattern.source {
            Source::Mini(_) => Ok(Form::Mini),
            Source::Expr(_) => Ok(Form::Expr),
        },
        Err(Faulted::At { kind, at }) => Err(Some((kind, at))),
        Err(Faulted::NoMemory) => Err(None),
    }
}

fn are_read_as(alloc: Global, patterns: &[Read]) -> bool {
    for Read(text, wanted) in patterns {
        if read_as(alloc, text) != *wanted {
            return false;
        }
    }
    true
}

#[test]
fn reads_patterns(rt: HostRuntime) {
    assert!(rt; are_read_as(rt.alloc(), &PATTERNS));
}
