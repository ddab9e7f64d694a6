// What lines and patterns are prepared to. Loads and sizes are those of another program.
use crate::patterns::{Size, have_sizes};
use std::alloc::Global;
use tdl_desk::Change;
use tdl_prepare::{PrepareFault, Prepared, prepare, prepare_pattern};
use tdl_script::{read_line, read_pattern};

static SIZES: [Size; 1] = [Size(
    b"every 4 (fast 2) $ jux rev $ s \"bd*2 [~ sn] hh*4 <cp arpy>\" # n \"<0 2 5>\"",
    24,
    25,
)];

// A pattern, and its load or why it is no program.
#[derive(Clone, Copy)]
struct Load(&'static [u8], Result<u64, PrepareFault>);

static LOADS: [Load; 3] = [
    Load(
        b"every 4 (fast 2) $ jux rev $ s \"bd*2 [~ sn] hh*4 <cp arpy>\" # n \"<0 2 5>\"",
        Ok(350),
    ),
    Load(b"bd sn", Ok(3)),
    Load(
        b"ply 512 $ ply 512 $ s \"bd\"",
        Err(PrepareFault::TooDense { load: 262_659 }),
    ),
];

fn load_of(alloc: Global, text: &[u8]) -> Option<Result<u64, PrepareFault>> {
    let Ok(pattern) = read_pattern(alloc, text) else {
        return None;
    };
    match &prepare_pattern(alloc, &pattern) {
        Ok(program) => Some(Ok(program.load())),
        Err(fault) => Some(Err(*fault)),
    }
}

fn have_loads(alloc: Global, loads: &[Load]) -> bool {
    for Load(text, load) in loads {
        if load_of(alloc, text) != Some(*load) {
            return false;
        }
    }
    true
}

#[test]
fn patterns_have_the_rows_and_the_load_of_their_trees(rt: HostRuntime) {
    assert!(rt; have_sizes(rt.alloc(), &SIZES));
    assert!(rt; have_loads(rt.alloc(), &LOADS));
}

// What a line asks for.
#[derive(Clone, Copy, PartialEq, Eq)]
enum Asked {
    Nothing,
    Look,
    Hush,
    Set { orbit: u8, every: u32, load: u64 },
}

#[derive(Clone, Copy)]
struct Row(&'static [u8], Asked);

static LINES: [Row; 4] = [
    Row(b"", Asked::Nothing),
    Row(b"look", Asked::Look),
    Row(b"hush", Asked::Hush),
    Row(
        b"jumpMod 2 8 $ s \"bd\"",
        Asked::Set {
            orbit: 2,
            every: 8,
            load: 1,
        },
    ),
];

fn asked_by(alloc: Global, text: &[u8]) -> Option<Asked> {
    let Ok(line) = read_line(alloc, text) else {
        return None;
    };
    match &prepare(alloc, &line) {
        Ok(Prepared::Nothing) => Some(Asked::Nothing),
        Ok(Prepared::Look) => Some(Asked::Look),
        Ok(
            Prepared::Swap {
                text: copy,
                every,
                change,
            },
        ) if copy.bytes() == text => match change {
            Change::Hush if *every == 1 => Some(Asked::Hush),
            Change::Set { orbit, pattern } => Some(Asked::Set {
                orbit: *orbit,
                every: *every,
                load: pattern.load(),
            }),
            _ => None,
        },
        _ => None,
    }
}

fn are_asked(alloc: Global, lines: &[Row]) -> bool {
    for Row(text, wanted) in lines {
        if asked_by(alloc, text) != Some(*wanted) {
            return false;
        }
    }
    true
}

#[test]
fn lines_ask_for_what_they_say(rt: HostRuntime) {
    assert!(rt; are_asked(rt.alloc(), &LINES));
}
