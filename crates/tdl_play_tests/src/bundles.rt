// Bundles of OSC 1.0 that are read, and bytes that are none.
use std::alloc::Global;
use tdl_control::Faulted;
use tdl_osc::{Arg, Args, BundleFault, Message, OscBundle, OscKind, check_bundle, read};

// An argument that a message has.
enum Told {
    Number(i32),
    Word(&'static [u8]),
}

// The address of a message, and its arguments.
type Content = (&'static [u8], &'static [Told]);

// Bytes, and the bundle that they are.
struct Case {
    bytes: &'static [u8],
    timetag: u64,
    messages: &'static [Content],
}

// Checked against a reader of OSC 1.0 in another language.
static CASES: [Case; 3] = [
    Case {
        bytes: b"#bundle\0\x83\xaa\x7e\x80\0\0\0\0\0\0\0\x44\
            /dirt/play\0\0,sisisiss\0\0\0\
            cycle\0\0\0\0\0\0\0delta\0\0\0\0\x0f\x42\x40orbit\0\0\0\0\0\0\0\
            s\0\0\0bd\0\0",
        timetag: 0x83aa_7e80_0000_0000,
        messages: &[(
            b"/dirt/play",
            &[
                Told::Word(b"cycle"),
                Told::Number(0),
                Told::Word(b"delta"),
                Told::Number(1_000_000),
                Told::Word(b"orbit"),
                Told::Number(0),
                Told::Word(b"s"),
                Told::Word(b"bd"),
            ],
        )],
    },
    Case {
        bytes: b"#bundle\0\0\0\0\0\0\0\0\x01",
        timetag: 1,
        messages: &[],
    },
    Case {
        bytes: b"#bundle\0\xff\xff\xff\xff\xff\xff\xff\xff\
            \0\0\0\x08/a\0\0,\0\0\0\
            \0\0\0\x1c/ctrl\0\0\0,isi\0\0\0\0\x80\0\0\0\0\0\0\0\xff\xff\xff\xfe",
        timetag: u64::MAX,
        messages: &[
            (b"/a", &[]),
            (
                b"/ctrl",
                &[Told::Number(i32::MIN), Told::Word(b""), Told::Number(-2)],
            ),
        ],
    },
];

// Bytes, and their first fault.
static FAULTS: [(&[u8], OscKind, u32); 24] = [
    (b"", OscKind::BadHead, 0),
    (b"#bundlf\0\0\0\0\0\0\0\0\x01", OscKind::BadHead, 0),
    (b"#bundle\0\0\0\0\0\0\0\0", OscKind::Short, 8),
    (b"#bundle\0\0\0\0\0\0\0\0\x01\0\0\0", OscKind::Short, 16),
    (b"#bundle\0\0\0\0\0\0\0\0\x01\0\0\0\0", OscKind::BadSize, 16),
    (
        b"#bundle\0\0\0\0\0\0\0\0\x01\xff\xff\xff\xfc",
        OscKind::BadSize,
        16,
    ),
    (
        b"#bundle\0\0\0\0\0\0\0\0\x01\0\0\0\x06",
        OscKind::BadSize,
        16,
    ),
    (
        b"#bundle\0\0\0\0\0\0\0\0\x01\0\0\0\x06/a\0\0,\0",
        OscKind::BadSize,
        16,
    ),
    (
        b"#bundle\0\0\0\0\0\0\0\0\x01\0\0\0\x08/a\0\0,\0\0",
        OscKind::Short,
        20,
    ),
    (
        b"#bundle\0\x83\xaa\x7e\x80\0\0\0\0\0\0\0\x44\
            /dirt/play\0\0,sisisiss\0\0\0\
            cycle\0\0\0\0\0\0\0delta\0\0\0\0\x0f\x42\x40orbit\0\0\0\0\0\0\0\
            s\0\0\0bd\0",
        OscKind::Short,
        20,
    ),
    (
        b"#bundle\0\0\0\0\0\0\0\0\x01\0\0\0\x08a\0\0\0,\0\0\0",
        OscKind::BadAddress,
        20,
    ),
    (
        b"#bundle\0\0\0\0\0\0\0\0\x01\0\0\0\x08\x80\0\0\0,\0\0\0",
        OscKind::BadAddress,
        20,
    ),
    (
        b"#bundle\0\0\0\0\0\0\0\0\x01\0\0\0\x08/\x80a\0,\0\0\0",
        OscKind::NotAscii,
        21,
    ),
    (
        b"#bundle\0\0\0\0\0\0\0\0\x01\0\0\0\x08/a\0\x01,\0\0\0",
        OscKind::BadPad,
        23,
    ),
    (
        b"#bundle\0\0\0\0\0\0\0\0\x01\0\0\0\x04/abc",
        OscKind::Short,
        20,
    ),
    (
        b"#bundle\0\0\0\0\0\0\0\0\x01\0\0\0\x04/a\0\0",
        OscKind::Short,
        24,
    ),
    (
        b"#bundle\0\0\0\0\0\0\0\0\x01\0\0\0\x08/a\0\0i\0\0\0",
        OscKind::BadTag,
        24,
    ),
    (
        b"#bundle\0\0\0\0\0\0\0\0\x01\0\0\0\x10/a\0\0,if\0\0\0\0\x01\0\0\0\0",
        OscKind::BadTag,
        26,
    ),
    (
        b"#bundle\0\0\0\0\0\0\0\0\x01\0\0\0\x0c/a\0\0,i\xf0\0\0\0\0\x01",
        OscKind::BadTag,
        26,
    ),
    (
        b"#bundle\0\0\0\0\0\0\0\0\x01\0\0\0\x0c/a\0\0,ii\0\0\0\0\x01",
        OscKind::Short,
        32,
    ),
    (
        b"#bundle\0\0\0\0\0\0\0\0\x01\0\0\0\x0c/a\0\0,s\0\0bcde",
        OscKind::Short,
        28,
    ),
    (
        b"#bundle\0\0\0\0\0\0\0\0\x01\0\0\0\x0c/a\0\0,s\0\0b\0\x01\0",
        OscKind::BadPad,
        30,
    ),
    (
        b"#bundle\0\0\0\0\0\0\0\0\x01\0\0\0\x10/a\0\0,i\0\0\0\0\0\x01\0\0\0\x02",
        OscKind::BadSize,
        20,
    ),
    (
        b"#bundle\0\0\0\0\0\0\0\0\x01\0\0\0\x08/a\0\0,\0\0\0\0\0\0\x08/b\0\0,x\0\0",
        OscKind::BadTag,
        37,
    ),
];

// More than any of the bytes here.
const MOST: usize = 1_000;

fn is_arg(arg: &Arg, told: &Told) -> bool {
    match arg {
        Arg::Int(number) => matches!(told, Told::Number(other) if number == other),
        Arg::Word(text) => matches!(told, Told::Word(other) if text.bytes() == *other),
    }
}

fn are_args(args: &Args, told: &[Told]) -> bool {
    if args.len() != told.len() {
        return false;
    }
    for i in 0..told.len() {
        if !is_arg(args.get(i), &told[i]) {
            return false;
        }
    }
    true
}

fn is_message(message: &Message, content: &Content) -> bool {
    message.address.bytes() == content.0 && are_args(&message.args, content.1)
}

fn is_bundle(bundle: &OscBundle, case: &Case) -> bool {
    if bundle.timetag != case.timetag || bundle.messages.len() != case.messages.len() {
        return false;
    }
    for i in 0..case.messages.len() {
        if !is_message(bundle.messages.get(i), &case.messages[i]) {
            return false;
        }
    }
    true
}

fn is_read(alloc: Global, case: &Case) -> bool {
    if case.bytes.len() > MOST || check_bundle(case.bytes).is_some() {
        return false;
    }
    match read(alloc, case.bytes) {
        Ok(bundle) => is_bundle(&bundle, case),
        Err(_) => false,
    }
}

fn are_read(alloc: Global) -> bool {
    for case in &CASES {
        if !is_read(alloc, case) {
            return false;
        }
    }
    true
}

fn is_refused(alloc: Global, bytes: &[u8], kind: OscKind, at: u32) -> bool {
    if bytes.len() > MOST || check_bundle(bytes) != Some(BundleFault { kind, at }) {
        return false;
    }
    match read(alloc, bytes) {
        Ok(_) => false,
        Err(fault) => fault == Faulted::At { kind, at },
    }
}

fn are_refused(alloc: Global) -> bool {
    for (bytes, kind, at) in &FAULTS {
        if !is_refused(alloc, bytes, *kind, *at) {
            return false;
        }
    }
    true
}

#[test]
fn reads_bundles(rt: HostRuntime) {
    assert!(rt; are_read(rt.alloc()));
}

#[test]
fn finds_the_first_fault(rt: HostRuntime) {
    assert!(rt; are_refused(rt.alloc()));
}
