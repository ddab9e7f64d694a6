// Lines of sources.
ghost use Rattle.std.specs.Prelude.{None};

use std::alloc::Global;
use std::io::Read;
use std::test::Fail;
use tdl_control::NoMemory;
use tdl_io::{Failed, Source};
use tdl_lines::{LineReader, Next, ReadFault};

// A reader may go to another thread.
fn sent<T: Send>(reader: T) -> T {
    reader
}

// Gives few bytes at a time, and fails at one call, counted from 1.
#[derive(Drop)]
struct Slow {
    bytes: &'static [u8],
    most: usize,
    fails: u32,
    calls: u32,
    faults: u64,
}

impl Slow {
    fn of(bytes: &'static [u8], most: usize, fails: u32) -> Slow {
        Slow {
            bytes,
            most,
            fails,
            calls: 0,
            faults: 0,
        }
    }
}

impl Source for Slow {
    ghost left = { λ _. None };

    ghost faults = { λ s. s.faults };

    fn pull(&mut self, into: &mut [u8]) -> Result<usize, Failed> {
        self.calls = self.calls.saturating_add(1);
        if self.calls == self.fails {
            self.faults = self.faults.saturating_add(1);
            return Err(Failed);
        }
        let room = into.len().min(self.most);
        Ok(self.bytes.read(&mut into[..room]).unwrap())
    }
}

// Gives so many letters.
#[derive(Drop)]
struct Letters {
    left: usize,
}

impl Source for Letters {
    ghost left = { λ _. None };

    ghost faults = { λ _. 0 };

    fn pull(&mut self, into: &mut [u8]) -> Result<usize, Failed> {
        let count = into.len().min(self.left);
        into[..count].fill(b'x');
        self.left -= count;
        Ok(count)
    }
}

// Bytes, and their lines.
static CASES: [(&[u8], &[&[u8]]); 8] = [
    (b"", &[]),
    (b"\n", &[b""]),
    (b"a\nbc\n", &[b"a", b"bc"]),
    (b"a\r\n\r\nbc", &[b"a", b"", b"bc"]),
    (b"bc\r", &[b"bc"]),
    (b"\r", &[b""]),
    (b"a\r\r\n", &[b"a\r"]),
    (b"a\rb\n\n", &[b"a\rb", b""]),
];

static SIZES: [usize; 3] = [1, 2, 4096];

// Whether the reader gives these lines, and then the end.
fn gives(reader: &mut LineReader, source: &mut Slow, lines: &[&[u8]]) -> bool {
    for line in lines {
        if reader.next(source) != Ok(Next::Line) || reader.line() != *line {
            return false;
        }
    }
    reader.next(source) == Ok(Next::Ended)
}

// The same of a new reader of these bytes, which asks no more then.
fn reads(
    alloc: Global,
    bytes: &'static [u8],
    most: usize,
    lines: &[&[u8]],
) -> Result<bool, NoMemory> {
    let mut source = Slow::of(bytes, most, 0);
    let mut reader = sent(LineReader::new(alloc)?);
    let given = gives(&mut reader, &mut source, lines);
    let calls = source.calls;
    Ok(given && reader.next(&mut source) == Ok(Next::Ended) && source.calls == calls)
}

#[test]
fn gives_the_lines_and_asks_no_more(rt: HostRuntime) -> Result<(), Fail> {
    for (bytes, lines) in &CASES {
        for most in &SIZES {
            assert!(rt; reads(rt.alloc(), bytes, *most, lines)?);
        }
    }
    Ok(())
}

static AFTER_A_FAULT: [&[u8]; 2] = [b"ab", b"cd"];

#[test]
fn goes_on_after_a_fault(rt: HostRuntime) -> Result<(), Fail> {
    let mut source = Slow::of(b"ab\ncd", 2, 2);
    let mut reader = LineReader::new(rt.alloc())?;
    assert!(rt; reader.next(&mut source) == Err(ReadFault::Failed));
    assert!(rt; gives(&mut reader, &mut source, &AFTER_A_FAULT));
    Ok(())
}

#[test]
fn counts_16_mebibytes(rt: HostRuntime) -> Result<(), Fail> {
    let most = 1 << 24;
    let mut source = Letters { left: most };
    let mut reader = LineReader::new(rt.alloc())?;
    assert!(rt; reader.next(&mut source) == Ok(Next::Line));
    assert!(rt; reader.line().len() == most);
    assert!(rt; reader.next(&mut source) == Ok(Next::Ended));
    let mut source = Letters { left: most + 9 };
    let mut reader = LineReader::new(rt.alloc())?;
    for _ in 0..2 {
        assert!(rt; reader.next(&mut source) == Ok(Next::Spent));
        assert!(rt; source.left == 8);
    }
    Ok(())
}
