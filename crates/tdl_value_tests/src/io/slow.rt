// A reader and a writer in memory that give and take few bytes at a time, and fail at some calls, counted from 1.
use std::alloc::Global;
use std::io;
use std::io::{ErrorKind, Read, Write};

// The calls from the first up to the last fail, in this way.
#[derive(Clone, Copy, Drop)]
pub struct Failing {
    pub first: u32,
    pub last: u32,
    pub kind: ErrorKind,
}

impl Failing {
    // One call fails, and is not to be made again.
    pub fn at(call: u32) -> Failing {
        Failing {
            first: call,
            last: call,
            kind: ErrorKind::Other,
        }
    }

    fn result(self, call: u32) -> io::Result<()> {
        if self.first <= call && call <= self.last {
            Err(io::Error::from(self.kind))
        } else {
            Ok(())
        }
    }
}

#[derive(Drop)]
pub struct SlowReader {
    bytes: &'static [u8],
    most: usize,
    calls: u32,
    fails: Failing,
}

impl SlowReader {
    pub fn of(bytes: &'static [u8], most: usize, fails: Failing) -> SlowReader {
        SlowReader {
            bytes,
            most,
            calls: 0,
            fails,
        }
    }
}

impl Read for SlowReader {
    fn read(&mut self, into: &mut [u8]) -> io::Result<usize> {
        self.calls = self.calls.saturating_add(1);
        self.fails.result(self.calls)?;
        let count = into.len().min(self.most);
        self.bytes.read(&mut into[..count])
    }
}

#[derive(Drop)]
pub struct SlowWriter {
    bytes: Vec<u8>,
    most: usize,
    calls: u32,
    fails: Failing,
}

impl SlowWriter {
    pub fn of(alloc: Global, most: usize, fails: Failing) -> SlowWriter {
        SlowWriter {
            bytes: Vec::new(alloc),
            most,
            calls: 0,
            fails,
        }
    }

    pub fn bytes(&self) -> &[u8] {
        &self.bytes
    }
}

impl Write for SlowWriter {
    fn write(&mut self, piece: &[u8]) -> io::Result<usize> {
        self.calls = self.calls.saturating_add(1);
        self.fails.result(self.calls)?;
        let count = piece.len().min(self.most);
        self.bytes.extend_from_slice(&piece[..count])?;
        Ok(count)
    }

    fn flush(&mut self) -> io::Result<()> {
        Ok(())
    }
}
