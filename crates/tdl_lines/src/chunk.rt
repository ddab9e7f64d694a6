ghost use Rattle.std.specs.Prelude.{◌≡◌, ◌<◌, [], IfOk, OnErr};
ghost use Rattle.tdl_io.specs.Faults.{HasCause};
ghost use Rattle.tdl_io.specs.Told.{AsBeforeOrUntold};
ghost use Rattle.tdl_lines.specs.inside.Chunk.{Fills, ReadsFront};

use memchr::memchr;
use std::marker::Model;
use tdl_io::{Failed, Source};

// So many bytes are asked for at a time.
const SIZE: usize = 16_384;

// Bytes that were taken from a source, and the front of them that was read last.
#[derive(Drop)]
pub(crate) struct Chunk {
    bytes: [u8; SIZE],
    front_start: usize,
    front_end: usize,
    unread_start: usize,
    unread_end: usize,
}

impl Model for Chunk {
    ghost use Rattle.std.specs.Prelude.{◌≤◌, slice_range};
    ghost use Rattle.tdl_lines.specs.inside.ChunkState.{ChunkState};

    ghost Value = { ChunkState };

    ghost view = { λ c. record { front = slice_range c.bytes c.front_start c.front_end; unread = slice_range c.bytes c.unread_start c.unread_end } };

    ghost invariant = { λ c. (c.front_start ≤ c.front_end) × (c.front_end ≤ 16384) × (c.unread_start ≤ c.unread_end) × (c.unread_end ≤ 16384) };
}

impl Chunk {
    // A chunk of no bytes.
    pub(crate) fn new() -> Chunk
        ensures { result ≡ record { front = []; unread = [] } }
    {
        Chunk {
            bytes: [0; SIZE],
            front_start: 0,
            front_end: 0,
            unread_start: 0,
            unread_end: 0,
        }
    }

    // The bytes that were read last.
    pub(crate) fn front(&self) -> &[u8]
        ensures { result.now ≡ self.now.front }
    {
        &self.bytes[self.front_start..self.front_end]
    }

    // Reads up to the first line feed, or all where there is none, and tells whether there was one.
    pub(crate) fn read(&mut self) -> bool
        ensures { ReadsFront result self.old.unread self.new }
    {
        let found = memchr(b'\n', &self.bytes[self.unread_start..self.unread_end]);
        self.front_start = self.unread_start;
        if let Some(count) = found {
            self.front_end = self.unread_start + count;
            self.unread_start = self.front_end + 1;
            return true;
        }
        self.front_end = self.unread_end;
        self.unread_start = self.unread_end;
        false
    }

    // Takes the next bytes of the source in place of those that were read. So many may still be
    // taken, and the last of them does not count: it is never read.
    pub(crate) fn fill<S: Source>(&mut self, source: &mut S, left: usize) -> Result<usize, Failed>
        requires some { 0 < left }
        ensures ok { IfOk result (λ count. Fills (λ bytes. S.gave source.old bytes source.new) left count (S.left source.old) (S.left source.new) self.new) }
        ensures err { OnErr result (AsBeforeOrUntold (S.left source.old) (S.left source.new)) }
        ensures lost { OnErr result (S.lost source.old source.new) }
        ensures emptied { OnErr result (self.new.unread ≡ []) }
        ensures cause { HasCause (S.faults source.old) (S.faults source.new) result }
    {
        self.front_start = 0;
        self.front_end = 0;
        self.unread_start = 0;
        self.unread_end = 0;
        let room = left.min(SIZE);
        let count = source.pull(&mut self.bytes[..room])?;
        self.unread_end = count.min(left - 1);
        Ok(count)
    }
}
