ghost use Rattle.std.specs.Prelude.{◌≡◌, ◌↔◌, IfOk, OnOk, OnErr, IsErr};
ghost use Rattle.tdl_io.specs.Faults.{HasCause};
ghost use Rattle.tdl_io.specs.Memory.{empty_sink, Refuses, sink_with, sink_without};

use super::calls::Calls;
use crate::outside::{Failed, Sink};
use std::alloc::Global;
use std::marker::Model;
use tdl_control::NoMemory;

/// A sink in memory, with room for so many bytes, whose listed calls fail. Both its counts, of calls
/// and of faults, stay at the last value of a `u64`.
#[derive(Drop)]
pub struct MemSink {
    bytes: Vec<u8>,
    room: usize,
    calls: Calls,
}

impl Model for MemSink {
    ghost use Rattle.std.specs.Prelude.{◌+◌, ◌≤◌, vec_len, vec_capacity};
    ghost use Rattle.tdl_io.specs.Memory.{SinkState};

    ghost Value = { SinkState };

    ghost view = { λ s. record { held = s.bytes.items; room = s.room; calls = s.calls.made; fails = s.calls.fails.items; faults = s.calls.faults } };

    ghost invariant = { λ s. vec_len s.bytes + s.room ≤ vec_capacity s.bytes };
}

impl MemSink {
    /// An empty sink with room for so many bytes. Its calls are counted from 1, and those in `fails`
    /// fail. It takes its memory here, and none later.
    pub fn of(alloc: Global, room: u32, fails: &[u32]) -> Result<MemSink, NoMemory>
        ensures { IfOk result (λ sink. sink ≡ empty_sink room fails.now) }
    {
        let room = room as usize;
        Ok(MemSink {
            bytes: Vec::with_capacity(alloc, room)?,
            room,
            calls: Calls::of(alloc, fails)?,
        })
    }

    /// The bytes that it took.
    pub fn bytes(&self) -> &[u8]
        ensures { result.now ≡ self.now.held }
    {
        &self.bytes
    }
}

impl Sink for MemSink {
    ghost use Rattle.std.specs.Prelude.{Some};

    ghost held = { λ s. Some s.held };

    ghost faults = { λ s. s.faults };

    ghost took = { λ s piece t. ¬ (Refuses s piece) × (t ≡ sink_with s piece) };

    ghost broke = { λ s piece t. Refuses s piece × (t ≡ sink_without s) };

    /// Fails exactly where the call is listed or the piece does not fit into the room that is left.
    /// Nothing of the piece is held then.
    fn put(&mut self, piece: &[u8]) -> Result<(), Failed>
        ensures refuses { IsErr result ↔ Refuses self.old piece.now }
        ensures ok { OnOk result (self.new ≡ sink_with self.old piece.now) }
        ensures err { OnErr result (self.new ≡ sink_without self.old) }
        ensures cause { HasCause self.old.faults self.new.faults result }
    {
        if self.calls.count() || self.room < piece.len() {
            return Err(self.calls.fail());
        }
        self.room -= piece.len();
        self.bytes.extend_from_slice(piece).unwrap();
        Ok(())
    }
}
