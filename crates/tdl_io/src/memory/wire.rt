ghost use Rattle.std.specs.Prelude.{◌≡◌, ◌↔◌, ◌<◌, [], length, IfOk, OnOk, OnErr, IsErr, IsTrue};
ghost use Rattle.std.specs.List.{HoldsAt};
ghost use Rattle.tdl_io.specs.Faults.{HasCause};
ghost use Rattle.tdl_io.specs.Memory.{empty_wire, RefusesPacket, wire_with, wire_without};

use super::calls::Calls;
use crate::outside::{Failed, Wire};
use std::alloc::Global;
use std::marker::Model;
use tdl_control::NoMemory;

// Where a packet stands among the bytes of all.
#[derive(Clone, Copy)]
struct PacketRange {
    start: usize,
    end: usize,
}

/// A wire in memory, with room for so many packets and bytes, whose listed calls fail. Both its
/// counts, of calls and of faults, stay at the last value of a `u64`.
#[derive(Drop)]
pub struct MemWire {
    bytes: Vec<u8>,
    spans: Vec<PacketRange>,
    packet_room: usize,
    byte_room: usize,
    calls: Calls,
}

impl Model for MemWire {
    ghost use Rattle.std.specs.Prelude.{◌+◌, ◌≤◌, vec_len, vec_capacity};
    ghost use Rattle.tdl_io.specs.Memory.{WireState};
    ghost use Rattle.tdl_io.specs.PacketRanges.{packets_of, AllStandIn};

    ghost Value = { WireState };

    ghost view = { λ w. record {
      sent = packets_of w.bytes.items w.spans.items;
      packet_room = w.packet_room;
      byte_room = w.byte_room;
      calls = w.calls.made;
      fails = w.calls.fails.items;
      faults = w.calls.faults;
    } };

    ghost invariant = { λ w. record {
      packets_fit : vec_len w.spans + w.packet_room ≤ vec_capacity w.spans;
      bytes_fit : vec_len w.bytes + w.byte_room ≤ vec_capacity w.bytes;
      packets_stand : AllStandIn w.bytes.items w.spans.items;
    } };
}

impl MemWire {
    /// A wire that sent nothing, with room for so many packets and for so many bytes in all of them.
    /// Its calls are counted from 1, and those in `fails` fail. It takes its memory here, and none
    /// later.
    pub fn of(alloc: Global, packets: u32, bytes: u32, fails: &[u32]) -> Result<MemWire, NoMemory>
        ensures { IfOk result (λ wire. wire ≡ empty_wire packets bytes fails.now) }
    {
        let packet_room = packets as usize;
        let byte_room = bytes as usize;
        Ok(MemWire {
            bytes: Vec::with_capacity(alloc, byte_room)?,
            spans: Vec::with_capacity(alloc, packet_room)?,
            packet_room,
            byte_room,
            calls: Calls::of(alloc, fails)?,
        })
    }

    /// How many packets it sent.
    pub fn len(&self) -> usize
        ensures { result ≡ length self.now.sent }
    {
        self.spans.len()
    }

    /// Whether it sent none.
    pub fn is_empty(&self) -> bool
        ensures { IsTrue result ↔ (self.now.sent ≡ []) }
    {
        self.spans.is_empty()
    }

    /// The packet at index `i`, counted from 0.
    pub fn packet(&self, i: usize) -> &[u8]
        requires { i < length self.now.sent }
        ensures { HoldsAt (λ packet. result.now ≡ packet) self.now.sent i }
    {
        let span = self.spans[i];
        &self.bytes[span.start..span.end]
    }
}

impl Wire for MemWire {
    ghost use Rattle.std.specs.Prelude.{Some};

    ghost sent = { λ w. Some w.sent };

    ghost faults = { λ w. w.faults };

    /// Fails exactly where the call is listed or the packet does not fit into the room that is left.
    /// That packet is not kept.
    #[tactic(auto, using(crate::proofs::Packets::packets_with_one_more))]
    fn send(&mut self, packet: &[u8]) -> Result<(), Failed>
        ensures refuses { IsErr result ↔ RefusesPacket self.old packet.now }
        ensures ok { OnOk result (self.new ≡ wire_with self.old packet.now) }
        ensures err { OnErr result (self.new ≡ wire_without self.old) }
        ensures cause { HasCause self.old.faults self.new.faults result }
    {
        if self.calls.count() || self.packet_room == 0 || self.byte_room < packet.len() {
            return Err(self.calls.fail());
        }
        let start = self.bytes.len();
        self.byte_room -= packet.len();
        self.bytes.extend_from_slice(packet).unwrap();
        let end = self.bytes.len();
        self.packet_room -= 1;
        self.spans.push(PacketRange { start, end }).unwrap();
        Ok(())
    }
}
