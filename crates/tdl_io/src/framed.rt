ghost use Rattle.std.specs.Prelude.{◌≡◌, ◌↔◌, [], ◌∷◌, None, IsTrue, IsErr, OnOk, OnErr, MatchOption};
ghost use Rattle.tdl_io.specs.Faults.{CountsFault, HasCause};
ghost use Rattle.tdl_io.specs.Frames.{HasFrame, frame_size, frame, are_frames, packets_told, FrameLaws};
ghost use Rattle.tdl_io.specs.Told.{GainedExactly, GainedPrefix};

use crate::outside::{Failed, Sink, Wire};
use crate::plain::Plain;
use byteorder::{BigEndian, ByteOrder};
use std::snapshot::Snapshot;

/// A wire over a sink: each packet after its length, which is a number of 32 bits, highest byte first.
/// It is a wire of plain bytes that a packet goes to in two pieces, so its first failed send closes it.
/// It tells its packets as long as it is open, where its sink tells bytes that are frames and nothing
/// else.
#[derive(Drop)]
pub struct Framed<K: Sink> {
    wire: Plain<K>,
    // The sink as it was when the wire was made. It takes no bytes, and only clauses read it.
    begun: Snapshot<K>,
    ghost goes_on: { wire.faults ≡ 0 → IsTrue (are_frames (K.held begun.value)) → IsTrue (are_frames (K.held wire.sink)) },
}

// The length of a packet in four bytes, the highest first, if the packet has a frame.
fn size_of(packet: &[u8]) -> Option<[u8; 4]>
    ensures { MatchOption result (¬ (HasFrame packet.now)) (λ size. HasFrame packet.now × (size ≡ frame_size packet.now)) }
{
    let length = i32::try_from(packet.len()).ok()?;
    let mut size = [0; 4];
    BigEndian::write_i32(&mut size, length);
    Some(size)
}

impl<K: Sink> Framed<K> {
    ghost use Rattle.tdl_io.specs.Framed.{framed_fault_count, framed_sink, IsClosed, packets_sent};

    /// A wire over the sink, without a fault.
    pub fn of(sink: K) -> Framed<K>
        ensures faults { framed_fault_count result ≡ 0 }
        ensures not_closed { ¬ (IsClosed result) }
        ensures sink { framed_sink result ≡ sink }
        ensures sent { packets_sent result ≡ packets_told (K.held sink) }
    {
        let begun = Snapshot::of(&sink);
        Framed {
            wire: Plain::of(sink),
            begun,
        }
    }
}

impl<K: Sink> Wire for Framed<K> {
    ghost use Rattle.tdl_io.specs.Framed.{framed_fault_count, framed_sink, IsClosed, packets_sent, TookFrame, BrokeFrame};

    ghost sent = { packets_sent };

    ghost faults = { framed_fault_count };

    /// Fails where its sink fails, where the packet has more than 2^31 - 1 bytes, and where a send failed
    /// before. The last two leave the sink alone.
    fn send(&mut self, packet: &[u8]) -> Result<(), Failed>
        ensures cause { HasCause (framed_fault_count self.old) (framed_fault_count self.new) result }
        ensures counts { CountsFault (framed_fault_count self.old) (framed_fault_count self.new) result }
        ensures closed { IsErr result ↔ IsClosed self.new }

        // What it tells.
        ensures sent { OnOk result (GainedExactly (packets_sent self.old) (packets_sent self.new) (packet.now ∷ [])) }
        ensures untold { OnErr result (packets_sent self.new ≡ None) }

        // What the sink gained, where it tells that: the frame, a front of it, or nothing.
        ensures ok { OnOk result (GainedExactly (K.held (framed_sink self.old)) (K.held (framed_sink self.new)) (frame packet.now)) }
        ensures err { OnErr result (GainedPrefix (K.held (framed_sink self.old)) (K.held (framed_sink self.new)) (frame packet.now)) }

        // At the first failure it is the sink that failed, or the packet is too long.
        ensures sink { ¬ (IsClosed self.old) → HasFrame packet.now → HasCause (K.faults (framed_sink self.old)) (K.faults (framed_sink self.new)) result }
        ensures took { OnOk result (TookFrame K.took (framed_sink self.old) packet.now (framed_sink self.new)) }
        ensures broke { ¬ (IsClosed self.old) → HasFrame packet.now → OnErr result
            (BrokeFrame K.took K.broke (framed_sink self.old) packet.now (framed_sink self.new)) }
        ensures long { ¬ (HasFrame packet.now) → IsErr result × (framed_sink self.new ≡ framed_sink self.old) }

        // And from then on nothing is put.
        ensures later { IsClosed self.old → IsErr result × (framed_sink self.new ≡ framed_sink self.old) }
    {
        let Some(size) = size_of(packet) else {
            return Err(self.wire.fail());
        };
        self.wire.send(&size)?;
        self.wire.send(packet)
    }
}

/// What frames mean: the packets of a text are those whose frames it is, and a text is the frames of no
/// others.
pub fn frames_tell_packets()
    ensures { FrameLaws }
{}
