ghost use Rattle.std.specs.Prelude.{◌≡◌, ◌↔◌, None, IsErr, OnOk, OnErr};
ghost use Rattle.tdl_io.specs.Faults.{one_more, CountRose, CountsFault, HasCause};
ghost use Rattle.tdl_io.specs.Plain.{HasFailed, plain_fault_count, sink_of};
ghost use Rattle.tdl_io.specs.Told.{GainedExactly, GainedPrefix};

use crate::outside::{Failed, Sink, Wire};

/// A wire over a sink: the bytes of each packet alone, one packet behind another. After a failed send
/// it is closed: it puts nothing more, and each later send fails too. It tells nothing, since joined
/// bytes do not show where a packet ends.
#[derive(Drop)]
pub struct Plain<K> {
    sink: K,
    faults: u64,
}

impl<K: Sink> Plain<K> {
    /// A wire over the sink, without a fault.
    pub fn of(sink: K) -> Plain<K>
        ensures faults { plain_fault_count result ≡ 0 }
        ensures not_failed { ¬ (HasFailed result) }
        ensures sink { sink_of result ≡ sink }
    {
        Plain { sink, faults: 0 }
    }

    // Counts one more fault, which closes it.
    pub(crate) fn fail(&mut self) -> Failed
        ensures counted { self.new ≡ record self.old { faults = one_more self.old.faults } }
        ensures rose { CountRose self.old.faults self.new.faults }
    {
        self.faults = self.faults.saturating_add(1);
        Failed
    }
}

impl<K: Sink> Wire for Plain<K> {
    ghost sent = { λ _. None };

    ghost faults = { plain_fault_count };

    /// Fails where its sink fails, and where a send failed before, which leaves the sink alone.
    fn send(&mut self, packet: &[u8]) -> Result<(), Failed>
        ensures cause { HasCause (plain_fault_count self.old) (plain_fault_count self.new) result }
        ensures counts { CountsFault (plain_fault_count self.old) (plain_fault_count self.new) result }
        ensures closed { IsErr result ↔ HasFailed self.new }

        // What the sink gained, where it tells that: the packet, a front of it, or nothing.
        ensures ok { OnOk result (GainedExactly (K.held (sink_of self.old)) (K.held (sink_of self.new)) packet.now) }
        ensures err { OnErr result (GainedPrefix (K.held (sink_of self.old)) (K.held (sink_of self.new)) packet.now) }

        // At the first failure it is the sink that failed.
        ensures sink { ¬ (HasFailed self.old) → HasCause (K.faults (sink_of self.old)) (K.faults (sink_of self.new)) result }
        ensures took { OnOk result (K.took (sink_of self.old) packet.now (sink_of self.new)) }
        ensures broke { ¬ (HasFailed self.old) → OnErr result (K.broke (sink_of self.old) packet.now (sink_of self.new)) }

        // And from then on nothing is put.
        ensures later { HasFailed self.old → IsErr result × (sink_of self.new ≡ sink_of self.old) }
    {
        if self.faults == 0 && self.sink.put(packet).is_ok() {
            return Ok(());
        }
        Err(self.fail())
    }
}
