ghost use Rattle.std.specs.Prelude.{◌≤◌, ◌⊎◌, OnOk, OnErr};
ghost use Rattle.tdl_io.specs.Faults.{CountRose, HasCause};
ghost use Rattle.tdl_io.specs.Told.{GainedExactly};
ghost use Rattle.tdl_answer.specs.Account.{account, wires as both};
ghost use Rattle.tdl_answer.specs.Sent.{SentUpTo, SentWith, SentWithUpTo};

use tdl_core::{Notes, Reply};
use tdl_io::{Failed, Wire};
use tdl_osc::Packets;

/// Sends the packets in their order, up to the first that fails.
pub fn send_all<W: Wire>(wire: &mut W, packets: &Packets) -> Result<(), Failed>
    ensures ok { OnOk result (GainedExactly (W.sent wire.old) (W.sent wire.new) packets.now) }
    ensures err { OnErr result (SentUpTo packets.now (account W.sent W.faults wire.old wire.new)) }
    ensures cause { HasCause (W.faults wire.old) (W.faults wire.new) result }
{
    for i in 0..packets.len() {
        wire.send(packets.get(i).bytes())?;
    }
    Ok(())
}

/// Sends the messages in their order, up to the first that fails.
pub fn send_notes<W: Wire>(wire: &mut W, notes: &Notes) -> Result<(), Failed>
    ensures ok { OnOk result (GainedExactly (W.sent wire.old) (W.sent wire.new) notes.now) }
    ensures err { OnErr result (SentUpTo notes.now (account W.sent W.faults wire.old wire.new)) }
    ensures cause { HasCause (W.faults wire.old) (W.faults wire.new) result }
{
    for i in 0..notes.len() {
        wire.send(notes.get(i))?;
    }
    Ok(())
}

/// Sends what goes with a reply: its packets, and then its messages, up to the first that fails.
pub fn send_with<W: Wire>(reply: &Reply, osc: &mut W, midi: &mut W) -> Result<(), Failed>
    ensures ok { OnOk result (SentWith reply.now (both W.sent W.faults osc.old osc.new midi.old midi.new)) }
    ensures err { OnErr result (SentWithUpTo reply.now (both W.sent W.faults osc.old osc.new midi.old midi.new)) }
    ensures cause { OnErr result (CountRose (W.faults osc.old) (W.faults osc.new) ⊎ CountRose (W.faults midi.old) (W.faults midi.new)) }
    ensures osc_count { W.faults osc.old ≤ W.faults osc.new }
    ensures midi_count { W.faults midi.old ≤ W.faults midi.new }
{
    match reply {
        Reply::Swapped { .. } | Reply::Looked { .. } => Ok(()),
        Reply::Ticked {
            osc: packets,
            midi: notes,
            ..
        } => {
            send_all(osc, packets)?;
            send_notes(midi, notes)
        }
        Reply::Finished { midi: notes, .. } => send_notes(midi, notes),
    }
}
