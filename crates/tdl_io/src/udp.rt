ghost use Rattle.std.specs.Prelude.{◌≡◌, None, IfOk};
ghost use Rattle.tdl_io.specs.Faults.{CountsFault, HasCause};
ghost use Rattle.tdl_io.specs.Udp.{wire_fault_count};

use crate::outside::{Failed, Wire};
use crate::patient::{Patient, UdpSender};
use std::io;
use std::net::{Ipv4Addr, Net, UdpSocket};

// Where SuperDirt listens: `127.0.0.1:57120`.
const LISTENER: (Ipv4Addr, u16) = (Ipv4Addr::LOCALHOST, 57120);

/// A wire over UDP. Each packet is one datagram to `127.0.0.1:57120`, where SuperDirt listens. The
/// socket is never connected, so that a missing listener is no fault. A send that a signal
/// interrupts is made again, up to sixteen times. It tells nothing, since no one knows what arrives.
#[derive(Drop)]
pub struct UdpWire {
    socket: Patient<UdpSender>,
    faults: u64,
}

impl UdpWire {
    /// A wire without a fault, from a port of this host that the system picks.
    pub fn bind<R: Net>(net: &R) -> io::Result<UdpWire>
        ensures { IfOk result (λ wire. wire_fault_count wire ≡ 0) }
    {
        Ok(UdpWire {
            socket: Patient::of(UdpSender {
                socket: UdpSocket::bind(net, (Ipv4Addr::LOCALHOST, 0))?,
                listener: LISTENER,
            }),
            faults: 0,
        })
    }
}

impl Wire for UdpWire {
    ghost sent = { λ _. None };

    ghost faults = { wire_fault_count };

    /// Fails where the system does not take the packet, or not all of it. Seventeen sends that are
    /// interrupted one after another are a failure.
    fn send(&mut self, packet: &[u8]) -> Result<(), Failed>
        ensures cause { HasCause (wire_fault_count self.old) (wire_fault_count self.new) result }
        ensures counts { CountsFault (wire_fault_count self.old) (wire_fault_count self.new) result }
    {
        match self.socket.send(packet) {
            Ok(count) if count == packet.len() => Ok(()),
            _ => {
                self.faults = self.faults.saturating_add(1);
                Err(Failed)
            }
        }
    }
}
