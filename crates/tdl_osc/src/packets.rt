ghost use Rattle.std.specs.Prelude.{◌≡◌};

use std::marker::Model;
use tdl_control::List;

/// The bytes of one packet of a wire.
#[derive(Drop)]
pub struct Packet {
    pub(crate) bytes: Vec<u8>,
}

impl Model for Packet {
    ghost use Rattle.std.specs.Prelude.{List, ℕ};

    ghost Value = { List ℕ };

    ghost view = { λ p. p.bytes.items };
}

impl Packet {
    /// The packet's bytes, those of one datagram.
    pub fn bytes(&self) -> &[u8]
        ensures { result.now ≡ self.now }
    {
        &self.bytes
    }
}

/// Packets, in the order in which they are sent.
pub type Packets = List<Packet>;
