// The ends of ports by their numbers.
ghost use Rattle.std.specs.Prelude.{◌≡◌, ◌≤◌, length};
ghost use Rattle.tdl_serve.specs.inside.Numbered.{numbered};

use tdl_log::{Ends, PortEnd};

// Numbers the ports from 1 on, in the order of their ends.
pub(crate) fn endings_of(ends: &[PortEnd]) -> Ends
    requires { length ends.now ≤ 8 }
    ensures { result ≡ numbered 1 ends.now }
{
    let mut endings = Ends::new();
    for i in 0..ends.len() {
        endings.add(i as u8 + 1, ends[i]);
    }
    endings
}
