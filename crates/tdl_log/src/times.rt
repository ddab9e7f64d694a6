// The texts of times.
ghost use Rattle.std.specs.Prelude.{◌≡◌, ◌≤◌};
ghost use Rattle.tdl_fraction.specs.Digits.{digits_bytes};
ghost use Rattle.tdl_fraction.specs.Units.{last_units};
ghost use Rattle.tdl_log.specs.LogText.{place_text};

use tdl_fraction::{Digits, print_units};

// A time in tick units and its text, which is kept for entries at the same time.
#[derive(Clone, Copy)]
pub(crate) struct TimeText {
    units: u64,
    digits: Digits,
    ghost shows: { digits_bytes digits ≡ place_text units },
}

impl TimeText {
    // The text of the time 0.
    pub(crate) fn new() -> TimeText {
        TimeText {
            units: 0,
            digits: print_units(0),
        }
    }

    // Makes the text of a time, where it is not there.
    pub(crate) fn show(&mut self, units: u64)
        requires { units ≤ last_units }
        ensures { self.new.units ≡ units }
    {
        if self.units != units {
            *self = TimeText {
                units,
                digits: print_units(units),
            };
        }
    }

    // The text that was made last.
    pub(crate) fn bytes(&self) -> &[u8]
        ensures { result.now ≡ place_text self.now.units }
    {
        self.digits.bytes()
    }
}
