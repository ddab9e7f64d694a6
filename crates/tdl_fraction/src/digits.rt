// The text of a number, held without memory.
ghost use Rattle.std.specs.Prelude.{◌≡◌, ◌+◌, ◌-◌, ◌≤◌, length, drop, replicate};

// A sign, 25 digits, `/` and 14 digits.
const CAPACITY: usize = 41;

/// The text of a number, of at most 41 bytes.
#[derive(Clone, Copy, PartialEq, Eq)]
pub struct Digits {
    buffer: [u8; CAPACITY],
    len: usize,
    ghost in_range: { len ≤ 41 },
    ghost full: { length buffer ≡ 41 },
    // So equal texts are equal values.
    ghost padded: { drop len buffer ≡ replicate (41 - len) 0 },
}

impl Digits {
    ghost use Rattle.std.specs.Prelude.{[], ◌++◌};
    ghost use Rattle.tdl_fraction.specs.Digits.{digits_bytes};

    /// The bytes of the text.
    pub fn bytes(&self) -> &[u8]
        ensures value { result.now ≡ digits_bytes self.now }
        ensures short { length result.now ≤ 41 }
    {
        &self.buffer[..self.len]
    }

    // No text yet.
    pub(crate) fn new() -> Digits
        ensures { digits_bytes result ≡ [] }
    {
        Digits {
            buffer: [0; CAPACITY],
            len: 0,
        }
    }

    // The text with another behind it.
    pub(crate) fn append(self, text: &[u8]) -> Digits
        requires { length (digits_bytes self) + length text.now ≤ 41 }
        ensures { digits_bytes result ≡ digits_bytes self ++ text.now }
    {
        let mut buffer = self.buffer;
        let len = self.len + text.len();
        buffer[self.len..len].copy_from_slice(text);
        Digits { buffer, len }
    }
}
