// Strings of OSC, as they are read: `from` is the offset of the first byte.
ghost use Rattle.std.specs.Prelude.{◌≡◌, ◌+◌, ◌^◌, ◌<◌, ◌≤◌, length, drop, IfOk};
ghost use Rattle.tdl_osc.specs.BundleFault.{is_text_byte, text_size, text_of, string_size, padding_fault, end_fault, string_fault};
ghost use Rattle.tdl_osc.specs.inside.Said.{checked};

use crate::encoding::string_size;
use crate::faults::{BundleFault, OscKind};

// The text that stands in front: ASCII bytes that are not zero.
pub(crate) fn text_of(bytes: &[u8]) -> &[u8]
    ensures { result.now ≡ text_of bytes.now }
{
    &bytes[..text_size(bytes)]
}

// What follows the string that stands in front.
pub(crate) fn after_string(bytes: &[u8]) -> &[u8]
    requires { string_size bytes.now ≤ length bytes.now }
    ensures { result.now ≡ drop (string_size bytes.now) bytes.now }
{
    &bytes[string_size(text_size(bytes))..]
}

// How many bytes the string takes that stands in front.
pub(crate) fn check_string(bytes: &[u8], from: u32) -> Result<usize, BundleFault>
    requires { from + length bytes.now + 4 < 2 ^ 32 }
    ensures value { result ≡ checked (string_fault from bytes.now) (string_size bytes.now) }
    ensures within { IfOk result (λ size. size ≤ length bytes.now) }
{
    let size = text_size(bytes);
    check_end(&bytes[size..], from, from + size as u32, 3 - size % 4)?;
    Ok(string_size(size))
}

// How many bytes the text has that stands in front.
fn text_size(bytes: &[u8]) -> usize
    ensures is { result ≡ text_size bytes.now }
    ensures within { result ≤ length bytes.now }
{
    bytes.iter().take_while(|byte| is_text_byte(**byte)).count()
}

fn is_text_byte(byte: u8) -> bool
    ensures { result ≡ is_text_byte byte }
{
    0 < byte && byte < 128
}

// A text ends at a zero, and so many more follow.
fn check_end(bytes: &[u8], from: u32, offset: u32, more: usize) -> Result<(), BundleFault>
    requires few { more ≤ 3 }
    requires fits { offset + 4 < 2 ^ 32 }
    ensures { result ≡ checked (end_fault from offset more bytes.now) tt }
{
    match bytes.split_first() {
        None => Err(OscKind::Short.at(from)),
        Some((byte, others)) => {
            if *byte == 0 {
                check_padding(others, from, offset + 1, more)
            } else {
                Err(OscKind::NotAscii.at(offset))
            }
        }
    }
}

// So many zeros stand in front.
fn check_padding(bytes: &[u8], from: u32, offset: u32, more: usize) -> Result<(), BundleFault>
    requires few { more ≤ 3 }
    requires fits { offset + 3 < 2 ^ 32 }
    ensures { result ≡ checked (padding_fault from offset more bytes.now) tt }
{
    for i in 0..more {
        if bytes.len() <= i {
            return Err(OscKind::Short.at(from));
        }
        if bytes[i] != 0 {
            return Err(OscKind::BadPad.at(offset + i as u32));
        }
    }
    Ok(())
}
