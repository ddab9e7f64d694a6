ghost use Rattle.std.specs.Prelude.{◌≡◌, suc, ◌+◌, ◌^◌, ◌<◌, ◌≤◌, pos, ◌++◌, length, OnOk};
ghost use Rattle.tdl_osc.specs.Encoding.{int32_bytes, time_bytes, osc_string, string_end};
ghost use Rattle.tdl_osc.specs.BundleFault.{more_zeros};

use byteorder::{BigEndian, ByteOrder};
use tdl_control::NoMemory;

const ZEROS: [u8; 4] = [0; 4];

// Adds a number.
pub(crate) fn put_int(out: &mut Vec<u8>, number: i32) -> Result<(), NoMemory>
    ensures { OnOk result (out.new.items ≡ out.old.items ++ int32_bytes number) }
{
    let mut bytes = [0; 4];
    BigEndian::write_i32(&mut bytes, number);
    out.extend_from_slice(&bytes)?;
    Ok(())
}

// Adds a time tag.
pub(crate) fn put_time(out: &mut Vec<u8>, tag: u64) -> Result<(), NoMemory>
    ensures { OnOk result (out.new.items ≡ out.old.items ++ time_bytes (pos tag)) }
{
    let mut bytes = [0; 8];
    BigEndian::write_u64(&mut bytes, tag);
    out.extend_from_slice(&bytes)?;
    Ok(())
}

// Adds a text as a string of OSC.
pub(crate) fn put_string(out: &mut Vec<u8>, text: &[u8]) -> Result<(), NoMemory>
    ensures { OnOk result (out.new.items ≡ out.old.items ++ osc_string text.now) }
{
    out.extend_from_slice(text)?;
    put_string_end(out, text.len())
}

// Adds the zeros that end a text of so many bytes.
pub(crate) fn put_string_end(out: &mut Vec<u8>, len: usize) -> Result<(), NoMemory>
    ensures { OnOk result (out.new.items ≡ out.old.items ++ string_end len) }
{
    out.extend_from_slice(&ZEROS[len % 4..])?;
    Ok(())
}

// How many bytes a text of so many bytes takes as a string of OSC.
pub(crate) fn string_size(len: usize) -> usize
    requires { len < 2 ^ 63 }
    ensures value { result ≡ len + length (string_end len) }
    ensures zeros { result ≡ len + suc (more_zeros len) }
    ensures bound { result ≤ len + 4 }
{
    len + (4 - len % 4)
}
