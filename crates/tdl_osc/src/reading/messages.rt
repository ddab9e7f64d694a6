// Messages of OSC, as they are read: `from` is the offset of the first byte.
ghost use Rattle.std.specs.Prelude.{◌≡◌, ◌+◌, ◌^◌, ◌<◌, ◌≤◌, length, IfOk, OnOk};
ghost use Rattle.tdl_osc.specs.BundleFault.{short_fault, slash_fault, is_tag, tag_fault, comma_fault, tags_fault, tags_of, string_size};
ghost use Rattle.tdl_osc.specs.BundleFault.{argument_fault, argument_size, arguments_fault, contents_fault, message_fault};
ghost use Rattle.tdl_osc.specs.inside.Said.{checked};

use super::strings::{check_string, text_of};
use crate::faults::{BundleFault, OscKind};

// The bytes are a message.
pub(crate) fn check_message(bytes: &[u8], from: u32) -> Result<(), BundleFault>
    requires { from + length bytes.now + 4 < 2 ^ 32 }
    ensures { result ≡ checked (message_fault from bytes.now) tt }
{
    check_slash(bytes, from)?;
    let size = check_string(bytes, from)?;
    check_contents(&bytes[size..], from + size as u32, from)
}

// There are at least so many bytes.
pub(crate) fn check_length(bytes: &[u8], size: usize, from: u32) -> Result<(), BundleFault>
    ensures value { result ≡ checked (short_fault size from bytes.now) tt }
    ensures within { OnOk result (size ≤ length bytes.now) }
{
    if bytes.len() < size {
        Err(OscKind::Short.at(from))
    } else {
        Ok(())
    }
}

// The tags that stand in front, without the comma.
pub(crate) fn tags_of(bytes: &[u8]) -> &[u8]
    ensures { result.now ≡ tags_of bytes.now }
{
    let text = text_of(bytes);
    &text[text.len().min(1)..]
}

// An address begins with a slash.
fn check_slash(bytes: &[u8], from: u32) -> Result<(), BundleFault>
    ensures { result ≡ checked (slash_fault from bytes.now) tt }
{
    match bytes.split_first() {
        None => Ok(()),
        Some((byte, _)) => {
            if *byte == b'/' {
                Ok(())
            } else {
                Err(OscKind::BadAddress.at(from))
            }
        }
    }
}

// Tags and arguments stand there, and nothing more. The message begins at `first`.
fn check_contents(bytes: &[u8], from: u32, first: u32) -> Result<(), BundleFault>
    requires { from + length bytes.now + 4 < 2 ^ 32 }
    ensures { result ≡ checked (contents_fault first from bytes.now) tt }
{
    let size = check_tags(bytes, from)?;
    check_arguments(&bytes[size..], tags_of(bytes), from + size as u32, first)
}

// How many bytes the tags take that stand in front.
fn check_tags(bytes: &[u8], from: u32) -> Result<usize, BundleFault>
    requires { from + length bytes.now + 4 < 2 ^ 32 }
    ensures value { result ≡ checked (tags_fault from bytes.now) (string_size bytes.now) }
    ensures within { IfOk result (λ size. size ≤ length bytes.now) }
{
    check_comma(bytes, from)?;
    check_string(bytes, from)
}

// Tags stand behind a comma.
fn check_comma(bytes: &[u8], from: u32) -> Result<(), BundleFault>
    requires { from + length bytes.now + 4 < 2 ^ 32 }
    ensures { result ≡ checked (comma_fault from bytes.now) tt }
{
    match bytes.split_first() {
        None => Ok(()),
        Some((byte, others)) => {
            if *byte == b',' {
                check_each_tag(others, from + 1)
            } else {
                Err(OscKind::BadTag.at(from))
            }
        }
    }
}

// Each byte before the first zero is a tag.
fn check_each_tag(bytes: &[u8], from: u32) -> Result<(), BundleFault>
    requires { from + length bytes.now < 2 ^ 32 }
    ensures { result ≡ checked (tag_fault from bytes.now) tt }
{
    for i in 0..bytes.len() {
        if bytes[i] == 0 {
            return Ok(());
        }
        if !is_tag(bytes[i]) {
            return Err(OscKind::BadTag.at(from + i as u32));
        }
    }
    Ok(())
}

fn is_tag(byte: u8) -> bool
    ensures { result ≡ is_tag byte }
{
    byte == b'i' || byte == b's'
}

// An argument for each tag stands there, and nothing more. The message begins at `first`.
fn check_arguments(bytes: &[u8], tags: &[u8], from: u32, first: u32) -> Result<(), BundleFault>
    requires { from + length bytes.now + 4 < 2 ^ 32 }
    ensures { result ≡ checked (arguments_fault first from tags.now bytes.now) tt }
{
    let mut rest = bytes;
    let mut offset = from;
    for tag in tags {
        let size = check_argument(*tag, rest, offset)?;
        rest = &rest[size..];
        offset += size as u32;
    }
    if rest.is_empty() {
        Ok(())
    } else {
        Err(OscKind::BadSize.at(first))
    }
}

// How many bytes the argument with this tag takes that stands in front.
fn check_argument(tag: u8, bytes: &[u8], from: u32) -> Result<usize, BundleFault>
    requires { from + length bytes.now + 4 < 2 ^ 32 }
    ensures value { result ≡ checked (argument_fault tag from bytes.now) (argument_size tag bytes.now) }
    ensures within { IfOk result (λ size. size ≤ length bytes.now) }
{
    if tag == b's' {
        return check_string(bytes, from);
    }
    check_length(bytes, 4, from)?;
    Ok(4)
}
