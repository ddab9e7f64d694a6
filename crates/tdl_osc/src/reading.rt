// Bundles of OSC 1.0, as they are read: `from` is the offset of the first byte.
ghost use Rattle.std.specs.Prelude.{◌≡◌, ◌+◌, ◌^◌, ◌<◌, ◌≤◌, ℤ, pos, nat_abs, List, length, map, IfOk, OnOk, IfErr, IfNone, MatchResult};
ghost use Rattle.byteorder.specs.Endian.{twos_complement};
ghost use Rattle.tdl_control.specs.declared.faults.Faulted.TheVariants.{NoMemory};
ghost use Rattle.tdl_osc.specs.BundleFault.{number_of, size_fault, element_fault, elements_fault, head_fault, bundle_fault};
ghost use Rattle.tdl_osc.specs.inside.Said.{checked};
ghost use Rattle.tdl_osc.specs.OscBundle.{OscMessage, IsBundle};
ghost use Rattle.tdl_osc.specs.RefusesBundle.{RefusesBundle};
ghost use Rattle.tdl_osc.specs.Values.{osc_message};

mod messages;
mod strings;
mod values;

use crate::faults::{BundleFault, OscKind};
use byteorder::{BigEndian, ByteOrder};
use messages::{check_length, check_message};
use std::alloc::Global;
use tdl_control::Faulted;
use values::messages_of;
pub use values::{Arg, Args, Message, Messages, OscBundle};

// What a bundle begins with.
const HEAD: &[u8; 8] = b"#bundle\0";

/// Reads a bundle of OSC 1.0: the head, the time tag, and messages up to the end, each after its size.
/// `At` is the first fault in the order of the bytes, and stands at an offset, counted from 0. Memory
/// for the messages comes from the allocator.
pub fn read(alloc: Global, bytes: &[u8]) -> Result<OscBundle, Faulted<OscKind>>
    requires { length bytes.now ≤ 2 ^ 24 }
    ensures bundle { IfOk result (λ b. IsBundle bytes.now (pos b.timetag) (map osc_message b.messages)) }
    ensures refused { IfErr result (RefusesBundle bytes.now) }
    ensures only { (tag : ℤ) (messages : List OscMessage) → IsBundle bytes.now tag messages
        → MatchResult result (λ b. (pos b.timetag ≡ tag) × (map osc_message b.messages ≡ messages)) (λ fault. fault ≡ NoMemory) }
{
    if let Some(fault) = check_bundle(bytes) {
        return Err(Faulted::At {
            kind: fault.kind,
            at: fault.at,
        });
    }
    Ok(OscBundle {
        timetag: BigEndian::read_u64(&bytes[8..]),
        messages: messages_of(alloc, &bytes[16..])?,
    })
}

/// The first fault of bytes, where they are no bundle of OSC 1.0, and else None. Nothing is copied, and
/// no memory is taken.
pub fn check_bundle(bytes: &[u8]) -> Option<BundleFault>
    requires { length bytes.now ≤ 2 ^ 24 }
    ensures fault { result ≡ bundle_fault bytes.now }
    ensures bundle { IfNone result ((tag : ℤ) × ((messages : List OscMessage) × IsBundle bytes.now tag messages)) }
    ensures only { (tag : ℤ) (messages : List OscMessage) → IsBundle bytes.now tag messages → result ≡ None }
{
    check_whole(bytes).err()
}

fn check_whole(bytes: &[u8]) -> Result<(), BundleFault>
    requires { length bytes.now ≤ 2 ^ 24 }
    ensures { result ≡ checked (bundle_fault bytes.now) tt }
{
    check_head(bytes)?;
    check_length(&bytes[8..], 8, 8)?;
    check_elements(&bytes[16..], 16)
}

fn check_head(bytes: &[u8]) -> Result<(), BundleFault>
    ensures value { result ≡ checked (head_fault bytes.now) tt }
    ensures within { OnOk result (8 ≤ length bytes.now) }
{
    if bytes.starts_with(HEAD) {
        Ok(())
    } else {
        Err(OscKind::BadHead.at(0))
    }
}

// Messages, each after its size, and nothing more.
fn check_elements(bytes: &[u8], from: u32) -> Result<(), BundleFault>
    requires { from + length bytes.now + 8 < 2 ^ 32 }
    ensures { result ≡ checked (elements_fault from 0 bytes.now) tt }
{
    let mut rest = bytes;
    let mut offset = from;
    while !rest.is_empty() {
        let size = check_element(rest, offset)?;
        rest = &rest[size..];
        offset += size as u32;
    }
    Ok(())
}

// How many bytes the message takes that stands in front, with its size.
fn check_element(bytes: &[u8], from: u32) -> Result<usize, BundleFault>
    requires { from + length bytes.now + 8 < 2 ^ 32 }
    ensures value { result ≡ checked (element_fault from bytes.now) (4 + nat_abs (number_of bytes.now)) }
    ensures within { IfOk result (λ size. size ≤ length bytes.now) }
{
    check_length(bytes, 4, from)?;
    let size = check_size(BigEndian::read_u32(bytes), from)?;
    let rest = &bytes[4..];
    check_length(rest, size, from + 4)?;
    check_message(&rest[..size], from + 4)?;
    Ok(4 + size)
}

// The size of a message. From 2^31 on it is a negative number of 32 bits.
fn check_size(number: u32, from: u32) -> Result<usize, BundleFault>
    ensures { result ≡ checked (size_fault (twos_complement 4 number) from) (nat_abs (twos_complement 4 number)) }
{
    if number == 0 {
        return Err(OscKind::BadSize.at(from));
    }
    if number >= 1 << 31 {
        return Err(OscKind::BadSize.at(from));
    }
    if number % 4 != 0 {
        return Err(OscKind::BadSize.at(from));
    }
    Ok(number as usize)
}
