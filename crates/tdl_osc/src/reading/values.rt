// What bundles say, as values.
ghost use Rattle.std.specs.Prelude.{◌≡◌, ◌≤◌, length, drop, map, IfOk};
ghost use Rattle.tdl_osc.specs.BundleFault.{text_of, argument_size, number_of};
ghost use Rattle.tdl_osc.specs.inside.Said.{said_argument, said_arguments, said_message, said_messages, AreFreeArguments, IsFreeMessage, AreFreeElements};
ghost use Rattle.tdl_osc.specs.Values.{osc_argument, osc_message};

use super::messages::tags_of;
use super::strings::{after_string, text_of};
use byteorder::{BigEndian, ByteOrder};
use std::alloc::Global;
use tdl_control::{List, NoMemory, Text};

/// An argument of a message: a number of 32 bits, or a text.
#[derive(Drop)]
pub enum Arg {
    Int(i32),
    Word(Text),
}

/// The arguments of a message, in their order.
pub type Args = List<Arg>;

/// A message of OSC 1.0: its address, which begins with `/`, and its arguments.
#[derive(Drop)]
pub struct Message {
    pub address: Text,
    pub args: Args,
}

/// The messages of a bundle, in their order.
pub type Messages = List<Message>;

/// A bundle of OSC 1.0: its time tag, seconds since 1900 in 1/2^32, and its messages.
#[derive(Drop)]
pub struct OscBundle {
    pub timetag: u64,
    pub messages: Messages,
}

// The messages that stand there, each after its size.
pub(crate) fn messages_of(alloc: Global, bytes: &[u8]) -> Result<Messages, NoMemory>
    requires { AreFreeElements bytes.now }
    ensures { IfOk result (λ messages. map osc_message messages ≡ said_messages 0 bytes.now) }
{
    let mut messages = Messages::new(alloc);
    let mut rest = bytes;
    while !rest.is_empty() {
        let size = BigEndian::read_u32(rest) as usize;
        let (contents, others) = rest[4..].split_at(size);
        messages.push(message_of(alloc, contents)?)?;
        rest = others;
    }
    Ok(messages)
}

// The message that these bytes are.
fn message_of(alloc: Global, bytes: &[u8]) -> Result<Message, NoMemory>
    requires { IsFreeMessage bytes.now }
    ensures { IfOk result (λ message. osc_message message ≡ said_message bytes.now) }
{
    let contents = after_string(bytes);
    Ok(Message {
        address: copied(alloc, text_of(bytes))?,
        args: arguments_of(alloc, tags_of(contents), after_string(contents))?,
    })
}

// The arguments with these tags.
fn arguments_of(alloc: Global, tags: &[u8], bytes: &[u8]) -> Result<Args, NoMemory>
    requires { AreFreeArguments tags.now bytes.now }
    ensures { IfOk result (λ args. map osc_argument args ≡ said_arguments tags.now bytes.now) }
{
    let mut args = Args::new(alloc);
    let mut rest = bytes;
    for tag in tags {
        args.push(argument_of(alloc, *tag, rest)?)?;
        rest = after_argument(*tag, rest);
    }
    Ok(args)
}

// The argument with this tag that stands in front.
fn argument_of(alloc: Global, tag: u8, bytes: &[u8]) -> Result<Arg, NoMemory>
    requires { argument_size tag bytes.now ≤ length bytes.now }
    ensures { IfOk result (λ arg. osc_argument arg ≡ said_argument tag bytes.now) }
{
    if tag == b's' {
        Ok(Arg::Word(copied(alloc, text_of(bytes))?))
    } else {
        Ok(Arg::Int(number_of(bytes)))
    }
}

// What follows the argument with this tag that stands in front.
fn after_argument(tag: u8, bytes: &[u8]) -> &[u8]
    requires { argument_size tag bytes.now ≤ length bytes.now }
    ensures { result.now ≡ drop (argument_size tag bytes.now) bytes.now }
{
    if tag == b's' {
        after_string(bytes)
    } else {
        &bytes[4..]
    }
}

// The number that stands in front.
fn number_of(bytes: &[u8]) -> i32
    requires { 4 ≤ length bytes.now }
    ensures { result ≡ number_of bytes.now }
{
    BigEndian::read_i32(bytes)
}

fn copied(alloc: Global, bytes: &[u8]) -> Result<Text, NoMemory>
    ensures { IfOk result (λ text. text ≡ bytes.now) }
{
    let mut text = Text::new(alloc);
    text.add(bytes)?;
    Ok(text)
}
