// Sources, sinks and wires: over readers and writers that give and take few bytes, in memory, over UDP, and over TCP.
mod slow;

use self::slow::{Failing, SlowReader, SlowWriter};
use std::alloc::Global;
use std::io;
use std::io::{ErrorKind, Read, Write};
use std::net::{Ipv4Addr, TcpListener, TcpStream, UdpSocket};
use std::test::Fail;
use std::time::Duration;
use tdl_io::{
    AnySink, AnySource, Failed, Framed, MemSink, MemSource, MemWire, Plain, Sink, Source, StdSink,
    StdSource, UdpWire, Wire, frames_tell_packets,
};

// Each device may go to another thread.
fn sent<T: Send>(device: T) -> T {
    device
}

// A piece or a packet, and whether it is taken.
type Piece = (&'static [u8], bool);

fn puts<K: Sink>(sink: &mut K, pieces: &[Piece]) -> bool {
    for (piece, is_taken) in pieces {
        if sink.put(piece).is_ok() != *is_taken {
            return false;
        }
    }
    true
}

fn sends<W: Wire>(wire: &mut W, packets: &[Piece]) -> bool {
    for (packet, is_taken) in packets {
        if wire.send(packet).is_ok() != *is_taken {
            return false;
        }
    }
    true
}

// The size of a buffer, and the bytes that come into it, if there is no fault.
type Pull = (usize, Option<&'static [u8]>);

fn pulls<S: Source>(source: &mut S, pulls: &[Pull]) -> bool {
    for (size, given) in pulls {
        let mut buffer = [0; 8];
        if *size > 8 {
            return false;
        }
        let count = source.pull(&mut buffer[..*size]).ok();
        if count.map(|count| &buffer[..count]) != *given {
            return false;
        }
    }
    true
}

// The third read fails.
static SLOW_PULLS: [Pull; 6] = [
    (4, Some(b"ab")),
    (1, Some(b"c")),
    (4, None),
    (4, Some(b"de")),
    (4, Some(b"")),
    (0, Some(b"")),
];

#[test]
fn reads_what_the_reader_gives_or_fails(rt: HostRuntime) {
    let mut source = sent(StdSource::of(SlowReader::of(b"abcde", 2, Failing::at(3))));
    assert!(rt; pulls(&mut source, &SLOW_PULLS));
}

// The fifth write fails.
static SLOW_PUTS: [Piece; 3] = [(b"abcde", true), (b"fgh", false), (b"ijk", true)];

#[test]
fn writes_each_piece_whole_or_fails(rt: HostRuntime) {
    let mut writer = SlowWriter::of(rt.alloc(), 2, Failing::at(5));
    let mut sink = sent(StdSink::of(&mut writer));
    assert!(rt; puts(&mut sink, &SLOW_PUTS));
    drop(sink);
    assert!(rt; writer.bytes() == b"abcdefgijk".as_slice());
}

static NO_PUTS: [Piece; 2] = [(b"", true), (b"a", false)];

#[test]
fn fails_at_a_writer_that_takes_nothing(rt: HostRuntime) {
    let mut sink = StdSink::of(SlowWriter::of(rt.alloc(), 0, Failing::at(0)));
    assert!(rt; puts(&mut sink, &NO_PUTS));
}

// A signal interrupts the calls from the second up to this one.
fn interrupted_up_to(last: u32) -> Failing {
    Failing {
        first: 2,
        last,
        kind: ErrorKind::Interrupted,
    }
}

// With sixteen interruptions, and with one more.
static PATIENT_PULLS: [Pull; 3] = [(4, Some(b"ab")), (4, Some(b"cd")), (4, Some(b"e"))];

static IMPATIENT_PULLS: [Pull; 3] = [(4, Some(b"ab")), (4, None), (4, Some(b"cd"))];

fn interrupted_reader(last: u32) -> StdSource<SlowReader> {
    StdSource::of(SlowReader::of(b"abcde", 2, interrupted_up_to(last)))
}

#[test]
fn reads_again_up_to_sixteen_times_where_a_signal_interrupts(rt: HostRuntime) {
    assert!(rt; pulls(&mut interrupted_reader(17), &PATIENT_PULLS));
    assert!(rt; pulls(&mut interrupted_reader(18), &IMPATIENT_PULLS));
}

static PATIENT_PUTS: [Piece; 2] = [(b"abcde", true), (b"fg", true)];

static IMPATIENT_PUTS: [Piece; 2] = [(b"abcde", false), (b"fg", true)];

#[test]
fn writes_again_up_to_sixteen_times_where_a_signal_interrupts(rt: HostRuntime) {
    let mut patient = SlowWriter::of(rt.alloc(), 2, interrupted_up_to(17));
    assert!(rt; puts(&mut StdSink::of(&mut patient), &PATIENT_PUTS));
    assert!(rt; patient.bytes() == b"abcdefg".as_slice());
    let mut impatient = SlowWriter::of(rt.alloc(), 2, interrupted_up_to(18));
    assert!(rt; puts(&mut StdSink::of(&mut impatient), &IMPATIENT_PUTS));
    assert!(rt; impatient.bytes() == b"abfg".as_slice());
}

// The second and the seventh call are to fail.
static SINK_PUTS: [Piece; 7] = [
    (b"ab", true),
    (b"c", false),
    (b"cdef", false),
    (b"cde", true),
    (b"", true),
    (b"f", false),
    (b"", false),
];

#[test]
fn a_sink_in_memory_fails_where_listed_and_where_full(rt: HostRuntime) -> Result<(), Fail> {
    let mut sink = sent(MemSink::of(rt.alloc(), 5, &[2, 7])?);
    assert!(rt; puts(&mut sink, &SINK_PUTS));
    assert!(rt; sink.bytes() == b"abcde".as_slice());
    Ok(())
}

// The second and the seventh call are to fail.
static SOURCE_PULLS: [Pull; 8] = [
    (3, Some(b"abc")),
    (3, None),
    (0, Some(b"")),
    (1, Some(b"d")),
    (5, Some(b"efg")),
    (5, Some(b"")),
    (5, None),
    (5, Some(b"")),
];

// The second and the tenth call are to fail.
static WIRE_SENDS: [Piece; 10] = [
    (b"ab", true),
    (b"c", false),
    (b"cdefg", false),
    (b"", true),
    (b"cde", true),
    (b"fg", false),
    (b"f", true),
    (b"g", false),
    (b"", false),
    (b"", false),
];

static PACKETS: [&[u8]; 4] = [b"ab", b"", b"cde", b"f"];

// Whether the wire sent these packets.
fn has_sent(wire: &MemWire, packets: &[&[u8]]) -> bool {
    if wire.len() != packets.len() {
        return false;
    }
    for (i, packet) in packets.iter().enumerate() {
        if wire.packet(i) != *packet {
            return false;
        }
    }
    true
}

#[test]
fn a_source_and_a_wire_in_memory_fail_where_listed(rt: HostRuntime) -> Result<(), Fail> {
    let mut source = sent(MemSource::of(rt.alloc(), b"abcdefg", &[2, 7])?);
    assert!(rt; source.left() == b"abcdefg".as_slice());
    assert!(rt; pulls(&mut source, &SOURCE_PULLS));
    assert!(rt; source.left().is_empty());
    let mut wire = sent(MemWire::of(rt.alloc(), 4, 6, &[2, 10])?);
    assert!(rt; wire.is_empty());
    assert!(rt; sends(&mut wire, &WIRE_SENDS));
    assert!(rt; has_sent(&wire, &PACKETS) && !wire.is_empty());
    Ok(())
}

// Three bytes at a time. The second call is to fail.
static PIECE_PULLS: [Pull; 6] = [
    (8, Some(b"abc")),
    (8, None),
    (2, Some(b"de")),
    (0, Some(b"")),
    (8, Some(b"fg")),
    (8, Some(b"")),
];

#[test]
fn a_source_in_memory_gives_pieces(rt: HostRuntime) -> Result<(), Fail> {
    let mut source = sent(MemSource::pieces(rt.alloc(), b"abcdefg", 3, &[2])?);
    assert!(rt; pulls(&mut source, &PIECE_PULLS));
    assert!(rt; source.left().is_empty());
    Ok(())
}

// The fourth put fails.
static PLAIN_SENDS: [Piece; 6] = [
    (b"abc", true),
    (b"", true),
    (b"de", true),
    (b"f", false),
    (b"g", false),
    (b"", false),
];

#[test]
fn puts_packets_up_to_the_first_fault(rt: HostRuntime) {
    let mut writer = SlowWriter::of(rt.alloc(), 8, Failing::at(3));
    let mut wire = sent(Plain::of(StdSink::of(&mut writer)));
    assert!(rt; sends(&mut wire, &PLAIN_SENDS));
    drop(wire);
    assert!(rt; writer.bytes() == b"abcde".as_slice());
}

const LONG: &[u8] = &[7; 300];

static FRAMED_SENDS: [Piece; 3] = [(b"abc", true), (b"", true), (LONG, true)];

#[test]
fn puts_each_packet_after_its_length(rt: HostRuntime) {
    let mut writer = SlowWriter::of(rt.alloc(), 512, Failing::at(0));
    let mut wire = Framed::of(StdSink::of(&mut writer));
    assert!(rt; sends(&mut wire, &FRAMED_SENDS));
    drop(wire);
    let long = writer
        .bytes()
        .strip_prefix(b"\0\0\0\x03abc\0\0\0\0\0\0\x01\x2c".as_slice());
    assert!(rt; long == Some(LONG));
    frames_tell_packets();
}

// The second put fails, which is that of the first packet.
static CUT_SENDS: [Piece; 3] = [(b"abc", false), (b"", false), (b"de", false)];

// The third put fails, which is that of the second packet's length.
static CLOSED_SENDS: [Piece; 3] = [(b"abc", true), (b"de", false), (b"", false)];

// Whether a wire over a sink of which one put fails answers so, and these bytes are put.
fn frames(alloc: Global, call: u32, packets: &[Piece], bytes: &[u8]) -> bool {
    let mut writer = SlowWriter::of(alloc, 8, Failing::at(call));
    let mut wire = Framed::of(StdSink::of(&mut writer));
    let answered = sends(&mut wire, packets);
    drop(wire);
    answered && writer.bytes() == bytes
}

#[test]
fn frames_packets_up_to_the_first_fault(rt: HostRuntime) {
    assert!(rt; frames(rt.alloc(), 2, &CUT_SENDS, b"\0\0\0\x03"));
    assert!(rt; frames(rt.alloc(), 3, &CLOSED_SENDS, b"\0\0\0\x03abc"));
}

// Where SuperDirt listens.
const LISTENER: (Ipv4Addr, u16) = (Ipv4Addr::LOCALHOST, 57120);

// Waits for a datagram that is the packet. Other programs may send to the port too.
fn receives(receiver: &UdpSocket, packet: &[u8]) -> io::Result<()> {
    receiver.set_read_timeout(Some(Duration::from_secs(5)))?;
    let mut buffer = [0; 64];
    for _ in 0..1_000 {
        let (count, _) = receiver.recv_from(&mut buffer)?;
        if &buffer[..count] == packet {
            return Ok(());
        }
    }
    Err(io::Error::from(ErrorKind::TimedOut))
}

static DATAGRAMS: [&[u8]; 3] = [b"/dirt/play", b"", b"/hush"];

#[test]
fn sends_each_packet_as_one_datagram(rt: HostRuntime) -> Result<(), Fail> {
    let receiver = UdpSocket::bind(&rt, LISTENER);
    let mut wire = sent(UdpWire::bind(&rt)?);
    for packet in &DATAGRAMS {
        assert!(rt; wire.send(packet) == Ok(()));
        // Where another program has the port, only the sends are seen.
        if let Ok(receiver) = &receiver {
            receives(receiver, packet)?;
        }
    }
    Ok(())
}

// A datagram over IPv4 has at most 65,507 bytes.
#[test]
fn fails_at_a_packet_that_is_too_long(rt: HostRuntime) -> Result<(), Fail> {
    let mut wire = UdpWire::bind(&rt)?;
    assert!(rt; wire.send(&[0; 65_508]) == Err(Failed));
    assert!(rt; wire.send(b"/hush") == Ok(()));
    Ok(())
}

// What comes over a connection, and then its end.
static STREAM_PULLS: [Pull; 2] = [(8, Some(b"look\n")), (8, Some(b""))];

#[test]
fn a_connection_is_a_source_and_a_sink(rt: HostRuntime) -> Result<(), Fail> {
    let listener = TcpListener::bind(&rt, (Ipv4Addr::LOCALHOST, 0))?;
    let mut far = TcpStream::connect(&rt, listener.local_addr()?)?;
    let (near, _) = listener.accept()?;
    near.set_read_timeout(Some(Duration::from_secs(5)))?;
    far.set_read_timeout(Some(Duration::from_secs(5)))?;
    let mut source: AnySource = sent(AnySource::Stream(StdSource::of(near.try_clone()?)));
    let mut sink: AnySink = sent(AnySink::Stream(StdSink::of(near)));
    assert!(rt; sink.put(b"skip\n") == Ok(()));
    let mut reply = [0; 5];
    far.read_exact(&mut reply)?;
    assert!(rt; reply == *b"skip\n");
    far.write_all(b"look\n")?;
    drop(far);
    assert!(rt; pulls(&mut source, &STREAM_PULLS));
    Ok(())
}
