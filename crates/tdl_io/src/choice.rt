ghost use Rattle.std.specs.Prelude.{◌≡◌, ◌↔◌, ◌≤◌, length, None, Ok, IfOk, IsOk, IsErr, OnOk, OnErr};
ghost use Rattle.std.specs.Io.KnownBytes.{Appends, ReadConsumes};
ghost use Rattle.tdl_io.specs.Choice.{source_faults, source_remaining, IsAbsentSource, sink_faults, sink_contents, IsAbsentSink};
ghost use Rattle.tdl_io.specs.Choice.{wire_faults, wire_contents, IsAbsentWire, IsPlainWire, HasFailedWire};
ghost use Rattle.tdl_io.specs.Choice.{clock_last, clock_beats, clock_ended};
ghost use Rattle.tdl_io.specs.Faults.{one_more, CountsFault, HasCause};
ghost use Rattle.tdl_io.specs.Standard.{WroteFront};

use crate::absent::Absent;
use crate::outside::{Clock, Failed, Sink, Source, Wire};
use crate::plain::Plain;
use crate::sleep::SleepClock;
use crate::standard::{StdSink, StdSource};
use crate::udp::UdpWire;
use std::fs::File;
use std::io::{Read, Stdin, Stdout, Write};
use std::net::TcpStream;
use std::rt::HostRuntime;
use std::time;

/// A source that is chosen when the program starts: standard input, a connection, or none.
#[derive(Drop)]
pub enum AnySource<R = Stdin, S = TcpStream> {
    Standard(StdSource<R>),
    Stream(StdSource<S>),
    Absent(Absent),
}

impl<R: Read, S: Read> Source for AnySource<R, S> {
    ghost left = { λ _. None };

    ghost faults = { source_faults };

    /// Answers what the chosen one answers.
    fn pull(&mut self, into: &mut [u8]) -> Result<usize, Failed>
        ensures chosen { IsAbsentSource self.new ↔ IsAbsentSource self.old }
        ensures absent { IsAbsentSource self.old → (result ≡ Ok 0) × (into.new ≡ into.old) }
        ensures fits { IfOk result (λ count. count ≤ length into.new) }
        ensures cause { HasCause (source_faults self.old) (source_faults self.new) result }
        ensures counts { CountsFault (source_faults self.old) (source_faults self.new) result }

        // Where the reader itself tells what it has left, as one in memory does.
        ensures bytes { ReadConsumes (source_remaining R.remaining S.remaining self.old) (source_remaining R.remaining S.remaining self.new) result into.new }
    {
        match self {
            AnySource::Standard(source) => source.pull(into),
            AnySource::Stream(source) => source.pull(into),
            AnySource::Absent(source) => source.pull(into),
        }
    }
}

/// A sink that is chosen when the program starts: standard output, a file, a connection, or none.
#[derive(Drop)]
pub enum AnySink<W = Stdout, F = File, S = TcpStream> {
    Standard(StdSink<W>),
    File(StdSink<F>),
    Stream(StdSink<S>),
    Absent(Absent),
}

impl<W: Write, F: Write, S: Write> Sink for AnySink<W, F, S> {
    ghost held = { λ _. None };

    ghost faults = { sink_faults };

    ghost took = { λ s piece t.
        Appends (sink_contents W.contents F.contents S.contents s) (sink_contents W.contents F.contents S.contents t) piece
        × (sink_faults t ≡ sink_faults s) };

    ghost broke = { λ s piece t.
        WroteFront (sink_contents W.contents F.contents S.contents s) (sink_contents W.contents F.contents S.contents t) piece
        × (sink_faults t ≡ one_more (sink_faults s)) };

    /// Answers what the chosen one answers.
    fn put(&mut self, piece: &[u8]) -> Result<(), Failed>
        ensures chosen { IsAbsentSink self.new ↔ IsAbsentSink self.old }
        ensures absent { IsAbsentSink self.old → IsOk result }
        ensures cause { HasCause (sink_faults self.old) (sink_faults self.new) result }
        ensures counts { CountsFault (sink_faults self.old) (sink_faults self.new) result }

        // Where the writer itself tells what it holds, as one in memory does.
        ensures ok { OnOk result (Appends
            (sink_contents W.contents F.contents S.contents self.old) (sink_contents W.contents F.contents S.contents self.new) piece.now) }
        ensures err { OnErr result (WroteFront
            (sink_contents W.contents F.contents S.contents self.old) (sink_contents W.contents F.contents S.contents self.new) piece.now) }
    {
        match self {
            AnySink::Standard(sink) => sink.put(piece),
            AnySink::File(sink) => sink.put(piece),
            AnySink::Stream(sink) => sink.put(piece),
            AnySink::Absent(sink) => sink.put(piece),
        }
    }
}

/// A wire that is chosen when the program starts: UDP, the bytes of the packets to a file, or none.
#[derive(Drop)]
pub enum AnyWire<W = File> {
    Udp(UdpWire),
    Plain(Plain<StdSink<W>>),
    Absent(Absent),
}

impl<W: Write> Wire for AnyWire<W> {
    ghost sent = { λ _. None };

    ghost faults = { wire_faults };

    /// Answers what the chosen one answers.
    fn send(&mut self, packet: &[u8]) -> Result<(), Failed>
        ensures chosen { IsAbsentWire self.new ↔ IsAbsentWire self.old }
        ensures plain { IsPlainWire self.new ↔ IsPlainWire self.old }
        ensures absent { IsAbsentWire self.old → IsOk result }
        ensures cause { HasCause (wire_faults self.old) (wire_faults self.new) result }
        ensures counts { CountsFault (wire_faults self.old) (wire_faults self.new) result }

        // A wire of bytes alone that failed once fails from then on.
        ensures closed { IsPlainWire self.old → (IsErr result ↔ HasFailedWire self.new) }

        // Where the writer itself tells what it holds, as one in memory does.
        ensures ok { OnOk result (Appends (wire_contents W.contents self.old) (wire_contents W.contents self.new) packet.now) }
        ensures err { OnErr result (WroteFront (wire_contents W.contents self.old) (wire_contents W.contents self.new) packet.now) }
        ensures later { HasFailedWire self.old → IsErr result × (wire_contents W.contents self.new ≡ wire_contents W.contents self.old) }
    {
        match self {
            AnyWire::Udp(wire) => wire.send(packet),
            AnyWire::Plain(wire) => wire.send(packet),
            AnyWire::Absent(wire) => wire.send(packet),
        }
    }
}

/// A clock that is chosen when the program starts: one that waits, or none.
#[derive(Drop)]
pub enum AnyClock<T = HostRuntime> {
    Sleep(SleepClock<T>),
    Absent(Absent),
}

impl<T: time::Clock> Clock for AnyClock<T> {
    ghost last = { clock_last };

    ghost beats = { clock_beats };

    ghost ended = { clock_ended };

    /// Gives what the chosen one gives.
    fn beat(&mut self) -> Option<u64> {
        match self {
            AnyClock::Sleep(clock) => clock.beat(),
            AnyClock::Absent(clock) => clock.beat(),
        }
    }
}
