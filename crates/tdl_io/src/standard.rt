ghost use Rattle.std.specs.Prelude.{◌≡◌, ◌≤◌, length, None, IfOk, OnOk, OnErr};
ghost use Rattle.std.specs.Io.KnownBytes.{Appends, ReadConsumes};
ghost use Rattle.tdl_io.specs.Faults.{one_more, CountsFault, HasCause};
ghost use Rattle.tdl_io.specs.Standard.{fault_count, source_fault_count, reader_of, writer_of, WroteFront};

use crate::outside::{Failed, Sink, Source};
use crate::patient::{Patient, StdReader, StdWriter};
use std::io::{Read, Write};

/// A source over a reader of std. It does not buffer: each pull is one read, which is made again, up
/// to sixteen times, where a signal interrupts it. It tells nothing, since what a real reader gives is
/// not known.
#[derive(Drop)]
pub struct StdSource<R> {
    reader: Patient<StdReader<R>>,
    faults: u64,
}

impl<R: Read> StdSource<R> {
    /// A source over the reader, without a fault.
    pub fn of(reader: R) -> StdSource<R>
        ensures faults { source_fault_count result ≡ 0 }
        ensures reader { reader_of result ≡ reader }
    {
        StdSource {
            reader: Patient::of(StdReader { reader }),
            faults: 0,
        }
    }
}

impl<R: Read> Source for StdSource<R> {
    ghost left = { λ _. None };

    ghost faults = { source_fault_count };

    /// Fails where the reader fails. Seventeen reads that are interrupted one after another are a failure.
    fn pull(&mut self, into: &mut [u8]) -> Result<usize, Failed>
        ensures fits { IfOk result (λ count. count ≤ length into.new) }
        ensures cause { HasCause (source_fault_count self.old) (source_fault_count self.new) result }
        ensures counts { CountsFault (source_fault_count self.old) (source_fault_count self.new) result }

        // Where the reader itself tells what it has left, as one in memory does.
        ensures bytes { ReadConsumes (R.remaining (reader_of self.old)) (R.remaining (reader_of self.new)) result into.new }
    {
        match self.reader.read(into) {
            Ok(count) => Ok(count),
            Err(_) => {
                self.faults = self.faults.saturating_add(1);
                Err(Failed)
            }
        }
    }
}

/// A sink over a writer of std. It does not buffer: a write that fails is seen at its put. A write
/// that a signal interrupts is made again, up to sixteen times. It tells nothing, since what a real
/// writer holds is not known.
#[derive(Drop)]
pub struct StdSink<W> {
    writer: Patient<StdWriter<W>>,
    faults: u64,
}

impl<W: Write> StdSink<W> {
    /// A sink over the writer, without a fault.
    pub fn of(writer: W) -> StdSink<W>
        ensures faults { fault_count result ≡ 0 }
        ensures writer { writer_of result ≡ writer }
    {
        StdSink {
            writer: Patient::of(StdWriter { writer }),
            faults: 0,
        }
    }
}

impl<W: Write> Sink for StdSink<W> {
    ghost held = { λ _. None };

    ghost faults = { fault_count };

    ghost took = { λ s piece t. Appends (W.contents (writer_of s)) (W.contents (writer_of t)) piece × (fault_count t ≡ fault_count s) };

    ghost broke = { λ s piece t. WroteFront (W.contents (writer_of s)) (W.contents (writer_of t)) piece × (fault_count t ≡ one_more (fault_count s)) };

    /// Fails where the writer fails or takes no byte of what is left of the piece. Seventeen writes that
    /// are interrupted one after another are a failure.
    #[tactic(auto, using(crate::proofs::Written::wrote_none, crate::proofs::Written::wrote_same, crate::proofs::Written::wrote_all))]
    fn put(&mut self, piece: &[u8]) -> Result<(), Failed>
        ensures cause { HasCause (fault_count self.old) (fault_count self.new) result }
        ensures counts { CountsFault (fault_count self.old) (fault_count self.new) result }

        // Where the writer itself tells what it holds, as one in memory does.
        ensures ok { OnOk result (Appends (W.contents (writer_of self.old)) (W.contents (writer_of self.new)) piece.now) }
        ensures err { OnErr result (WroteFront (W.contents (writer_of self.old)) (W.contents (writer_of self.new)) piece.now) }
    {
        let mut rest = piece;
        while !rest.is_empty() {
            match self.writer.write(rest) {
                Ok(count) if count > 0 => rest = &rest[count..],
                _ => {
                    self.faults = self.faults.saturating_add(1);
                    return Err(Failed);
                }
            }
        }
        Ok(())
    }
}
