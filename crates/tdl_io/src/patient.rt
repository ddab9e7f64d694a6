//! A call that a signal interrupts is made again.
ghost use Rattle.std.specs.Prelude.{◌≡◌, ◌↔◌, ℕ, List, Result, IsTrue};
ghost use Rattle.std.specs.declared.io.Error.{Error};
ghost use Rattle.tdl_io.specs.inside.Again.{most_again, IsInterrupted, MadeAgain, ReadsOnce, ReadsOnceOf, WritesOnce, WritesOnceOf, SendsOnce};

use std::io;
use std::io::{ErrorKind, Read, Write};
use std::net::{Ipv4Addr, UdpSocket};

// How often a call is made again at most.
const MOST_AGAIN: u8 = 16;

// What is read from, one call at a time.
trait OneRead {
    // What a call may do: from the device and the buffer before it, by its answer, to both after it.
    ghost reads: { Self × List ℕ → Result ℕ Error → Self × List ℕ → Type 0 };

    fn read_once(&mut self, into: &mut [u8]) -> io::Result<usize>
        ensures { reads (self.old, into.old) result (self.new, into.new) };
}

// What is written to, one call at a time.
trait OneWrite {
    // What a call with these bytes may do: from the device before it, by its answer, to the device after it.
    ghost writes: { List ℕ → Self → Result ℕ Error → Self → Type 0 };

    fn write_once(&mut self, piece: &[u8]) -> io::Result<usize>
        ensures { writes piece.now self.old result self.new };
}

// Whether a signal interrupted the call.
fn is_interrupted(answer: &io::Result<usize>) -> bool
    ensures { IsTrue result ↔ IsInterrupted answer.now }
{
    match answer {
        Ok(_) => false,
        Err(error) => error.kind() == ErrorKind::Interrupted,
    }
}

// A device whose calls are made again where a signal interrupts them. No other call of it is made.
#[derive(Drop)]
pub(crate) struct Patient<D> {
    device: D,
}

impl<D> Patient<D> {
    pub(crate) fn of(device: D) -> Patient<D>
        ensures { result.device ≡ device }
    {
        Patient { device }
    }
}

impl<D: OneRead> Patient<D> {
    fn read_again(&mut self, into: &mut [u8]) -> io::Result<usize>
        ensures { MadeAgain D.reads most_again (self.old.device, into.old) result (self.new.device, into.new) }
    {
        let mut tries = MOST_AGAIN;
        loop {
            let answer = self.device.read_once(into);
            if tries == 0 || !is_interrupted(&answer) {
                return answer;
            }
            tries -= 1;
        }
    }
}

impl<D: OneWrite> Patient<D> {
    fn write_again(&mut self, piece: &[u8]) -> io::Result<usize>
        ensures { MadeAgain (D.writes piece.now) most_again self.old.device result self.new.device }
    {
        let mut tries = MOST_AGAIN;
        loop {
            let answer = self.device.write_once(piece);
            if tries == 0 || !is_interrupted(&answer) {
                return answer;
            }
            tries -= 1;
        }
    }
}

// A reader of std.
#[derive(Drop)]
pub(crate) struct StdReader<R> {
    pub(crate) reader: R,
}

impl<R: Read> OneRead for StdReader<R> {
    ghost reads = { ReadsOnceOf R.remaining };

    fn read_once(&mut self, into: &mut [u8]) -> io::Result<usize> {
        self.reader.read(into)
    }
}

impl<R: Read> Patient<StdReader<R>> {
    #[tactic(auto, using(crate::proofs::MadeAgain::reads_as_one))]
    pub(crate) fn read(&mut self, into: &mut [u8]) -> io::Result<usize>
        ensures again { MadeAgain (ReadsOnceOf R.remaining) most_again (self.old.device, into.old) result (self.new.device, into.new) }
        ensures does { ReadsOnce (R.remaining self.old.device.reader) into.old result (R.remaining self.new.device.reader) into.new }
    {
        self.read_again(into)
    }
}

// A writer of std.
#[derive(Drop)]
pub(crate) struct StdWriter<W> {
    pub(crate) writer: W,
}

impl<W: Write> OneWrite for StdWriter<W> {
    ghost writes = { WritesOnceOf W.contents };

    fn write_once(&mut self, piece: &[u8]) -> io::Result<usize> {
        self.writer.write(piece)
    }
}

impl<W: Write> Patient<StdWriter<W>> {
    #[tactic(auto, using(crate::proofs::MadeAgain::writes_as_one))]
    pub(crate) fn write(&mut self, piece: &[u8]) -> io::Result<usize>
        ensures again { MadeAgain (WritesOnceOf W.contents piece.now) most_again self.old.device result self.new.device }
        ensures does { WritesOnce piece.now (W.contents self.old.device.writer) result (W.contents self.new.device.writer) }
    {
        self.write_again(piece)
    }
}

// A socket that sends to one address.
#[derive(Drop)]
pub(crate) struct UdpSender {
    pub(crate) socket: UdpSocket,
    pub(crate) listener: (Ipv4Addr, u16),
}

impl OneWrite for UdpSender {
    ghost writes = { SendsOnce };

    fn write_once(&mut self, piece: &[u8]) -> io::Result<usize> {
        self.socket.send_to(piece, self.listener)
    }
}

impl Patient<UdpSender> {
    pub(crate) fn send(&mut self, packet: &[u8]) -> io::Result<usize>
        ensures { MadeAgain (SendsOnce packet.now) most_again self.old.device result self.new.device }
    {
        self.write_again(packet)
    }
}
