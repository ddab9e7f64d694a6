ghost use Rattle.std.specs.Prelude.{◌≡◌, ◌+◌, ◌<◌, ◌≤◌, [], length, IfOk, OnErr, IsTrue, Ok, Err};
ghost use Rattle.tdl_io.specs.Faults.{CountRose};
ghost use Rattle.tdl_lines.specs.declared.faults.ReadFault.TheVariants.{Failed};
ghost use Rattle.tdl_lines.specs.Lines.{trimmed};
ghost use Rattle.tdl_lines.specs.Pulls.{PulledAs};
ghost use Rattle.tdl_lines.specs.Reading.{HasRead, ReadsNext, fresh};
ghost use Rattle.tdl_lines.specs.inside.InChunk.{ReadsPiece};

use crate::chunk::Chunk;
use crate::faults::ReadFault;
use std::alloc::Global;
use std::marker::Model;
use tdl_control::NoMemory;
use tdl_io::Source;

// So many bytes of a source count.
const MAX_INPUT: usize = 1 << 24;

/// What comes next from a source of lines.
#[derive(Clone, Copy, Debug, PartialEq, Eq)]
pub enum Next {
    /// A line, which [`LineReader::line`] shows.
    Line,
    /// The source ended, and every line was given.
    Ended,
    /// The source has more bytes than count, and every line that ends in those that count was given.
    Spent,
}

// Where the line stands that the last call gave.
#[derive(Clone, Copy, PartialEq, Eq)]
pub(crate) enum Given {
    // In the chunk, whole.
    Whole,
    // In `piece`, where its parts were joined.
    Joined,
}

/// Reads the lines of a source, of which it takes 16,384 bytes at a time. A line ends with a line
/// feed or with the source, and one carriage return before that is no part of it. The first 2^24
/// bytes count, and one more is taken to see that there are more.
#[derive(Drop)]
pub struct LineReader {
    chunk: Box<Chunk>,
    // What was read of a line that does not stand whole in the chunk.
    piece: Vec<u8>,
    given: Option<Given>,
    left: usize,
    ended: bool,
}

impl Model for LineReader {
    ghost use Rattle.tdl_lines.specs.Reading.{Reading};

    ghost Value = { Reading };

    ghost use Rattle.tdl_lines.specs.Fields.{IsInOrder, line_of, pending_of};

    ghost view = { λ r. record { pending = pending_of r; left = r.left; ended = r.ended; line = line_of r } };

    ghost invariant = { IsInOrder };
}

impl LineReader {
    /// A reader before its first byte. It takes the memory of its buffer here. Later it takes memory
    /// only for a line that does not stand whole in the buffer.
    pub fn new(alloc: Global) -> Result<LineReader, NoMemory>
        ensures fresh { IfOk result (λ reader. reader ≡ fresh) }
        ensures read { IfOk result (λ reader. HasRead reader [] []) }
    {
        Ok(LineReader {
            chunk: Box::new(alloc, Chunk::new())?,
            piece: Vec::new(alloc),
            given: None,
            left: MAX_INPUT + 1,
            ended: false,
        })
    }

    /// The line that the last call of [`LineReader::next`] gave.
    pub fn line(&self) -> &[u8]
        ensures { result.now ≡ self.now.line }
    {
        match self.given {
            None => &[],
            Some(Given::Whole) => trimmed(self.chunk.front()),
            Some(Given::Joined) => trimmed(&self.piece),
        }
    }

    /// Reads the next line, and takes as many bytes of the source as that needs. Once the source has
    /// ended it is not asked again, and no memory is taken. It is never asked where a line waits. After a fault of the source the call may
    /// be made again. After [`ReadFault::NoMemory`] bytes of the line are lost: nothing is said of
    /// later calls.
    pub fn next<S: Source>(&mut self, source: &mut S) -> Result<Next, ReadFault>
        ensures reads { ReadsNext (PulledAs S.gave S.lost result self.old source.old source.new) result self.old self.new
            (S.left source.old) (S.left source.new) }
        ensures shrinks { result ≡ Ok Next.Line → self.new.left + length self.new.pending < self.old.left + length self.old.pending }
        ensures unasked { IsTrue self.old.ended → source.new ≡ source.old }
        ensures counts { S.faults source.old ≤ S.faults source.new }
        ensures failed { result ≡ Err Failed → CountRose (S.faults source.old) (S.faults source.new) }
    {
        if let Some(Given::Joined) = self.given {
            self.piece.clear();
        }
        self.given = None;
        while !self.ended {
            if let Some(given) = read_on(&mut self.chunk, &mut self.piece)? {
                self.given = Some(given);
                return Ok(Next::Line);
            }
            if self.left == 0 {
                return Ok(Next::Spent);
            }
            let count = self.chunk.fill(source, self.left)?;
            self.left -= count;
            self.ended = count == 0;
        }
        if self.piece.is_empty() {
            return Ok(Next::Ended);
        }
        self.given = Some(Given::Joined);
        Ok(Next::Line)
    }
}

// Reads up to the next line feed, and tells where the line stands then. Where the chunk has none,
// all of it is read, and goes behind the piece.
fn read_on(chunk: &mut Chunk, piece: &mut Vec<u8>) -> Result<Option<Given>, NoMemory>
    ensures ok { IfOk result (λ given. ReadsPiece given chunk.old.unread chunk.new piece.old.items piece.new.items) }
    ensures err { OnErr result (piece.new.items ≡ piece.old.items) }
{
    let found = chunk.read();
    if found && piece.is_empty() {
        return Ok(Some(Given::Whole));
    }
    piece.extend_from_slice(chunk.front())?;
    Ok(if found { Some(Given::Joined) } else { None })
}

// A line without a carriage return at its end.
fn trimmed(line: &[u8]) -> &[u8]
    ensures { result.now ≡ trimmed line.now }
{
    line.strip_suffix(b"\r").unwrap_or(line)
}
