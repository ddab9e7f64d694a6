ghost use Rattle.std.specs.Prelude.{◌≡◌, ◌≤◌, codes, IfOk};
ghost use Rattle.tdl_fraction.specs.Units.{last_units};
ghost use Rattle.tdl_core.specs.ReplyLines.{finished_line, frontier_line, full_line, looked_line, swapped_line, ticked_line};

use crate::pieces::put;
use arrayvec::ArrayVec;
use itoa::Buffer;
use std::alloc::Global;
use std::marker::Model;
use tdl_control::{NoMemory, Text};
use tdl_fraction::print_units;
use tdl_notes::Messages;
use tdl_osc::Packets;
use thiserror::Error;

// At most so many bytes are in the line of a swap: two numbers of up to ten digits, and eleven bytes round them.
const SWAPPED: usize = 31;

/// What an accepted call is answered. The place is that of its entry in the history, from 0.
#[derive(Drop)]
pub enum Reply {
    /// The change holds from the cycle `boundary` on.
    Swapped {
        place: u32,
        boundary: u32,
    },
    /// What is played, by orbit: the text of the reply, without its line feed.
    Looked {
        place: u32,
        text: Text,
    },
    /// These packets and messages are to be sent to the two wires, each in this order.
    Ticked {
        place: u32,
        osc: Packets,
        midi: Notes,
    },
    /// These messages end the notes that sound.
    Finished {
        place: u32,
        midi: Notes,
    },
}

/// Messages of MIDI 1.0, three bytes each, in the order in which they are sent.
pub type Notes = Messages;

/// Why a call was refused. It changed nothing then. Frontiers are in tick units.
#[derive(Clone, Copy, Debug, PartialEq, Eq, Error)]
pub enum Refusal {
    #[error("out of memory")]
    NoMemory,
    /// The history has as many swaps and looks, or ticks, as it may have.
    #[error("the history is full at {entries} entries")]
    Full { entries: u32 },
    /// A tick does not go on from the last one.
    #[error("the tick is not above {frontier} units")]
    Backward { frontier: u64 },
    /// A tick goes on by more than a cycle.
    #[error("the tick is more than a cycle above {frontier} units")]
    TooLong { frontier: u64 },
    /// A tick goes past the last cycle.
    #[error("the tick goes past the last cycle, from {frontier} units")]
    PastLast { frontier: u64 },
}

impl From<NoMemory> for Refusal {
    ghost use Rattle.std.specs.Prelude.{◌≡◌};
    ghost use Rattle.tdl_core.specs.declared.replies.Refusal.TheVariants.{NoMemory};

    ghost from_gives = { λ _ refusal. refusal ≡ NoMemory };

    fn from(_error: NoMemory) -> Refusal {
        Refusal::NoMemory
    }
}

/// A line that tells a reply. That of a swap takes no memory.
#[derive(Drop)]
pub struct ReplyLine {
    line: Line,
}

#[derive(Drop)]
enum Line {
    Short(ArrayVec<u8, SWAPPED>),
    Long(Text),
}

impl Model for ReplyLine {
    ghost use Rattle.std.specs.Prelude.{List, ℕ};
    ghost use Rattle.tdl_core.specs.Lines.{bytes_of};

    ghost Value = { List ℕ };

    ghost view = { λ r. bytes_of r.line };
}

impl ReplyLine {
    /// The line's bytes, without a line feed.
    pub fn bytes(&self) -> &[u8]
        ensures { result.now ≡ self.now }
    {
        match &self.line {
            Line::Short(line) => line.as_slice(),
            Line::Long(line) => line.bytes(),
        }
    }
}

impl Reply {
    ghost use Rattle.tdl_core.specs.ReplyLines.{reply_line};

    /// The reply's line, with its line feed: `at BOUNDARY place PLACE`, `desk FRONTIER playing LIST muted
    /// LIST soloed LIST place PLACE`, `tick FRONTIER osc PACKETS midi MESSAGES`, or `finish FRONTIER midi MESSAGES`. The
    /// frontier is that after the call, in tick units, and stands there in cycles.
    pub fn line(&self, alloc: Global, frontier: u64) -> Result<ReplyLine, NoMemory>
        requires { frontier ≤ last_units }
        ensures { IfOk result (λ line. line ≡ reply_line frontier self.now) }
    {
        let long = match self {
            Reply::Swapped { place, boundary } => {
                return Ok(ReplyLine {
                    line: Line::Short(swapped_line(*place, *boundary)),
                });
            }
            Reply::Looked { text, .. } => looked_line(alloc, text)?,
            Reply::Ticked { osc, midi, .. } => ticked_line(alloc, osc.len(), midi.len(), frontier)?,
            Reply::Finished { midi, .. } => finished_line(alloc, midi.len(), frontier)?,
        };
        Ok(ReplyLine {
            line: Line::Long(long),
        })
    }
}

impl Refusal {
    ghost use Rattle.tdl_core.specs.ReplyLines.{HasFrontier, refusal_line};

    /// The refusal's line, with its line feed: `no memory`, or `refused` with the kind and the number
    /// that it carries. Frontiers stand there in cycles.
    pub fn line(self, alloc: Global) -> Result<Text, NoMemory>
        requires { HasFrontier self }
        ensures { IfOk result (λ line. line ≡ refusal_line self) }
    {
        match self {
            Refusal::NoMemory => no_memory_line(alloc),
            Refusal::Full { entries } => full_line(alloc, entries),
            Refusal::Backward { frontier } => frontier_line(alloc, b"refused Backward ", frontier),
            Refusal::TooLong { frontier } => frontier_line(alloc, b"refused TooLong ", frontier),
            Refusal::PastLast { frontier } => frontier_line(alloc, b"refused PastLast ", frontier),
        }
    }
}

// The line of a swap, of which a run has most.
fn swapped_line(place: u32, boundary: u32) -> ArrayVec<u8, SWAPPED>
    ensures { result.items ≡ swapped_line place boundary }
{
    let mut line = ArrayVec::new();
    put(&mut line, b"at ");
    put(&mut line, Buffer::new().format(boundary).as_bytes());
    put(&mut line, b" place ");
    put(&mut line, Buffer::new().format(place).as_bytes());
    put(&mut line, b"\n");
    line
}

// The line of a look.
fn looked_line(alloc: Global, text: &Text) -> Result<Text, NoMemory>
    ensures { IfOk result (λ line. line ≡ looked_line text.now) }
{
    let mut line = Text::new(alloc);
    line.add(text.bytes())?;
    line.add(b"\n")?;
    Ok(line)
}

// The line of a tick that sends so many packets and messages.
fn ticked_line(
    alloc: Global,
    packets: usize,
    messages: usize,
    frontier: u64,
) -> Result<Text, NoMemory>
    requires { frontier ≤ last_units }
    ensures { IfOk result (λ line. line ≡ ticked_line packets messages frontier) }
{
    let mut line = Text::new(alloc);
    line.add(b"tick ")?;
    line.add(print_units(frontier).bytes())?;
    line.add(b" osc ")?;
    line.add(Buffer::new().format(packets).as_bytes())?;
    line.add(b" midi ")?;
    line.add(Buffer::new().format(messages).as_bytes())?;
    line.add(b"\n")?;
    Ok(line)
}

// The line of the finish, which sends so many messages.
fn finished_line(alloc: Global, messages: usize, frontier: u64) -> Result<Text, NoMemory>
    requires { frontier ≤ last_units }
    ensures { IfOk result (λ line. line ≡ finished_line messages frontier) }
{
    let mut line = Text::new(alloc);
    line.add(b"finish ")?;
    line.add(print_units(frontier).bytes())?;
    line.add(b" midi ")?;
    line.add(Buffer::new().format(messages).as_bytes())?;
    line.add(b"\n")?;
    Ok(line)
}

// The line of a call that ran out of memory.
fn no_memory_line(alloc: Global) -> Result<Text, NoMemory>
    ensures { IfOk result (λ line. line ≡ codes "no memory\n") }
{
    let mut line = Text::new(alloc);
    line.add(b"no memory\n")?;
    Ok(line)
}

// The line of a history that has as many entries as it may have.
fn full_line(alloc: Global, entries: u32) -> Result<Text, NoMemory>
    ensures { IfOk result (λ line. line ≡ full_line entries) }
{
    let mut line = Text::new(alloc);
    line.add(b"refused Full ")?;
    line.add(Buffer::new().format(entries).as_bytes())?;
    line.add(b"\n")?;
    Ok(line)
}

// The line of a refusal with the frontier that it carries.
fn frontier_line(alloc: Global, kind: &[u8], frontier: u64) -> Result<Text, NoMemory>
    requires { frontier ≤ last_units }
    ensures { IfOk result (λ line. line ≡ frontier_line kind.now frontier) }
{
    let mut line = Text::new(alloc);
    line.add(kind)?;
    line.add(print_units(frontier).bytes())?;
    line.add(b"\n")?;
    Ok(line)
}
