ghost use Rattle.std.specs.Prelude.{◌≡◌, ◌≤◌, IfOk};
ghost use Rattle.tdl_fraction.specs.Units.{last_units};
ghost use Rattle.tdl_core.specs.ReplyLines.{HasFrontier, refusal_line, reply_line};
ghost use Rattle.tdl_answer.specs.Asked.{unmade_line};

use crate::asked::Unmade;
use std::alloc::Global;
use std::marker::Model;
use tdl_control::{NoMemory, Text};
use tdl_core::{Refusal, Reply, ReplyLine};

const NO_MEMORY: &[u8] = b"no memory\n";

const SKIP: &[u8] = b"skip\n";

/// A line that is replied, with its line feed.
#[derive(Drop)]
pub struct ReplyText {
    line: Line,
}

#[derive(Drop)]
enum Line {
    // One that is always the same.
    Fixed(&'static [u8]),
    Reply(ReplyLine),
    Made(Text),
}

impl Model for ReplyText {
    ghost use Rattle.std.specs.Prelude.{List, ℕ};
    ghost use Rattle.tdl_answer.specs.ReplyTexts.{bytes_of};

    ghost Value = { List ℕ };

    ghost view = { λ r. bytes_of r.line };
}

impl ReplyText {
    /// A line that is always the same. It takes no memory.
    pub fn fixed(line: &'static [u8]) -> ReplyText
        ensures { result ≡ line.now }
    {
        ReplyText {
            line: Line::Fixed(line),
        }
    }

    /// The line's bytes.
    pub fn bytes(&self) -> &[u8]
        ensures { result.now ≡ self.now }
    {
        match &self.line {
            Line::Fixed(line) => *line,
            Line::Reply(line) => line.bytes(),
            Line::Made(line) => line.bytes(),
        }
    }
}

/// The line of a reply. The frontier is that after the call.
pub fn reply_text(alloc: Global, reply: &Reply, frontier: u64) -> Result<ReplyText, NoMemory>
    requires { frontier ≤ last_units }
    ensures { IfOk result (λ text. text ≡ reply_line frontier reply.now) }
{
    let line = reply.line(alloc, frontier)?;
    Ok(ReplyText {
        line: Line::Reply(line),
    })
}

/// The line of a refusal. The one that tells of no memory takes none.
pub fn refusal_text(alloc: Global, refusal: Refusal) -> Result<ReplyText, NoMemory>
    requires { HasFrontier refusal }
    ensures { IfOk result (λ text. text ≡ refusal_line refusal) }
{
    if refusal == Refusal::NoMemory {
        return Ok(ReplyText::fixed(NO_MEMORY));
    }
    let line = refusal.line(alloc)?;
    Ok(ReplyText {
        line: Line::Made(line),
    })
}

/// The line that says why a performer's text makes no call.
pub fn unmade_text(alloc: Global, unmade: Unmade) -> Result<ReplyText, NoMemory>
    ensures { IfOk result (λ text. text ≡ unmade_line unmade) }
{
    match unmade {
        Unmade::Nothing => Ok(ReplyText::fixed(SKIP)),
        Unmade::Refused { why } => {
            let line = why.line(alloc)?;
            Ok(ReplyText {
                line: Line::Made(line),
            })
        }
        Unmade::NoMemory => Ok(ReplyText::fixed(NO_MEMORY)),
    }
}
