// What is replied to a line of a script, before it is made a text.
ghost use Rattle.std.specs.Prelude.{◌≡◌, ◌↔◌, ◌≤◌, IfOk, IsTrue};
ghost use Rattle.tdl_fraction.specs.Units.{last_units};
ghost use Rattle.tdl_core.specs.ReplyLines.{HasFrontier, refusal_line, reply_line};
ghost use Rattle.tdl_answer.specs.Answers.{no_memory_reply};
ghost use Rattle.tdl_answer.specs.Asked.{unmade_line};
ghost use Rattle.tdl_app.specs.inside.Responses.{is_lacking_look};

use std::alloc::Global;
use std::marker::Model;
use tdl_answer::{ReplyText, Unmade, refusal_text, reply_text, unmade_text};
use tdl_control::NoMemory;
use tdl_core::{Refusal, Reply};

// The reply to a performer for whose line there is no memory.
const NO_MEMORY: &[u8] = b"no memory\n";

// The same without its line feed.
const LACKS: &[u8] = b"no memory";

// A line that is to be replied. It takes no memory of its own.
#[derive(Drop)]
pub(crate) struct Response {
    cause: Cause,
}

// What makes the line.
#[derive(Drop)]
enum Cause {
    // One that is always the same.
    Fixed(&'static [u8]),
    Accepted { reply: Reply, frontier: u64 },
    Refused(Refusal),
    Unmade(Unmade),
}

impl Model for Response {
    ghost use Rattle.std.specs.Prelude.{List, ℕ};
    ghost use Rattle.tdl_app.specs.inside.Responses.{CanBeTold, response_line};

    ghost Value = { List ℕ };

    ghost view = { λ r. response_line r.cause };

    ghost invariant = { λ r. CanBeTold r.cause };
}

impl Response {
    // A line that is always the same.
    pub fn fixed(line: &'static [u8]) -> Response
        ensures { result ≡ line.now }
    {
        Response {
            cause: Cause::Fixed(line),
        }
    }

    // The line of an accepted call. The frontier is that after the call.
    pub fn accepted(reply: Reply, frontier: u64) -> Response
        requires { frontier ≤ last_units }
        ensures { result ≡ reply_line frontier reply }
    {
        Response {
            cause: Cause::Accepted { reply, frontier },
        }
    }

    // The line of a refused call.
    pub fn refused(refusal: Refusal) -> Response
        requires { HasFrontier refusal }
        ensures { result ≡ refusal_line refusal }
    {
        Response {
            cause: Cause::Refused(refusal),
        }
    }

    // The line of a text that makes no call.
    pub fn unmade(why: Unmade) -> Response
        ensures { result ≡ unmade_line why }
    {
        Response {
            cause: Cause::Unmade(why),
        }
    }

    // The line as a text.
    pub fn text(&self, alloc: Global) -> Result<ReplyText, NoMemory>
        ensures { IfOk result (λ text. text ≡ self.now) }
    {
        match &self.cause {
            Cause::Fixed(line) => Ok(ReplyText::fixed(*line)),
            Cause::Accepted { reply, frontier } => reply_text(alloc, reply, *frontier),
            Cause::Refused(refusal) => refusal_text(alloc, *refusal),
            Cause::Unmade(why) => unmade_text(alloc, *why),
        }
    }

    // Whether the line says that there is no memory.
    #[tactic(auto, using(crate::proofs::LackedReplies::reply_lacks))]
    pub fn is_no_memory(&self) -> bool
        ensures { IsTrue result ↔ (self.now ≡ no_memory_reply) }
    {
        match &self.cause {
            Cause::Fixed(line) => *line == NO_MEMORY,
            Cause::Accepted { reply, .. } => is_lacking_look(reply),
            Cause::Refused(refusal) => *refusal == Refusal::NoMemory,
            Cause::Unmade(why) => *why == Unmade::NoMemory,
        }
    }
}

// Whether it is a look with that text. The lines of other accepted calls have other words.
fn is_lacking_look(reply: &Reply) -> bool
    ensures { result ≡ is_lacking_look reply.now }
{
    match reply {
        Reply::Looked { text, .. } => text.bytes() == LACKS,
        Reply::Swapped { .. } | Reply::Ticked { .. } | Reply::Finished { .. } => false,
    }
}
