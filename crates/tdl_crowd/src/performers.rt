// The performers.
ghost use Rattle.std.specs.Prelude.{◌≤◌, length, IfOk};
ghost use Rattle.tdl_session.specs.Passes.{IsPassOf, SamePass};
ghost use Rattle.tdl_core.specs.Replies.{IsPerformer};

use crate::calls::{Accepted, Called, Ended, Fault};
use crate::texts::text_at;
use std::alloc::{AllocError, Global};
use std::sync::Wait;
use tdl_answer::asked_call;
use tdl_core::{Call, Core, Reply};
use tdl_session::{Caller, Hall, Pass};

// How many performers there are.
const COUNT: u32 = 8;

/// A performer of a number, who says so many lines, and what it was answered.
#[derive(Drop)]
pub struct Performer {
    number: u32,
    lines: u32,
    told: Vec<Accepted>,
}

impl Performer {
    /// The lines that were accepted, in the order in which they were said.
    pub fn told(&self) -> &[Accepted] {
        &self.told
    }
}

impl Caller<Core> for Performer {
    type End = Ended;

    ghost did = { λ tempo number history old new end. Unit {0} };

    fn did_law() {}

    fn make_calls<R: Wait>(&mut self, rt: &R, hall: &Hall<Core>, pass: &mut Pass<Core>) -> Ended {
        for line in 0..self.lines {
            let who = self.number;
            let text = text_at(who, line);
            let place = say(rt, hall, pass, text)?;
            let called = Called::Line { who, text };
            self.told.push(Accepted { place, called })?;
        }
        Ok(())
    }
}

// The place of what the pass's holder says.
fn say<R: Wait>(rt: &R, hall: &Hall<Core>, pass: &mut Pass<Core>, text: &str) -> Result<u32, Fault>
    requires pass { IsPassOf hall.now.shared pass.old }
    requires performer { IsPerformer pass.old.number }
    ensures { SamePass pass.old pass.new }
{
    let call = asked_call(hall.alloc, text.as_bytes())?;
    let looks = matches!(call, Call::Look);
    let reply = hall.shared.call(rt, hall.alloc, pass, call)?;
    match &reply {
        Reply::Looked { place, .. } if looks => Ok(*place),
        Reply::Swapped { place, .. } if !looks => Ok(*place),
        _ => Err(Fault::OtherReply),
    }
}

/// The performers from number 1 on, each with so many lines.
pub fn performers_of(alloc: Global, lines: u32) -> Result<Vec<Performer>, AllocError>
    ensures { IfOk result (λ v. length v.items ≤ 8) }
{
    let mut performers = Vec::new(alloc);
    for place in 0..COUNT {
        let told = Vec::new(alloc);
        performers.push(Performer {
            number: place + 1,
            lines,
            told,
        })?;
    }
    Ok(performers)
}
